//! The names and titles of a record's fields (MARC 21, fields X00, X10, X11, 130, 240 and 245), as `specs/Names.antt` has
//! them.
ghost use Rattle.std.specs.Prelude.{◌≡◌, IfOk};
ghost use Rattle.workset_keys.specs.Names.{HasTexts, first_indicator, second_indicator, skip_of, name_codes, name_of, title130_of, title240_of, title245_of};

use naco_normal::heading::{heading, title};
use std::alloc::Global;
use union_base::body::{Body, Parts};
use union_base::bytes::Bytes;
use union_base::field::Field;
use union_base::memory::Memory;

/// The name in a field 100, 110, 111, 700, 710 or 711: the heading of its subfields `a b c d q`, in fields X00, or else of
/// `a b c d n` (MARC 21, X00, X10 and X11). It is empty where these texts have no letter or digit.
///
/// Returns `Memory` if allocation fails.
pub fn name_of(alloc: Global, field: &Field) -> Result<Bytes, Memory>
    requires { HasTexts field.now }
    ensures { IfOk result (λ b. b ≡ name_of field.now) }
{
    heading(alloc, field.body.subfields(), name_codes(&field.tag))
}

/// The title in a field 130.
pub(crate) fn title130_of(alloc: Global, field: &Field) -> Result<Bytes, Memory>
    requires { HasTexts field.now }
    ensures { IfOk result (λ b. b ≡ title130_of field.now) }
{
    let skip = skip_of(first_indicator(&field.body));
    title(alloc, field.body.subfields(), b"anp", skip)
}

/// The title in a field 240.
pub(crate) fn title240_of(alloc: Global, field: &Field) -> Result<Bytes, Memory>
    requires { HasTexts field.now }
    ensures { IfOk result (λ b. b ≡ title240_of field.now) }
{
    let skip = skip_of(second_indicator(&field.body));
    title(alloc, field.body.subfields(), b"anp", skip)
}

/// The title in a field 245: the title form of its subfields `a b n p`, without the characters that its second indicator
/// skips (MARC 21, 245). It is empty where these texts have no letter or digit.
///
/// Returns `Memory` if allocation fails.
pub fn title245_of(alloc: Global, field: &Field) -> Result<Bytes, Memory>
    requires { HasTexts field.now }
    ensures { IfOk result (λ b. b ≡ title245_of field.now) }
{
    let skip = skip_of(second_indicator(&field.body));
    title(alloc, field.body.subfields(), b"abnp", skip)
}

/// The codes of a personal name, or of any other.
fn name_codes(tag: &[u8; 3]) -> &'static [u8]
    ensures { result.now ≡ name_codes tag.now }
{
    match tag {
        [_, b'0', b'0'] => b"abcdq",
        _ => b"abcdn",
    }
}

/// How many characters the indicator skips.
fn skip_of(indicator: u8) -> u8
    ensures { result ≡ skip_of indicator }
{
    if indicator.is_ascii_digit() {
        indicator - b'0'
    } else {
        0
    }
}

fn first_indicator(body: &Body) -> u8
    ensures { result ≡ first_indicator body.now }
{
    match body.parts() {
        Parts::Control { .. } => 0,
        Parts::Data { ind1, .. } => ind1,
    }
}

fn second_indicator(body: &Body) -> u8
    ensures { result ≡ second_indicator body.now }
{
    match body.parts() {
        Parts::Control { .. } => 0,
        Parts::Data { ind2, .. } => ind2,
    }
}
