//! The holdings of one record.
ghost use Rattle.std.specs.Prelude.{◌≡◌, IfOk};
ghost use Rattle.holdings_book.specs.Holdings.{first_text, text_in, holding_of, holdings_of};

use marc_parts::parts::{has_tag, how_many};
use std::alloc::Global;
use union_base::body::Body;
use union_base::bytes::Bytes;
use union_base::copied::Copied;
use union_base::field::Field;
use union_base::memory::Memory;
use union_base::record_id::RecordId;
use union_base::subfields::Subfields;

/// The tag of the fields that tell holdings (MARC 21, 852, Location).
const LOCATION_TAG: [u8; 3] = *b"852";

/// The code of the location's text (MARC 21, 852, `$a`).
const LOCATION: u8 = b'a';

/// The code of the text of a part of the location, as a collection (MARC 21, 852, `$b`).
const SUBLOCATION: u8 = b'b';

/// The code of the classification part of a call number (MARC 21, 852, `$h`).
const CLASSIFICATION: u8 = b'h';

/// Where a copy of a record stands. A text that its field has not is empty.
#[derive(Debug, PartialEq, Eq, Drop)]
pub struct Holding {
    /// The record.
    pub id: RecordId,
    /// The library or collection that has the copy.
    pub location: Bytes,
    /// The part of it in which the copy stands.
    pub sublocation: Bytes,
    /// The classification part of the copy's call number.
    pub classification: Bytes,
}

/// The holdings of the record with that id and these fields: one for each field 852, in the order of the fields, with the
/// texts of its first `$a`, `$b` and `$h`.
///
/// Returns `Memory` if allocation fails.
pub fn holdings_of(alloc: Global, id: &RecordId, fields: &[Field]) -> Result<Vec<Holding>, Memory>
    ensures { IfOk result (λ v. v.items ≡ holdings_of id.now fields.now) }
{
    let mut holdings = Vec::with_capacity(alloc, how_many(&LOCATION_TAG, fields))?;
    for field in fields {
        if has_tag(&LOCATION_TAG, field) {
            holdings.push(holding_of(alloc, id, &field.body)?)?;
        }
    }
    Ok(holdings)
}

/// The holding that a field with that content tells.
fn holding_of(alloc: Global, id: &RecordId, body: &Body) -> Result<Holding, Memory>
    ensures { IfOk result (λ h. h ≡ holding_of id.now body.now) }
{
    Ok(Holding {
        id: id.copied(alloc)?,
        location: Bytes::of(alloc, text_in(LOCATION, body))?,
        sublocation: Bytes::of(alloc, text_in(SUBLOCATION, body))?,
        classification: Bytes::of(alloc, text_in(CLASSIFICATION, body))?,
    })
}

/// The text of the content's first subfield with that code, empty where there is none.
fn text_in(code: u8, body: &Body) -> &[u8]
    ensures { result.now ≡ text_in code body.now }
{
    first_text(code, body.subfields())
}

fn first_text<'a>(code: u8, subfields: Subfields<'a>) -> &'a [u8]
    ensures { result.now ≡ first_text code subfields.entry }
{
    for subfield in subfields {
        if subfield.code == code {
            return subfield.text;
        }
    }
    &[]
}
