//! The fields that the catalogue writes itself.
ghost use Rattle.std.specs.Prelude.{◌≡◌, ◌<◌, ◌≤◌, ◌∷◌, [], IfOk, OnOk, IsTrue, codes, length};
ghost use Rattle.std.specs.List.{list_all};
ghost use Rattle.union_base.specs.Fields.{is_field, is_subfield, is_text, spelled};
ghost use Rattle.union_base.specs.Bodies.{Control, Data};
ghost use Rattle.workset_keys.specs.WorkKeys.{own_name};
ghost use Rattle.catalogue_core.specs.Sound.{is_id};
ghost use Rattle.catalogue_export.specs.Exported.{field_of, control_field, last_boundary, begins_character, front_within, key_field, contributor_field};

use std::alloc::Global;
use union_base::body::{Body, DELIMITER};
use union_base::bytes::Bytes;
use union_base::copied::Copied;
use union_base::field::Field;
use union_base::memory::Memory;
use union_base::record_id::RecordId;
use union_base::subfield::Subfield;
use workset_keys::work_key::own_name;

/// The name under which the catalogue's control numbers stand (MARC 21, 003).
const CATALOGUE: &[u8; 5] = b"UNION";

/// The longest work key that is shown, in bytes (this project's own).
const LONGEST_KEY: usize = 9_000;

/// 001, the control number in the catalogue: `LIB.CTL`.
pub(crate) fn number_field(alloc: Global, id: &RecordId) -> Result<Field, Memory>
    requires { IsTrue (is_id id.now) }
    ensures { IfOk result (λ f. control_field (codes "001") (own_name id.now) ≡ f ∷ []) }
{
    Ok(made_control(b"001", own_name(alloc, id)?))
}

/// 003, the name of the catalogue.
pub(crate) fn catalogue_field(alloc: Global) -> Result<Field, Memory>
    ensures { IfOk result (λ f. control_field (codes "003") (codes "UNION") ≡ f ∷ []) }
{
    let text = Bytes::of(alloc, CATALOGUE)?;
    Ok(made_control(b"003", text))
}

/// 008, the fixed-length data elements.
pub(crate) fn fixed_field(alloc: Global, text: &Bytes) -> Result<Field, Memory>
    requires { IsTrue (is_text text.now) }
    ensures { IfOk result (λ f. control_field (codes "008") text.now ≡ f ∷ []) }
{
    Ok(made_control(b"008", text.copied(alloc)?))
}

/// 991, the work key, as far as it is shown. The buffer, which the data fields of an edition share, is written over.
pub(crate) fn key_field(alloc: Global, key: &[u8], buffer: &mut Vec<u8>) -> Result<Field, Memory>
    requires { IsTrue (is_text key.now) }
    ensures { IfOk result (λ f. key_field key.now ≡ f ∷ []) }
{
    let subfields = [Subfield {
        code: b'a',
        text: front_within(key, LONGEST_KEY),
    }];
    made_blank(alloc, b"991", &subfields, buffer)
}

/// 993, a contributor: its library in $a and its control number there in $b. The buffer is written over.
pub(crate) fn contributor_field(
    alloc: Global,
    id: &RecordId,
    buffer: &mut Vec<u8>,
) -> Result<Field, Memory>
    requires { IsTrue (is_id id.now) }
    ensures { IfOk result (λ f. contributor_field id.now ≡ f ∷ []) }
{
    let subfields = [
        Subfield {
            code: b'a',
            text: id.library.bytes(),
        },
        Subfield {
            code: b'b',
            text: id.control.bytes(),
        },
    ];
    made_blank(alloc, b"993", &subfields, buffer)
}

/// The longest prefix of the text that has at most `most` bytes and ends between two characters.
fn front_within(text: &[u8], most: usize) -> &[u8]
    ensures { result.now ≡ front_within most text.now }
{
    if text.len() <= most {
        text
    } else {
        &text[..last_boundary(text, most)]
    }
}

/// The greatest place up to that one at which a character begins.
fn last_boundary(text: &[u8], place: usize) -> usize
    requires { place < length text.now }
    ensures value { result ≡ last_boundary text.now place }
    ensures bound { result ≤ place }
{
    let mut at = place;
    while at > 0 && !begins_character(text[at]) {
        at -= 1;
    }
    at
}

fn begins_character(byte: u8) -> bool
    ensures { result ≡ begins_character byte }
{
    byte < 0x80 || 0xC0 <= byte
}

/// A control field.
fn made_control(tag: &[u8; 3], text: Bytes) -> Field
    requires { IsTrue (is_field tag.now (Control text)) }
    ensures { field_of tag.now (Control text) ≡ result ∷ [] }
{
    Field {
        tag: *tag,
        body: Body::control(text),
    }
}

/// A data field with blank indicators. The buffer is written over.
fn made_blank(
    alloc: Global,
    tag: &[u8; 3],
    subfields: &[Subfield<'_>],
    buffer: &mut Vec<u8>,
) -> Result<Field, Memory>
    requires { IsTrue (is_field tag.now (Data 0x20 0x20 subfields.now)) }
    ensures { IfOk result (λ f. field_of tag.now (Data 0x20 0x20 subfields.now) ≡ f ∷ []) }
{
    let body = blank_body(alloc, subfields, buffer)?;
    Ok(Field { tag: *tag, body })
}

/// The content of a data field with blank indicators. It is spelled in the buffer, and copied from there in its size.
fn blank_body(
    alloc: Global,
    subfields: &[Subfield<'_>],
    buffer: &mut Vec<u8>,
) -> Result<Body, Memory>
    requires some { 1 ≤ length subfields.now }
    requires formed { IsTrue (list_all is_subfield subfields.now) }
    ensures { IfOk result (λ b. b ≡ Data 0x20 0x20 subfields.now) }
{
    spell_blank(subfields, buffer)?;
    Ok(Body::spelled_by(Bytes::of(alloc, buffer.as_slice())?))
}

/// Leaves in the buffer the bytes of blank indicators and these subfields alone.
fn spell_blank(subfields: &[Subfield<'_>], buffer: &mut Vec<u8>) -> Result<(), Memory>
    ensures { OnOk result (buffer.new.items ≡ spelled (Data 0x20 0x20 subfields.now)) }
{
    buffer.clear();
    buffer.extend_from_slice(b"  ")?;
    for subfield in subfields {
        buffer.extend_from_slice(&[DELIMITER, subfield.code])?;
        buffer.extend_from_slice(subfield.text)?;
    }
    Ok(())
}
