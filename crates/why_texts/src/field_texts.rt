//! Fields of records as text.
ghost use Rattle.std.specs.Prelude.{◌≡◌, ◌++◌, OnOk};
ghost use Rattle.std.specs.List.{flat_map};
ghost use Rattle.why_texts.specs.FieldTexts.{subfield_text, body_text, place_text, field_text};

use crate::ids::add_id;
use std::alloc::AllocError;
use union_base::body::{Body, Parts};
use union_base::field::Field;
use union_base::one_line::add_shown;
use union_base::record_id::RecordId;
use union_base::subfield::Subfield;
use union_base::subfields::Subfields;

/// Adds a dollar sign, the subfield's code and its text.
fn add_subfield(text: &mut Vec<u8>, subfield: &Subfield<'_>) -> Result<(), AllocError>
    ensures { OnOk result (text.new.items ≡ text.old.items ++ subfield_text subfield.now) }
{
    text.push(b'$')?;
    text.push(subfield.code)?;
    add_shown(text, subfield.text)
}

fn add_subfields(text: &mut Vec<u8>, subfields: Subfields<'_>) -> Result<(), AllocError>
    ensures { OnOk result (text.new.items
        ≡ text.old.items ++ flat_map subfield_text subfields.entry) }
{
    for subfield in subfields {
        add_subfield(text, &subfield)?;
    }
    Ok(())
}

/// Adds a control field's text, or the subfields of a data field.
pub fn add_body(text: &mut Vec<u8>, body: &Body) -> Result<(), AllocError>
    ensures { OnOk result (text.new.items ≡ text.old.items ++ body_text body.now) }
{
    match body.parts() {
        Parts::Control { text: bytes } => add_shown(text, bytes),
        Parts::Data { subfields, .. } => add_subfields(text, subfields),
    }
}

/// Adds where a text stands, in which record, and the text.
pub fn add_place(
    text: &mut Vec<u8>,
    place: &[u8],
    id: &RecordId,
    bytes: &[u8],
) -> Result<(), AllocError>
    ensures { OnOk result (text.new.items
        ≡ text.old.items ++ place_text place.now id.now bytes.now) }
{
    text.extend_from_slice(place)?;
    text.extend_from_slice(b" of ")?;
    add_id(text, id)?;
    text.extend_from_slice(b" ")?;
    add_shown(text, bytes)?;
    Ok(())
}

/// Adds the tag of a field, its record, and what it has.
pub fn add_field(text: &mut Vec<u8>, id: &RecordId, field: &Field) -> Result<(), AllocError>
    ensures { OnOk result (text.new.items ≡ text.old.items ++ field_text id.now field.now) }
{
    text.extend_from_slice(&field.tag)?;
    text.extend_from_slice(b" of ")?;
    add_id(text, id)?;
    text.extend_from_slice(b" ")?;
    add_body(text, &field.body)?;
    Ok(())
}
