//! The fields of a record by their tags.
ghost use Rattle.std.specs.Prelude.{◌≡◌, find, option_copied};
ghost use Rattle.marc_parts.specs.Parts.{has_tag, first_under, how_many, control_text, text_under, control_number};

use crate::marc_record::Record;
use union_base::blanks::trimmed;
use union_base::body::{Body, Parts};
use union_base::field::Field;

/// Whether the field has the tag. Takes no memory.
pub fn has_tag(tag: &[u8; 3], field: &Field) -> bool
    ensures { result ≡ has_tag tag.now field.now }
{
    field.tag == *tag
}

/// The first field with the tag. Takes no memory.
pub fn first_under<'a>(tag: &[u8; 3], fields: &'a [Field]) -> Option<&'a Field>
    ensures { option_copied result ≡ first_under tag.now fields.now }
{
    fields.iter().find(|f| has_tag(tag, f))
}

/// How many fields have the tag. Takes no memory.
pub fn how_many(tag: &[u8; 3], fields: &[Field]) -> usize
    ensures { result ≡ how_many tag.now fields.now }
{
    fields.iter().filter(|f| has_tag(tag, f)).count()
}

/// The text of a control field, and an empty one of a data field. Takes no memory.
pub fn control_text(body: &Body) -> &[u8]
    ensures { result.now ≡ control_text body.now }
{
    match body.parts() {
        Parts::Control { text } => text,
        Parts::Data { .. } => &[],
    }
}

/// The text of the first control field with the tag, empty where there is none. Takes no memory.
pub fn text_under<'a>(tag: &[u8; 3], fields: &'a [Field]) -> &'a [u8]
    ensures { result.now ≡ text_under tag.now fields.now }
{
    match first_under(tag, fields) {
        Some(field) => control_text(&field.body),
        None => &[],
    }
}

/// The record's control number: field 001 without the blanks at its ends (MARC 21, 001), empty where there is none. Takes
/// no memory.
pub fn control_number(rec: &Record) -> &[u8]
    ensures { result.now ≡ control_number rec.now }
{
    trimmed(text_under(b"001", rec.fields.as_slice()))
}
