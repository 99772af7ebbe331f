//! What a record's texts are written in.
ghost use Rattle.std.specs.Prelude.{◌≡◌};
ghost use Rattle.std.specs.List.{list_all};
ghost use Rattle.std.specs.Str.{is_utf8};
ghost use Rattle.marc_parts.specs.Loads.{is_utf8_subfield, is_utf8_field};
ghost use Rattle.authority_names.specs.Records.{is_plain_subfield, is_plain_field};
ghost use Rattle.marc_parts.specs.Loads.{is_plain};

use union_base::body::Parts;
use union_base::field::Field;
use union_base::subfields::Subfields;

/// Begins a sequence that changes the character set (MARC-8).
const ESCAPE: u8 = 0x1B;

/// Whether all texts are ASCII without the escape.
pub(crate) fn are_plain(fields: &[Field]) -> bool
    ensures { result ≡ list_all is_plain_field fields.now }
{
    fields.iter().all(is_plain_field)
}

fn is_plain_field(field: &Field) -> bool
    ensures { result ≡ is_plain_field field.now }
{
    match field.body.parts() {
        Parts::Control { text } => is_plain(text),
        Parts::Data { subfields, .. } => are_plain_subfields(subfields),
    }
}

fn are_plain_subfields(subfields: Subfields<'_>) -> bool
    ensures { result ≡ list_all is_plain_subfield subfields.entry }
{
    for subfield in subfields {
        if !is_plain(subfield.text) {
            return false;
        }
    }
    true
}

fn is_plain(text: &[u8]) -> bool
    ensures { result ≡ is_plain text.now }
{
    text.iter().all(|b| *b <= 0x7F && *b != ESCAPE)
}

/// Whether all texts are UTF-8.
pub(crate) fn are_utf8(fields: &[Field]) -> bool
    ensures { result ≡ list_all is_utf8_field fields.now }
{
    fields.iter().all(is_utf8_field)
}

fn is_utf8_field(field: &Field) -> bool
    ensures { result ≡ is_utf8_field field.now }
{
    match field.body.parts() {
        Parts::Control { text } => is_utf8(text),
        Parts::Data { subfields, .. } => are_utf8_subfields(subfields),
    }
}

fn are_utf8_subfields(subfields: Subfields<'_>) -> bool
    ensures { result ≡ list_all is_utf8_subfield subfields.entry }
{
    for subfield in subfields {
        if !is_utf8(subfield.text) {
            return false;
        }
    }
    true
}

fn is_utf8(text: &[u8]) -> bool
    ensures { result ≡ is_utf8 text.now }
{
    simdutf8::is_utf8(text)
}
