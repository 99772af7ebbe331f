//! Whether a record has what a load or a withdrawal asks for.
ghost use Rattle.std.specs.Prelude.{◌≡◌, ◌==◌, ◌&&◌};
ghost use Rattle.std.specs.List.{list_all};
ghost use Rattle.std.specs.Str.{is_utf8};
ghost use Rattle.marc_leader.specs.Codes.{is_printable};
ghost use Rattle.marc_parts.specs.Loads.{is_utf8_subfield, is_utf8_body, is_utf8_field, has_number_shape, is_numbered, is_load_status, is_deleted, is_described, is_loadable, is_withdrawal};

use crate::marc_record::Record;
use crate::parts::{control_number, how_many, text_under};
use union_base::body::{Body, Parts};
use union_base::field::Field;
use union_base::subfields::Subfields;

/// The longest control number, in bytes (this project's own).
pub const LONGEST_CONTROL_NUMBER: usize = 64;

/// How many bytes field 008 has (MARC 21, 008).
const FIXED_008_SIZE: usize = 40;

/// Whether the record can be loaded: its status is that of a load, it has one 001 whose text between blanks has 1 to 64
/// bytes of printing ASCII, one 008 of 40 bytes and one 245, and all its texts are UTF-8. Each accepted record that is no
/// withdrawal can. Takes no memory.
pub fn is_loadable(rec: &Record) -> bool
    ensures { result ≡ is_loadable rec.now }
{
    (is_load_status(rec.leader.status) && is_numbered(rec))
        && (is_described(rec) && are_utf8_fields(rec.fields.as_slice()))
}

/// Whether the record withdraws the one with its control number. Takes no memory.
pub fn is_withdrawal(rec: &Record) -> bool
    ensures { result ≡ is_withdrawal rec.now }
{
    is_deleted(rec.leader.status) && is_numbered(rec)
}

/// Whether the status is that of a load: `n`, `c`, `a` or `p` (MARC 21, leader/05). Takes no memory.
pub fn is_load_status(status: u8) -> bool
    ensures { result ≡ is_load_status status }
{
    matches!(status, b'n' | b'c' | b'a' | b'p')
}

/// Whether the status is that of a withdrawal, `d` (MARC 21, leader/05, 'deleted'). Takes no memory.
pub fn is_deleted(status: u8) -> bool
    ensures { result ≡ is_deleted status }
{
    status == b'd'
}

/// Whether the text is a control number: 1 to 64 bytes of printing ASCII. Takes no memory.
pub fn has_number_shape(text: &[u8]) -> bool
    ensures { result ≡ has_number_shape text.now }
{
    (1 <= text.len() && text.len() <= LONGEST_CONTROL_NUMBER) && are_printable(text)
}

fn are_printable(text: &[u8]) -> bool
    ensures { result ≡ list_all is_printable text.now }
{
    text.iter().all(|b| 0x20 <= *b && *b <= 0x7E)
}

fn is_numbered(rec: &Record) -> bool
    ensures { result ≡ is_numbered rec.now }
{
    how_many(b"001", rec.fields.as_slice()) == 1 && has_number_shape(control_number(rec))
}

fn is_described(rec: &Record) -> bool
    ensures { result ≡ is_described rec.now }
{
    let fields = rec.fields.as_slice();
    (how_many(b"008", fields) == 1 && text_under(b"008", fields).len() == FIXED_008_SIZE)
        && how_many(b"245", fields) == 1
}

fn are_utf8_fields(fields: &[Field]) -> bool
    ensures { result ≡ list_all is_utf8_field fields.now }
{
    fields.iter().all(|f| is_utf8_body(&f.body))
}

fn is_utf8_body(body: &Body) -> bool
    ensures { result ≡ is_utf8_body body.now }
{
    match body.parts() {
        Parts::Control { text } => is_utf8(text),
        Parts::Data { subfields, .. } => are_utf8_subfields(subfields),
    }
}

fn are_utf8_subfields(subfields: Subfields<'_>) -> bool
    ensures { result ≡ list_all is_utf8_subfield subfields.entry }
{
    for subfield in subfields {
        if !is_utf8(subfield.text) {
            return false;
        }
    }
    true
}

fn is_utf8(text: &[u8]) -> bool
    ensures { result ≡ is_utf8 text.now }
{
    simdutf8::is_utf8(text)
}
