//! The rules on status and character coding.
ghost use Rattle.std.specs.Prelude.{⊤, ◌≡◌, ◌≤◌, true, length, None};
ghost use Rattle.std.specs.List.{list_all};
ghost use Rattle.std.specs.Str.{is_utf8, IsCharBoundary};
ghost use Rattle.marc_fields.specs.Rows.{Checks, least_where_not};
ghost use Rattle.marc_fields.specs.Rules.{is_tile};
ghost use Rattle.marc_rules.specs.Contents.{is_status, is_plain_at, is_utf8_at, coding_failure, content_failure};
ghost use Rattle.marc_parts.specs.Loads.{is_plain};

use marc_fields::parts::text_in;
use marc_fields::rules::{Failure, Rule};
use marc_leader::entry::Entry;
use simdutf8::basic::from_utf8;

/// The code of Unicode in UTF-8 (MARC 21, leader/09); a blank is MARC-8.
const UNICODE: u8 = b'a';

/// Whether it is a record's status (MARC 21, leader/05).
fn is_status_code(status: u8) -> bool
    ensures { result ≡ is_status status }
{
    status == b'a' || status == b'c' || status == b'd' || status == b'n' || status == b'p'
}

/// Whether the bytes are ASCII without an escape.
fn are_plain(text: &[u8]) -> bool
    ensures { result ≡ is_plain text.now }
{
    text.iter().all(|b| *b <= 0x7F && *b != 0x1B)
}

/// Whether the bytes are UTF-8.
fn are_utf8(text: &[u8]) -> bool
    ensures { result ≡ is_utf8 text.now }
{
    match from_utf8(text) {
        Ok(_) => true,
        Err(_) => false,
    }
}

/// The number of the first entry whose field is not plain.
fn first_coded(entries: &[Entry], bytes: &[u8]) -> Option<u32>
    requires few { length entries.now ≤ 9999 }
    requires tiles { list_all (is_tile bytes.now) entries.now ≡ true }
    ensures { result ≡ least_where_not (is_plain_at bytes.now) 1 entries.now }
{
    for (i, entry) in entries.iter().enumerate() {
        if !are_plain(text_in(entry, bytes)) {
            return Some(i as u32 + 1);
        }
    }
    None
}

/// Whether the entry's field begins with a byte that may begin a character in UTF-8.
fn begins_character(entry: &Entry, bytes: &[u8]) -> bool
    requires { is_tile bytes.now entry.now ≡ true }
    ensures { result ≡ true → IsCharBoundary bytes.now entry.now.start }
{
    let first = bytes[entry.start as usize];
    first < 0x80 || 0xC0 <= first
}

/// Whether the data are UTF-8 as a whole and no field begins within a character, so that each field is UTF-8. One look at
/// the whole costs less than one at each field.
fn are_utf8_together(entries: &[Entry], bytes: &[u8]) -> bool
    requires { list_all (is_tile bytes.now) entries.now ≡ true }
    ensures { result ≡ true → least_where_not (is_utf8_at bytes.now) 1 entries.now ≡ None }
{
    if !are_utf8(bytes) {
        return false;
    }
    for entry in entries {
        if !begins_character(entry, bytes) {
            return false;
        }
    }
    true
}

/// The number of the first entry whose field is not UTF-8.
fn first_not_utf8(entries: &[Entry], bytes: &[u8]) -> Option<u32>
    requires few { length entries.now ≤ 9999 }
    requires tiles { list_all (is_tile bytes.now) entries.now ≡ true }
    ensures { result ≡ least_where_not (is_utf8_at bytes.now) 1 entries.now }
{
    if are_utf8_together(entries, bytes) {
        return None;
    }
    for (i, entry) in entries.iter().enumerate() {
        if !are_utf8(text_in(entry, bytes)) {
            return Some(i as u32 + 1);
        }
    }
    None
}

/// Refuses a coding that is neither blank nor that of Unicode, and a field that is not in its coding.
fn check_coding(coding: u8, entries: &[Entry], bytes: &[u8]) -> Result<(), Failure>
    requires few { length entries.now ≤ 9999 }
    requires tiles { list_all (is_tile bytes.now) entries.now ≡ true }
    ensures { Checks result (coding_failure coding bytes.now entries.now) (λ _. ⊤) }
{
    match coding {
        UNICODE => match first_not_utf8(entries, bytes) {
            Some(place) => Err(Failure {
                rule: Rule::NotUtf8,
                place,
            }),
            None => Ok(()),
        },
        b' ' => match first_coded(entries, bytes) {
            Some(place) => Err(Failure {
                rule: Rule::Coding,
                place,
            }),
            None => Ok(()),
        },
        _ => Err(Failure {
            rule: Rule::Coding,
            place: 0,
        }),
    }
}

/// Refuses a status that is none, a coding that is neither blank nor that of Unicode, and a field that is not in its coding
/// (MARC 21, leader/05 and leader/09). Takes no memory.
pub fn check_content(status: u8, coding: u8, entries: &[Entry], bytes: &[u8]) -> Result<(), Failure>
    requires few { length entries.now ≤ 9999 }
    requires tiles { list_all (is_tile bytes.now) entries.now ≡ true }
    ensures { Checks result (content_failure status coding bytes.now entries.now) (λ _. ⊤) }
{
    if !is_status_code(status) {
        return Err(Failure {
            rule: Rule::Status,
            place: 0,
        });
    }
    check_coding(coding, entries, bytes)
}
