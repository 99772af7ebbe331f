//! What can be read of a refused frame, whose directory and fields may be damaged (ISO 2709, 'Directory').
ghost use Rattle.std.specs.Prelude.{◌≡◌, ◌≤◌, ◌<◌, ◌*◌, [], length, drop, find, IfSome, if◌then◌else◌};
ghost use Rattle.std.specs.Option.{option_copied};
ghost use Rattle.std.specs.List.{list_all};
ghost use Rattle.marc_fields.specs.Rules.{entry_texts};
ghost use Rattle.union_explain.specs.Glances.{is_graphic, directory_of, entry_of, tag_of, is_control_entry, start_of, field_at, number_text, control_number_of};

use crate::words::before;
use marc_leader::entry::{ENTRY_SIZE, SIZE_END, START_END, TAG_END};
use marc_leader::leader::LEADER_SIZE;
use marc_leader::numeral::digits;
use marc_parts::loads::has_number_shape;
use union_base::blanks::trimmed;

/// The byte after a directory and after each field (ISO 2709, 'Field separator').
const FIELD_TERMINATOR: u8 = 0x1E;

/// The byte that ends a record (ISO 2709, 'Record terminator').
const RECORD_TERMINATOR: u8 = 0x1D;

/// More entries than a frame of 99,999 bytes has room for.
const MOST_ENTRIES: u64 = 9_999;

/// The text after the first `count` bytes, and nothing where it has no more.
fn skipped(count: usize, text: &[u8]) -> &[u8]
    ensures { result.now ≡ drop count text.now }
{
    if count <= text.len() {
        text.split_at(count).1
    } else {
        &[]
    }
}

/// The directory: the bytes after the leader up to the first field terminator.
fn directory(frame: &[u8]) -> &[u8]
    ensures { result.now ≡ directory_of frame.now }
{
    before(FIELD_TERMINATOR, skipped(LEADER_SIZE, frame))
}

/// The entry of that number, counted from 1: None where the directory has no such entry.
fn entry(number: u64, directory: &[u8]) -> Option<&[u8]>
    ensures value { option_copied result ≡ entry_of number directory.now }
    ensures size { IfSome result (λ entry. length entry.now ≡ 12) }
{
    if number == 0 || number > MOST_ENTRIES {
        return None;
    }
    let end = ENTRY_SIZE * number as usize;
    if end <= directory.len() {
        Some(&directory[end - ENTRY_SIZE..end])
    } else {
        None
    }
}

/// The text, where all of it can be seen.
fn graphic(text: &[u8]) -> &[u8]
    ensures { result.now ≡ (if list_all is_graphic text.now then text.now else []) }
{
    if are_graphic(text) { text } else { &[] }
}

fn are_graphic(text: &[u8]) -> bool
    ensures { result ≡ list_all is_graphic text.now }
{
    text.iter().all(|b| 0x21 <= *b && *b <= 0x7E)
}

/// The tag of the entry of that number, counted from 1: nothing where there is no such entry, or where its tag has a byte that
/// cannot be seen. Takes no memory.
pub fn tag(number: u64, frame: &[u8]) -> &[u8]
    ensures { result.now ≡ tag_of number frame.now }
{
    match entry(number, directory(frame)) {
        Some(entry) => graphic(entry.split_at(TAG_END).0),
        None => &[],
    }
}

/// Whether the entry is one of field 001.
fn is_control_entry(entry: &[u8]) -> bool
    requires { length entry.now ≡ 12 }
    ensures { result ≡ is_control_entry entry.now }
{
    entry.split_at(TAG_END).0 == b"001".as_slice()
}

/// The first entry of field 001 among the first `count`.
fn control_entry(count: usize, directory: &[u8]) -> Option<&[u8]>
    requires { 12 * count ≤ length directory.now }
    ensures found { option_copied result ≡ find is_control_entry (entry_texts count directory.now) }
    ensures size { IfSome result (λ entry. length entry.now ≡ 12) }
{
    let mut left = count;
    let mut rest = directory;
    while left > 0 {
        let (entry, behind) = rest.split_at(ENTRY_SIZE);
        if is_control_entry(entry) {
            return Some(entry);
        }
        rest = behind;
        left -= 1;
    }
    None
}

/// Where the entry's field starts after the base address.
fn start(entry: &[u8]) -> Option<u32>
    requires { length entry.now ≡ 12 }
    ensures value { result ≡ start_of entry.now }
    ensures within { IfSome result (λ start. start < 100000) }
{
    digits(&entry[SIZE_END..START_END])
}

/// The field that begins at an offset.
fn field(at: usize, frame: &[u8]) -> &[u8]
    ensures { result.now ≡ field_at at frame.now }
{
    before(
        RECORD_TERMINATOR,
        before(FIELD_TERMINATOR, skipped(at, frame)),
    )
}

/// The control number in a field, without the blanks at its ends: nothing where it is none.
fn number_text(field: &[u8]) -> &[u8]
    ensures { result.now ≡ number_text field.now }
{
    let text = trimmed(field);
    if has_number_shape(text) { text } else { &[] }
}

/// The control number, by the first entry of field 001: nothing where it cannot be read. Takes no memory.
pub fn control_number(frame: &[u8]) -> &[u8]
    ensures { result.now ≡ control_number_of frame.now }
{
    let directory = directory(frame);
    let base = LEADER_SIZE + 1 + directory.len();
    match control_entry(directory.len() / ENTRY_SIZE, directory) {
        Some(entry) => match start(entry) {
            Some(start) => number_text(field(base + start as usize, frame)),
            None => &[],
        },
        None => &[],
    }
}
