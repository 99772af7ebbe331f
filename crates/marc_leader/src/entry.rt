//! An entry of the directory, 12 bytes: `entry_of` says what is read of them, `entry_text` what is written.
ghost use Rattle.std.specs.Prelude.{◌≡◌, ◌≤◌, length, IfOk, Ok, IsTrue};
ghost use Rattle.marc_leader.specs.Entry.{entry_text, entry_of, is_tag};

use crate::numeral::{are_digits, last_digit, number_of};

/// How many bytes an entry has.
pub const ENTRY_SIZE: usize = 12;

/// Where an entry's tag ends.
pub const TAG_END: usize = 3;

/// Where the field's length ends, four digits after the tag.
pub const SIZE_END: usize = 7;

/// Where the field's start ends, five digits after its length.
pub const START_END: usize = 12;

/// An entry of the directory (ISO 2709, 'Directory'; MARC 21, 'Directory').
#[derive(Clone, Copy, Debug, PartialEq, Eq)]
pub struct Entry {
    /// The field's tag.
    pub tag: [u8; 3],
    /// The field's length in bytes, its terminator included.
    pub length: u32,
    /// Where the field starts, in bytes from the base address of data.
    pub start: u32,
}

/// Why 12 bytes are no entry.
#[derive(Clone, Copy, Debug, PartialEq, Eq)]
pub enum EntryRule {
    /// The length or the start is not all digits.
    Digits,
    /// The tag is not three ASCII letters or digits.
    Tag,
}

/// Whether each byte is an ASCII letter or digit.
fn are_alphanumeric(text: &[u8]) -> bool
    ensures { result ≡ is_tag text.now }
{
    text.iter().all(|byte| byte.is_ascii_alphanumeric())
}

/// The entry that stands in 12 bytes, or the first rule of `EntryRule` that they break. Takes no memory.
pub fn read_entry(text: &[u8]) -> Result<Entry, EntryRule>
    requires { length text.now ≡ 12 }
    ensures value { result ≡ entry_of text.now }
    // What was read is written as the same bytes.
    ensures spelled { IfOk result (λ entry. text.now ≡ entry_text entry) }
    ensures tag { IfOk result (λ entry. IsTrue (is_tag entry.tag)) }
    ensures length { IfOk result (λ entry. entry.length ≤ 9999) }
    ensures start { IfOk result (λ entry. entry.start ≤ 99999) }
{
    if !are_digits(&text[TAG_END..START_END]) {
        return Err(EntryRule::Digits);
    }
    let tag = [text[0], text[1], text[2]];
    if !are_alphanumeric(&tag) {
        return Err(EntryRule::Tag);
    }
    Ok(Entry {
        tag,
        length: number_of(&text[TAG_END..SIZE_END]),
        start: number_of(&text[SIZE_END..START_END]),
    })
}

/// Writes the entry's 12 bytes. Takes no memory.
pub fn write_entry(entry: &Entry, into: &mut [u8])
    requires room { length into.old ≡ 12 }
    requires length { entry.now.length ≤ 9999 }
    requires start { entry.now.start ≤ 99999 }
    ensures text { into.new ≡ entry_text entry.now }
    // What was written is read as the same entry, where its tag is one.
    ensures read { IsTrue (is_tag entry.now.tag) → entry_of into.new ≡ Ok entry.now }
{
    let size = entry.length;
    let start = entry.start;
    into.copy_from_slice(&[
        entry.tag[0],
        entry.tag[1],
        entry.tag[2],
        last_digit(size / 10 / 10 / 10),
        last_digit(size / 10 / 10),
        last_digit(size / 10),
        last_digit(size),
        last_digit(start / 10 / 10 / 10 / 10),
        last_digit(start / 10 / 10 / 10),
        last_digit(start / 10 / 10),
        last_digit(start / 10),
        last_digit(start),
    ]);
}
