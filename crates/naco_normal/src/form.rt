//! The normal form of a text, as `normal_form` in `specs/Normal.antt` has it.
//!
//! A text of ASCII goes through `ascii`, one whose characters are all in the table through `table`, and any other through
//! `letters`; all meet the same clause.
ghost use Rattle.std.specs.Prelude.{◌≡◌, chars, encode_utf8_all, IsUtf8, IfOk, OnOk};
ghost use Rattle.naco_normal.specs.Normal.{letters, normal_form};
ghost use Rattle.naco_normal.specs.Words.{joined};

use crate::ascii::append_ascii;
use crate::letters::{append_letters, letters};
use crate::table::letters_by_table;
use std::alloc::Global;
use std::str;
use union_base::bytes::Bytes;
use union_base::memory::Memory;

/// What becomes of the commas of a text (this project's own).
#[derive(Clone, Copy, Debug, PartialEq, Eq)]
pub enum Comma {
    /// The first comma is kept where a letter or number stands after it, as in a name.
    First,
    /// No comma is kept, as in a title.
    None,
}

impl Comma {
    ghost use Rattle.naco_normal.specs.Shown.{keeps_first};

    /// Whether the first comma is awaited.
    pub(crate) fn keeps_first(self) -> bool
        ensures { result ≡ keeps_first self }
    {
        match self {
            Comma::First => true,
            Comma::None => false,
        }
    }
}

/// The normal form of the text, in UTF-8, which is this project's own after NACO: compatibility decomposition, full
/// case folding and decomposition again; marks, modifier letters and the signs `'`, `[` and `]` deleted; plain letters
/// for `æ`, `œ`, `ø`, `đ`, `ð`, `þ`, `ł` and `ı`; letters, numbers, spacing marks and the signs `&`, `+`, `@`, `#`,
/// `♭` and `♯` kept, and with `Comma::First` the first comma where a letter or number stands after it; every other
/// character a blank, and the words joined by one blank. `Dvořák, Antonín,` gives `dvorak, antonin`.
///
/// Returns `Memory` if allocation fails.
pub fn normal(alloc: Global, text: &str, comma: Comma) -> Result<Bytes, Memory>
    ensures { IfOk result (λ b. b ≡ encode_utf8_all (normal_form comma (chars text.now))) }
{
    let mut form = Vec::with_capacity(alloc, text.len() + 1)?;
    append_form(alloc, &mut form, text, comma)?;
    Ok(Bytes::from(form))
}

/// Appends the form of the text, after one blank where neither is empty.
pub(crate) fn append_form(
    alloc: Global,
    form: &mut Vec<u8>,
    text: &str,
    comma: Comma,
) -> Result<(), Memory>
    ensures { OnOk result (form.new.items ≡ joined form.old.items
        (encode_utf8_all (normal_form comma (chars text.now)))) }
{
    if text.is_ascii() {
        append_ascii(form, text.as_bytes(), comma)
    } else {
        append_any(alloc, form, text, comma)
    }
}

/// The same of a text's bytes, which are tested for UTF-8 only where one of them isn't ASCII.
pub(crate) fn append_text(
    alloc: Global,
    form: &mut Vec<u8>,
    text: &[u8],
    comma: Comma,
) -> Result<(), Memory>
    requires { IsUtf8 text.now }
    ensures { OnOk result (form.new.items ≡ joined form.old.items
        (encode_utf8_all (normal_form comma (chars text.now)))) }
{
    if text.is_ascii() {
        append_ascii(form, text, comma)
    } else {
        append_any(alloc, form, as_text(text), comma)
    }
}

/// The bytes as a text.
pub(crate) fn as_text(bytes: &[u8]) -> &str
    requires { IsUtf8 bytes.now }
    ensures { result.now ≡ bytes.now }
{
    match str::from_utf8(bytes) {
        Ok(text) => text,
        Err(_) => unreachable!(),
    }
}

/// The same by the steps on characters of every kind.
fn append_any(alloc: Global, form: &mut Vec<u8>, text: &str, comma: Comma) -> Result<(), Memory>
    ensures { OnOk result (form.new.items ≡ joined form.old.items
        (encode_utf8_all (normal_form comma (chars text.now)))) }
{
    append_letters(form, &letters_of(alloc, text)?, comma)
}

/// The letters of the text: by the table where that has each of its characters.
fn letters_of(alloc: Global, text: &str) -> Result<Vec<char>, Memory>
    ensures { IfOk result (λ v. v.items ≡ letters (chars text.now)) }
{
    match letters_by_table(alloc, text)? {
        Some(letters) => Ok(letters),
        None => letters(alloc, &characters(alloc, text)?),
    }
}

/// The characters of the text.
fn characters(alloc: Global, text: &str) -> Result<Vec<char>, Memory>
    ensures { IfOk result (λ v. v.items ≡ chars text.now) }
{
    Ok(text.chars().collect(alloc)?)
}
