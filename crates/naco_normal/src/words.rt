//! Words in a row, with one blank between them, written character by character.
//!
//! A form is grown in place: a gap is remembered, and its one blank is written only once a character follows, so runs
//! of blanks and blanks at the ends never come to be.
ghost use Rattle.std.specs.Prelude.{◌≡◌, ◌≤◌, ◌+◌, [], ◌∷◌, ◌++◌, encode_utf8, if◌then◌else◌, not, OnOk, vec_len, vec_capacity};
ghost use Rattle.naco_normal.specs.Words.{after_gap, gap_room};

use union_base::memory::Memory;

const BLANK: u8 = b' ';

/// Appends the character where it shows, after one blank where a gap goes before it and it isn't the first.
pub(crate) fn push_shown(form: &mut Vec<u8>, gap: bool, shown: bool, c: char) -> Result<(), Memory>
    ensures { OnOk result (form.new.items ≡ (if shown then after_gap form.old.items gap
        ++ encode_utf8 c else form.old.items)) }
{
    if !shown {
        return Ok(());
    }
    open_word(form, gap)?;
    push_char(form, c)
}

/// Appends the character in UTF-8.
fn push_char(form: &mut Vec<u8>, c: char) -> Result<(), Memory>
    ensures { OnOk result (form.new.items ≡ form.old.items ++ encode_utf8 c) }
{
    if c.is_ascii() {
        form.push(c as u8)?;
        return Ok(());
    }
    let mut room = [0; 4];
    form.extend_from_slice(c.encode_utf8(&mut room).as_bytes())?;
    Ok(())
}

/// The same of an ASCII character, where the text has room for it and for the blank of a gap. Takes no memory.
pub(crate) fn push_shown_byte(form: &mut Vec<u8>, gap: bool, shown: bool, byte: u8)
    requires { vec_len form.old + gap_room gap + 1 ≤ vec_capacity form.old }
    ensures items { form.new.items ≡ (if shown then after_gap form.old.items gap
        ++ byte ∷ [] else form.old.items) }
    ensures room { vec_len form.new + gap_room (not shown) ≤ vec_len form.old + gap_room gap + 1 }
    ensures capacity { vec_capacity form.new ≡ vec_capacity form.old }
{
    if !shown {
        return;
    }
    let opens = gap && !form.is_empty();
    if opens {
        form.push_reserved(BLANK);
    }
    form.push_reserved(byte);
}

/// Appends one blank where a gap comes after a word.
fn open_word(form: &mut Vec<u8>, gap: bool) -> Result<(), Memory>
    ensures { OnOk result (form.new.items ≡ after_gap form.old.items gap) }
{
    if gap && !form.is_empty() {
        form.push(BLANK)?;
    }
    Ok(())
}
