//! The normal form of an ASCII text, in one pass over its bytes and without the tables of Unicode.
//!
//! On ASCII no character decomposes, case folding maps `A` to `Z` alone, and the categories are known, so the nine
//! steps come to one look into a table for each byte. The form is never longer than the text and one blank, so room is
//! made once.
ghost use Rattle.std.specs.Prelude.{◌≡◌, ◌<◌, encode_utf8_all, IsAscii, OnOk};
ghost use Rattle.std.specs.Char.{is_ascii_alphanumeric};
ghost use Rattle.std.specs.List.{list_any};
ghost use Rattle.naco_normal.specs.Ascii.{read_as};
ghost use Rattle.naco_normal.specs.Normal.{normal_form};
ghost use Rattle.naco_normal.specs.Words.{joined};

use crate::form::Comma;
use crate::words::push_shown_byte;
use union_base::memory::Memory;

/// The mark of a byte that becomes a blank. That of a byte that is deleted is smaller, and every byte that is kept is
/// larger.
const BLANK: u8 = b'!';

/// What each byte becomes: itself in lower case where it is kept, ` ` where it is deleted, and `!` where it becomes a
/// blank.
static READ_AS: [u8; 128] = *b"\
    !!!!!!!!!!!!!!!!!!!!!!!!!!!!!!!!\
    !!!#!!& !!!+!!!!0123456789!!!!!!\
    @abcdefghijklmnopqrstuvwxyz ! !!\
    !abcdefghijklmnopqrstuvwxyz!!!!!";

/// Appends the form of the text, after one blank where neither is empty.
pub(crate) fn append_ascii(form: &mut Vec<u8>, text: &[u8], comma: Comma) -> Result<(), Memory>
    requires { IsAscii text.now }
    ensures { OnOk result (form.new.items ≡ joined form.old.items
        (encode_utf8_all (normal_form comma text.now))) }
{
    form.reserve(text.len() + 1)?;
    let mut gap = true;
    let mut awaiting = comma.keeps_first();
    for (place, byte) in text.iter().enumerate() {
        let letter = read_as(*byte);
        if letter > BLANK {
            push_shown_byte(form, gap, true, letter);
            gap = false;
            continue;
        }
        if letter != BLANK {
            continue;
        }
        let awaited = awaiting & (*byte == b',');
        if !awaited {
            gap = true;
            continue;
        }
        let shown = has_letter_or_digit(&text[place + 1..]);
        push_shown_byte(form, gap, shown, b',');
        gap = !shown;
        awaiting = false;
    }
    Ok(())
}

/// What the byte becomes where no comma is awaited.
fn read_as(byte: u8) -> u8
    requires { byte < 128 }
    ensures { result ≡ read_as byte }
{
    READ_AS[byte as usize]
}

fn has_letter_or_digit(text: &[u8]) -> bool
    ensures { result ≡ list_any is_ascii_alphanumeric text.now }
{
    text.iter().any(|b| b.is_ascii_alphanumeric())
}
