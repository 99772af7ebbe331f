//! ISSN (ISO 3297): the eight characters by which serials meet, as `issn_key` in `specs/Issn.antt` has them.
ghost use Rattle.std.specs.Prelude.{◌≡◌, ◌≢◌, length, MatchOption};
ghost use Rattle.isbn_keys.specs.Issn.{without_hyphen, is_issn, with_capital, issn_key};

use crate::check::{has_check_form, is_ten, weighted_sum};
use crate::text::number_part;

/// How many characters a key has.
const KEY_LENGTH: usize = 8;

const WEIGHTS: [u8; 8] = [8, 7, 6, 5, 4, 3, 2, 1];

/// The key of an ISSN text: the eight characters of the number at its start, X as a capital.
///
/// The text is read after its leading blanks, up to the first blank, `(` or `:`. One hyphen after the fourth character
/// may stand or not. `0378-5955` gives `03785955`.
///
/// Answers `None` exactly where no such number whose check holds stands there. Takes no memory.
pub fn issn(text: &[u8]) -> Option<[u8; 8]>
    ensures { result ≡ issn_key text.now }
{
    let characters = without_hyphen(number_part(text))?;
    if is_issn(&characters) {
        Some(with_capital(characters))
    } else {
        None
    }
}

/// The characters with a capital X for either.
fn with_capital(characters: [u8; 8]) -> [u8; 8]
    ensures { result ≡ with_capital characters }
{
    let mut key = characters;
    if is_ten(key[7]) {
        key[7] = b'X';
    }
    key
}

/// The characters but a hyphen after the fourth, where that leaves as many as a key has.
fn without_hyphen(part: &[u8]) -> Option<[u8; 8]>
    ensures { MatchOption result (length (without_hyphen part.now) ≢ 8)
        (λ characters. characters ≡ without_hyphen part.now) }
{
    let mut characters = [0; KEY_LENGTH];
    if part.len() == KEY_LENGTH + 1 && part[4] == b'-' {
        characters[..4].copy_from_slice(&part[..4]);
        characters[4..].copy_from_slice(&part[5..]);
    } else if part.len() == KEY_LENGTH && part[4] != b'-' {
        characters.copy_from_slice(part);
    } else {
        return None;
    }
    Some(characters)
}

/// Whether the characters are an ISSN whose check holds.
fn is_issn(characters: &[u8]) -> bool
    ensures { result ≡ is_issn characters.now }
{
    has_check_form(characters, 7) && weighted_sum(&WEIGHTS, characters) % 11 == 0
}
