//! ISBN (ISO 2108): the thirteen digits by which books meet, as `isbn_key` in `specs/Isbn.antt` has them.
ghost use Rattle.std.specs.Prelude.{◌≡◌, ◌<◌, ◌≤◌, length, take, MatchOption};
ghost use Rattle.isbn_keys.specs.Isbn.{without_hyphens, begins_as_book, is_isbn10, is_isbn13, check_digit, converted, isbn_key};

use crate::check::{all_digits, has_check_form, weighted_sum};
use crate::text::number_part;

/// How many characters a key has.
const KEY_LENGTH: usize = 13;

const ISBN10_WEIGHTS: [u8; 10] = [10, 9, 8, 7, 6, 5, 4, 3, 2, 1];

const ISBN13_WEIGHTS: [u8; 13] = [1, 3, 1, 3, 1, 3, 1, 3, 1, 3, 1, 3, 1];

/// The key of an ISBN text: the thirteen digits of the number at its start.
///
/// The text is read after its leading blanks, up to the first blank, `(` or `:`, and without its hyphens. A number of
/// ten characters whose check holds is converted to thirteen digits; a number of thirteen that begins with `978` or
/// `979` and whose check holds is the key itself. `0306406152 (pbk.)` gives `9780306406157`.
///
/// Answers `None` exactly where no such number stands there. Takes no memory.
pub fn isbn(text: &[u8]) -> Option<[u8; 13]>
    ensures { result ≡ isbn_key text.now }
{
    let (characters, len) = without_hyphens(number_part(text))?;
    if is_isbn10(&characters[..len]) {
        Some(converted(&characters[..len]))
    } else if is_isbn13(&characters[..len]) {
        Some(characters)
    } else {
        None
    }
}

/// The characters but the hyphens, and how many they are, where they are no more than a key has.
fn without_hyphens(part: &[u8]) -> Option<([u8; 13], usize)>
    ensures { MatchOption result (13 < length (without_hyphens part.now))
        (λ kept. (kept.1 ≤ 13) × (take kept.1 kept.0 ≡ without_hyphens part.now)) }
{
    let mut characters = [0; KEY_LENGTH];
    let mut len = 0;
    for c in part {
        if *c == b'-' {
            continue;
        }
        if len == KEY_LENGTH {
            return None;
        }
        characters[len] = *c;
        len += 1;
    }
    Some((characters, len))
}

/// Whether the characters are an ISBN of ten whose check holds.
fn is_isbn10(characters: &[u8]) -> bool
    ensures { result ≡ is_isbn10 characters.now }
{
    has_check_form(characters, 9) && weighted_sum(&ISBN10_WEIGHTS, characters) % 11 == 0
}

/// Whether the characters are an ISBN of thirteen whose check holds.
fn is_isbn13(characters: &[u8]) -> bool
    ensures { result ≡ is_isbn13 characters.now }
{
    characters.len() == KEY_LENGTH
        && all_digits(characters)
        && begins_as_book(characters)
        && weighted_sum(&ISBN13_WEIGHTS, characters) % 10 == 0
}

/// Whether the number begins with a prefix of books, 978 or 979.
fn begins_as_book(characters: &[u8]) -> bool
    requires { 3 ≤ length characters.now }
    ensures { result ≡ begins_as_book characters.now }
{
    let prefix = &characters[..3];
    prefix == b"978".as_slice() || prefix == b"979".as_slice()
}

/// The thirteen digits of a number of ten.
fn converted(characters: &[u8]) -> [u8; 13]
    requires { length characters.now ≡ 10 }
    ensures { result ≡ converted characters.now }
{
    let mut key = *b"9780000000000";
    key[3..12].copy_from_slice(&characters[..9]);
    key[12] = check_digit(&key[..12]);
    key
}

/// The digit that makes the sum with the weights 1 and 3 divisible by 10.
fn check_digit(stem: &[u8]) -> u8
    requires { length stem.now ≤ 13 }
    ensures { result ≡ check_digit stem.now }
{
    let sum = weighted_sum(&ISBN13_WEIGHTS, stem) % 10;
    b'0' + ((10 - sum) % 10) as u8
}
