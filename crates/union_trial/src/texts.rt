//! The texts of a generated record's fields.
ghost use Rattle.std.specs.Prelude.{◌≡◌, ◌++◌, ◌*◌, ◌≤◌, IsTrue, length, codes};
ghost use Rattle.std.specs.List.{list_all};
ghost use Rattle.std.specs.Char.{is_ascii_digit};
ghost use Rattle.isbn_keys.specs.Check.{value_of, weighted_sum};
ghost use Rattle.isbn_keys.specs.Isbn.{check_digit};
ghost use Rattle.marc_leader.specs.Numeral.{numeral};
ghost use Rattle.union_trial.specs.TrialRecords.{fixed_text, isbn_text};

use crate::numerals::{eight_digits, four_digits, nine_digits};

/// The weights of an ISBN's digits (ISO 2108).
const WEIGHTS: [u8; 13] = [1, 3, 1, 3, 1, 3, 1, 3, 1, 3, 1, 3, 1];

/// A digit's number times its weight.
fn term(weight: u8, digit: u8) -> u32
    requires { IsTrue (is_ascii_digit digit) }
    ensures value { result ≡ weight * value_of digit }
    ensures bound { result ≤ 65025 }
{
    u32::from(weight) * u32::from(digit - b'0')
}

/// The sum of the digits, each times its weight.
fn weighted_sum(weights: &[u8], digits: &[u8]) -> u32
    requires enough { length digits.now ≤ length weights.now }
    requires few { length weights.now ≤ 13 }
    requires digits { IsTrue (list_all is_ascii_digit digits.now) }
    ensures { result ≡ weighted_sum weights.now digits.now }
{
    let mut sum: u32 = 0;
    for (place, digit) in digits.iter().enumerate() {
        sum += term(weights[place], *digit);
    }
    sum
}

/// The last digit of an ISBN with these first ones (ISO 2108).
fn check_digit(stem: &[u8]) -> u8
    requires few { length stem.now ≤ 13 }
    requires digits { IsTrue (list_all is_ascii_digit stem.now) }
    ensures { result ≡ check_digit stem.now }
{
    let sum = weighted_sum(&WEIGHTS, stem) % 10;
    b'0' + ((10 - sum) % 10) as u8
}

/// The ISBN of prefix 978 with the last nine digits of the number.
pub fn isbn_text(number: u32) -> [u8; 13]
    ensures { result ≡ isbn_text number }
{
    let mut text = *b"9780000000000";
    text[3..12].copy_from_slice(&nine_digits(number));
    text[12] = check_digit(&text[..12]);
    text
}

/// The 40 bytes of a field 008 with that year of publication (MARC 21, 008).
pub fn fixed_text(year: u32) -> [u8; 40]
    ensures { result ≡ fixed_text year }
{
    let mut text = *b"240101s0000    xx                  eng d";
    text[7..11].copy_from_slice(&four_digits(year));
    text
}

/// The name of the author of that number.
pub fn author(number: u32) -> [u8; 15]
    ensures { result ≡ codes "Author " ++ numeral 8 number }
{
    let mut text = *b"Author 00000000";
    text[7..].copy_from_slice(&eight_digits(number));
    text
}

/// The title of that number.
pub fn title(number: u32) -> [u8; 14]
    ensures { result ≡ codes "Title " ++ numeral 8 number }
{
    let mut text = *b"Title 00000000";
    text[6..].copy_from_slice(&eight_digits(number));
    text
}
