//! Check characters: weighted sums over the characters of a number. None of it takes memory.
ghost use Rattle.std.specs.Prelude.{◌≡◌, ◌*◌, ◌≤◌, length};
ghost use Rattle.std.specs.List.{list_all};
ghost use Rattle.std.specs.Char.{is_ascii_digit};
ghost use Rattle.isbn_keys.specs.Check.{is_ten, value_of, weighted_sum, has_check_form};

/// The sum of the characters' values, each times its weight.
pub(crate) fn weighted_sum(weights: &[u8], characters: &[u8]) -> u32
    requires enough { length characters.now ≤ length weights.now }
    requires few { length weights.now ≤ 13 }
    ensures { result ≡ weighted_sum weights.now characters.now }
{
    let mut sum: u32 = 0;
    for (place, c) in characters.iter().enumerate() {
        sum += term(weights[place], *c);
    }
    sum
}

/// A character's value times its weight.
fn term(weight: u8, c: u8) -> u32
    ensures value { result ≡ weight * value_of c }
    ensures bound { result ≤ 65025 }
{
    u32::from(weight) * u32::from(value_of(c))
}

/// What the character counts: a digit its number, and X ten.
fn value_of(c: u8) -> u8
    ensures { result ≡ value_of c }
{
    if is_ten(c) {
        10
    } else {
        c.saturating_sub(b'0')
    }
}

/// Whether the character is X, in either case.
pub(crate) fn is_ten(c: u8) -> bool
    ensures { result ≡ is_ten c }
{
    matches!(c, b'X' | b'x')
}

/// Whether the characters are `n` digits, and one more digit or an X.
pub(crate) fn has_check_form(characters: &[u8], n: usize) -> bool
    ensures { result ≡ has_check_form n characters.now }
{
    match characters.split_last() {
        Some((last, digits)) => {
            digits.len() == n && all_digits(digits) && (last.is_ascii_digit() || is_ten(*last))
        }
        None => false,
    }
}

/// Whether each character is a digit.
pub(crate) fn all_digits(characters: &[u8]) -> bool
    ensures { result ≡ list_all is_ascii_digit characters.now }
{
    characters.iter().all(|c| c.is_ascii_digit())
}
