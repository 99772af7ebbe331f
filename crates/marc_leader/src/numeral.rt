//! Numbers in decimal digits, as ISO 2709 writes them: with leading zeros to a fixed width. A number is what `number_of`
//! says of its digits, and `numeral` is what is written.
ghost use Rattle.std.specs.Prelude.{◌≡◌, ◌+◌, ◌%◌, ◌^◌, ◌<◌, ◌≤◌, if◌then◌else◌, true, length, Some, None, IfSome};
ghost use Rattle.marc_leader.specs.Numeral.{are_digits, number_of};

/// Whether each byte is an ASCII digit. The loop has no branch on a byte, so that the compiler looks at many bytes at once.
pub(crate) fn are_digits(text: &[u8]) -> bool
    ensures { result ≡ are_digits text.now }
{
    let mut sound = true;
    for byte in text {
        sound &= byte.is_ascii_digit();
    }
    sound
}

/// The number that at most five digits spell.
pub(crate) fn number_of(text: &[u8]) -> u32
    requires few { length text.now ≤ 5 }
    requires digits { are_digits text.now ≡ true }
    ensures value { result ≡ number_of text.now }
    ensures bound { result < 10 ^ length text.now }
{
    let mut number: u32 = 0;
    for byte in text {
        number = 10 * number + (*byte - b'0') as u32;
    }
    number
}

/// The number that a text of one to five decimal digits spells, or None exactly where a byte is no ASCII digit.
/// Takes no memory.
pub fn digits(text: &[u8]) -> Option<u32>
    requires some { 1 ≤ length text.now }
    requires few { length text.now ≤ 5 }
    ensures value { result ≡ (if are_digits text.now then Some (number_of text.now) else None) }
    ensures bound { IfSome result (λ n. n < 10 ^ length text.now) }
{
    if are_digits(text) {
        Some(number_of(text))
    } else {
        None
    }
}

/// The last decimal digit of the number, as a byte.
pub(crate) fn last_digit(number: u32) -> u8
    ensures { result ≡ 48 + number % 10 }
{
    b'0' + (number % 10) as u8
}
