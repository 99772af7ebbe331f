//! Numbers in decimal digits, with leading zeros to a fixed width. Greater numbers lose their first digits.
ghost use Rattle.std.specs.Prelude.{◌≡◌, ◌+◌, ◌%◌};
ghost use Rattle.marc_leader.specs.Numeral.{numeral};

/// The last digit of the number.
fn last_digit(number: u32) -> u8
    ensures { result ≡ 48 + number % 10 }
{
    b'0' + (number % 10) as u8
}

/// The last four digits of the number.
pub fn four_digits(number: u32) -> [u8; 4]
    ensures { result ≡ numeral 4 number }
{
    [
        last_digit(number / 10 / 10 / 10),
        last_digit(number / 10 / 10),
        last_digit(number / 10),
        last_digit(number),
    ]
}

/// The last eight digits of the number.
pub fn eight_digits(number: u32) -> [u8; 8]
    ensures { result ≡ numeral 8 number }
{
    let front = number / 10 / 10 / 10 / 10;
    [
        last_digit(front / 10 / 10 / 10),
        last_digit(front / 10 / 10),
        last_digit(front / 10),
        last_digit(front),
        last_digit(number / 10 / 10 / 10),
        last_digit(number / 10 / 10),
        last_digit(number / 10),
        last_digit(number),
    ]
}

/// The last nine digits of the number.
pub fn nine_digits(number: u32) -> [u8; 9]
    ensures { result ≡ numeral 9 number }
{
    let front = number / 10 / 10 / 10 / 10;
    [
        last_digit(front / 10 / 10 / 10 / 10),
        last_digit(front / 10 / 10 / 10),
        last_digit(front / 10 / 10),
        last_digit(front / 10),
        last_digit(front),
        last_digit(number / 10 / 10 / 10),
        last_digit(number / 10 / 10),
        last_digit(number / 10),
        last_digit(number),
    ]
}
