//! Numbers as the words give them: decimal digits without sign and without leading zero.
ghost use Rattle.std.specs.Prelude.{◌≡◌, ◌<◌, ◌≤◌, ◌^◌, ◌&&◌, nat_lt, IfSome, IsTrue, Some, None, if◌then◌else◌};
ghost use Rattle.std.specs.List.{list_all};
ghost use Rattle.std.specs.Option.{option_copied};
ghost use Rattle.std.specs.Char.{is_ascii_digit};
ghost use Rattle.union_words.specs.Numbers;

/// The most workers that the words may ask for.
pub const MOST_WORKERS: u64 = 64;

/// The most records that the words may ask the generator for.
pub const MOST_GENERATED: u64 = 200_000;

/// How many workers the text asks for, 1 to 64: None exactly where it is no such number. Takes no memory.
pub fn workers_of(text: &[u8]) -> Option<u64>
    ensures value { result ≡ Numbers.workers_of text.now }
    ensures within { IfSome result (λ workers. (1 ≤ workers) × (workers ≤ 64)) }
{
    number_within(1, MOST_WORKERS, text)
}

/// How many records the text asks the generator for, 1 to 200,000: None exactly where it is no such number. Takes no
/// memory.
pub fn count_of(text: &[u8]) -> Option<u64>
    ensures value { result ≡ Numbers.count_of text.now }
    ensures within { IfSome result (λ count. (1 ≤ count) × (count ≤ 200000)) }
{
    number_within(1, MOST_GENERATED, text)
}

/// The number with which the generator begins, 0 to 2^64 - 1: None exactly where the text is no such number. Takes no
/// memory.
pub fn seed_of(text: &[u8]) -> Option<u64>
    ensures { result ≡ Numbers.seed_of text.now }
{
    number_within(0, u64::MAX, text)
}

/// How many workers a word `--workers=N` asks for: None exactly where it is no such word. Takes no memory.
pub fn workers_word(word: &[u8]) -> Option<u64>
    ensures value { result ≡ Numbers.workers_word word.now }
    ensures within { IfSome result (λ workers. (1 ≤ workers) × (workers ≤ 64)) }
{
    workers_of(option_text(b"--workers=", word)?)
}

/// What stands after the name of an option, where the word begins with it. Takes no memory.
pub fn option_text<'a>(name: &[u8], word: &'a [u8]) -> Option<&'a [u8]>
    ensures { option_copied result ≡ Numbers.option_text name.now word.now }
{
    word.strip_prefix(name)
}

/// The number of the text: None exactly where the text is no number from `least` to `most`. Takes no memory.
pub fn number_within(least: u64, most: u64, text: &[u8]) -> Option<u64>
    ensures value { result ≡ Numbers.number_within least most text.now }
    ensures within { IfSome result (λ number. (least ≤ number) × (number ≤ most)) }
{
    if !is_number(text) {
        return None;
    }
    match value_of(text) {
        Some(value) if least <= value && value <= most => Some(value),
        _ => None,
    }
}

/// Whether the text is one or more decimal digits without leading zero.
fn is_number(text: &[u8]) -> bool
    ensures { result ≡ Numbers.is_number text.now }
{
    1 <= text.len() && are_digits(text) && !has_leading_zero(text)
}

fn are_digits(text: &[u8]) -> bool
    ensures { result ≡ list_all is_ascii_digit text.now }
{
    text.iter().all(|b| is_digit(*b))
}

fn is_digit(b: u8) -> bool
    ensures { result ≡ is_ascii_digit b }
{
    b.is_ascii_digit()
}

fn has_leading_zero(text: &[u8]) -> bool
    ensures { result ≡ Numbers.has_leading_zero text.now }
{
    match text {
        [first, _, ..] => *first == b'0',
        _ => false,
    }
}

/// The number that the digits write: None exactly where it is 2^64 or more.
fn value_of(digits: &[u8]) -> Option<u64>
    requires { IsTrue (Numbers.is_number digits.now) }
    ensures { result ≡ (if nat_lt (Numbers.value_of digits.now) (2 ^ 64) then Some
        (Numbers.value_of digits.now) else None) }
{
    match str::from_utf8(digits) {
        Ok(text) => match text.parse::<u64>() {
            Ok(value) => Some(value),
            Err(_) => None,
        },
        Err(_) => None,
    }
}
