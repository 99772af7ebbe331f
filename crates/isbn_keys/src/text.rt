//! Texts of bytes, cut at a byte or a blank. None of it takes memory.
ghost use Rattle.std.specs.Prelude.{◌≡◌, ◌==◌, ◌≤◌, true, false, length, MatchOption};
ghost use Rattle.std.specs.List.{prefix_len, position_or_len, list_any, before_first, after_first};
ghost use Rattle.isbn_keys.specs.Text.{without_leading, ends_number, number_part};

/// The one blank that a number ends at.
pub(crate) const BLANK: u8 = b' ';

/// The text without the bytes of this value at its beginning.
pub(crate) fn without_leading(text: &[u8], byte: u8) -> &[u8]
    ensures { result.now ≡ without_leading byte text.now }
{
    &text[count_leading(text, byte)..]
}

/// The text without blanks at its beginning, up to the first blank, `(` or `:`, or to its end.
pub(crate) fn number_part(text: &[u8]) -> &[u8]
    ensures { result.now ≡ number_part text.now }
{
    let rest = without_leading(text, BLANK);
    &rest[..number_end(rest)]
}

/// How many bytes of this value stand at the beginning.
fn count_leading(text: &[u8], byte: u8) -> usize
    ensures value { result ≡ prefix_len (λ b. b == byte) text.now }
    ensures within { result ≤ length text.now }
{
    for (place, b) in text.iter().enumerate() {
        if *b != byte {
            return place;
        }
    }
    text.len()
}

/// The first place that ends a number, or the text's length.
fn number_end(text: &[u8]) -> usize
    ensures { result ≡ position_or_len ends_number text.now }
{
    for (place, b) in text.iter().enumerate() {
        if matches!(*b, BLANK | b'(' | b':') {
            return place;
        }
    }
    text.len()
}

/// What stands before and after the first byte of this value, where there is one.
pub(crate) fn cut_at(text: &[u8], byte: u8) -> Option<(&[u8], &[u8])>
    ensures { MatchOption result (list_any (λ b. b == byte) text.now ≡ false)
        (λ parts. (list_any (λ b. b == byte) text.now ≡ true)
        × (parts.0.now ≡ before_first (λ b. b == byte) text.now)
        × (parts.1.now ≡ after_first (λ b. b == byte) text.now)) }
{
    let place = place_of(text, byte);
    if place == text.len() {
        return None;
    }
    Some((&text[..place], &text[place + 1..]))
}

/// The first place of this value, or the text's length.
pub(crate) fn place_of(text: &[u8], byte: u8) -> usize
    ensures value { result ≡ position_or_len (λ b. b == byte) text.now }
    ensures within { result ≤ length text.now }
{
    for (place, b) in text.iter().enumerate() {
        if *b == byte {
            return place;
        }
    }
    text.len()
}
