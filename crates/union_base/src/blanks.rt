//! Texts cut at a blank, or without the blanks at their ends.
ghost use Rattle.std.specs.Prelude.{◌≡◌};
ghost use Rattle.std.specs.List.{before_first, after_first};
ghost use Rattle.union_base.specs.Blanks.{is_blank, trim_start, trim_end, trimmed};

use memchr::memchr;

/// The text without the blanks (0x20) at its ends. Takes no memory.
pub fn trimmed(text: &[u8]) -> &[u8]
    ensures { result.now ≡ trimmed text.now }
{
    trimmed_end(trimmed_start(text))
}

/// The text without its leading blanks.
fn trimmed_start(text: &[u8]) -> &[u8]
    ensures { result.now ≡ trim_start text.now }
{
    let mut rest = text;
    while let Some((first, behind)) = rest.split_first() {
        if *first != b' ' {
            return rest;
        }
        rest = behind;
    }
    rest
}

/// The text without the blanks at the end.
fn trimmed_end(text: &[u8]) -> &[u8]
    ensures { result.now ≡ trim_end text.now }
{
    let mut rest = text;
    while let Some((last, before)) = rest.split_last() {
        if *last != b' ' {
            return rest;
        }
        rest = before;
    }
    rest
}

/// What stands before the first blank of the text and what stands after it: all of it and nothing where there is no blank.
/// Takes no memory.
pub fn cut_at_blank(text: &[u8]) -> (&[u8], &[u8])
    ensures before { result.0.now ≡ before_first is_blank text.now }
    ensures behind { result.1.now ≡ after_first is_blank text.now }
{
    match memchr(b' ', text) {
        Some(at) => (text.split_at(at).0, text.split_at(at + 1).1),
        None => (text, &[]),
    }
}
