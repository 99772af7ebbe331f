//! Texts that are cut at a byte, as in union_explain.
ghost use Rattle.std.specs.Prelude.{◌≡◌, ◌≤◌, ◌==◌, length, position};
ghost use Rattle.std.specs.List.{position_or_len, before_first, after_first};

/// Where a byte first stands in a text, and the text's length where it does not.
fn place_of(byte: u8, text: &[u8]) -> usize
    ensures value { result ≡ position_or_len (λ b. b == byte) text.now }
    ensures within { result ≤ length text.now }
{
    match first_place(byte, text) {
        Some(at) => at,
        None => text.len(),
    }
}

fn first_place(byte: u8, text: &[u8]) -> Option<usize>
    ensures { result ≡ position (λ b. b == byte) text.now }
{
    text.iter().position(|b| *b == byte)
}

/// The text before the first such byte, and all of it where there is none. Takes no memory.
pub(crate) fn before(byte: u8, text: &[u8]) -> &[u8]
    ensures { result.now ≡ before_first (λ b. b == byte) text.now }
{
    &text[..place_of(byte, text)]
}

/// The text after the first such byte, and nothing where there is none. Takes no memory.
pub(crate) fn after(byte: u8, text: &[u8]) -> &[u8]
    ensures { result.now ≡ after_first (λ b. b == byte) text.now }
{
    let at = place_of(byte, text);
    if at < text.len() {
        &text[at + 1..]
    } else {
        &[]
    }
}
