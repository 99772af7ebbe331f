//! Bytes that end in a terminator.
ghost use Rattle.std.specs.Prelude.{◌≡◌};
ghost use Rattle.marc_fields.specs.Rows.{ends_in_only};

use memchr::memchr;

/// Whether the byte ends the others and stands nowhere before. Takes no memory.
pub fn ends_in_only(end: u8, bytes: &[u8]) -> bool
    ensures { result ≡ ends_in_only end bytes.now }
{
    match memchr(end, bytes) {
        Some(place) => place + 1 == bytes.len(),
        None => false,
    }
}
