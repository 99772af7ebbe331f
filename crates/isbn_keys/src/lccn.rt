//! Library of Congress control numbers in one form, as `lccn_key` in `specs/Lccn.antt` has it, which is this project's
//! own.
ghost use Rattle.std.specs.Prelude.{◌≡◌, ◌++◌, IfOk};
ghost use Rattle.isbn_keys.specs.Lccn.{lccn_characters, padded, without_hyphen, lccn_key};

use crate::text::{BLANK, cut_at, place_of};
use std::alloc::Global;
use union_base::bytes::Bytes;
use union_base::memory::Memory;

/// What pads a serial number that is shorter than this.
const PADDING: [u8; 6] = *b"000000";

/// The key of an LCCN text: without blanks, without a `/` and all after it, and without its first hyphen, where what
/// followed the hyphen is padded on the left with `0` to six bytes. `85-2` gives `85000002`.
///
/// Answers `None` exactly where nothing is left, and `Memory` if allocation fails.
pub fn lccn(alloc: Global, text: &[u8]) -> Result<Option<Bytes>, Memory>
    ensures { IfOk result (λ key. key ≡ lccn_key text.now) }
{
    let key = without_hyphen(alloc, lccn_characters(alloc, text)?)?;
    if key.is_empty() {
        return Ok(None);
    }
    Ok(Some(Bytes::from(key)))
}

/// What stands before the first `/`, without blanks.
fn lccn_characters(alloc: Global, text: &[u8]) -> Result<Vec<u8>, Memory>
    ensures { IfOk result (λ v. v.items ≡ lccn_characters text.now) }
{
    let front = &text[..place_of(text, b'/')];
    Ok(
        front
            .iter()
            .copied()
            .filter(|c| *c != BLANK)
            .collect(alloc)?,
    )
}

/// Without the first hyphen, and what followed it padded.
fn without_hyphen(alloc: Global, characters: Vec<u8>) -> Result<Vec<u8>, Memory>
    ensures { IfOk result (λ v. v.items ≡ without_hyphen characters.items) }
{
    match cut_at(&characters, b'-') {
        Some((prefix, serial)) => with_padding(alloc, prefix, serial),
        None => Ok(characters),
    }
}

/// The prefix and the serial number, padded on the left.
fn with_padding(alloc: Global, prefix: &[u8], serial: &[u8]) -> Result<Vec<u8>, Memory>
    ensures { IfOk result (λ v. v.items ≡ prefix.now ++ padded serial.now) }
{
    let padding = &PADDING[..PADDING.len().saturating_sub(serial.len())];
    let room = prefix.len().saturating_add(serial.len());
    let mut key = Vec::with_capacity(alloc, room.saturating_add(padding.len()))?;
    key.extend_from_slice(prefix)?;
    key.extend_from_slice(padding)?;
    key.extend_from_slice(serial)?;
    Ok(key)
}
