//! The few things that keys need of texts.
ghost use Rattle.std.specs.Prelude.{◌≡◌, [], ◌++◌, IfOk};
ghost use Rattle.naco_normal.specs.Words.{is_empty};

use std::alloc::Global;
use union_base::bytes::Bytes;
use union_base::memory::Memory;

/// An empty text. Takes no memory.
pub(crate) fn empty(alloc: Global) -> Bytes
    ensures { result ≡ [] }
{
    Bytes::from(Vec::new(alloc))
}

/// Whether the text is empty. Takes no memory.
pub(crate) fn is_empty(text: &Bytes) -> bool
    ensures { result ≡ is_empty text.now }
{
    text.bytes().is_empty()
}

/// The first text, the mark and the second text.
pub(crate) fn joined(
    alloc: Global,
    first: &[u8],
    mark: &[u8],
    second: &[u8],
) -> Result<Bytes, Memory>
    ensures { IfOk result (λ b. b ≡ first.now ++ mark.now ++ second.now) }
{
    let room = first.len().saturating_add(mark.len());
    let mut text = Vec::with_capacity(alloc, room.saturating_add(second.len()))?;
    text.extend_from_slice(first)?;
    text.extend_from_slice(mark)?;
    text.extend_from_slice(second)?;
    Ok(Bytes::from(text))
}
