//! The parts of a frame that the rules look at: its directory, its data, and a field's bytes in them. None of it takes
//! memory or reads a byte.
ghost use Rattle.std.specs.Prelude.{◌≡◌, ◌+◌, ◌-◌, ◌≤◌, true, length, take, drop};
ghost use Rattle.marc_fields.specs.Rules.{is_tile, text_of};

use crate::head::SMALLEST_BASE;
use marc_leader::entry::Entry;
use marc_leader::leader::LEADER_SIZE;

/// The directory and the data of a frame.
#[derive(Clone, Copy)]
pub struct FrameParts<'a> {
    /// The entries' bytes, without the terminator after them.
    pub directory: &'a [u8],
    /// The fields' bytes, each with its terminator.
    pub bytes: &'a [u8],
}

/// The bytes between the leader and the terminator before the base address, and those from there to the record terminator
/// (ISO 2709, 'Directory').
pub fn split_frame(frame: &[u8], base: usize) -> FrameParts<'_>
    requires low { 25 ≤ base }
    requires high { base + 1 ≤ length frame.now }
    ensures directory { result.directory.now ≡ take (base - 25) (drop 24 frame.now) }
    ensures bytes { result.bytes.now ≡ take (length frame.now - 1 - base) (drop base frame.now) }
{
    let (_, behind) = frame.split_at(LEADER_SIZE);
    let (directory, _) = behind.split_at(base - SMALLEST_BASE);
    let (_, rest) = frame.split_at(base);
    let (bytes, _) = rest.split_at(frame.len() - 1 - base);
    FrameParts { directory, bytes }
}

/// The bytes of the entry's field, without the terminator.
pub fn text_in<'a>(entry: &Entry, bytes: &'a [u8]) -> &'a [u8]
    requires { is_tile bytes.now entry.now ≡ true }
    ensures { result.now ≡ text_of bytes.now entry.now }
{
    let (_, behind) = bytes.split_at(entry.start as usize);
    let (text, _) = behind.split_at(entry.length as usize - 1);
    text
}
