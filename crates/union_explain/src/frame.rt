//! A frame that is gathered byte by byte.
ghost use Rattle.std.specs.Prelude.{◌≡◌, ◌+◌, ◌<◌, ◌≤◌, ◌∷◌, ◌++◌, [], ℕ, List, OnOk, IsTrue, ◌||◌, ◌==◌};
ghost use Rattle.iso2709_frame.specs.Frames.{is_break, is_terminator};
ghost use Rattle.library_batches.specs.Reading.{most_bytes};
ghost use Rattle.union_explain.specs.Located.{AddsByte, frame_at};

use iso2709_frame::cut::{CARRIAGE_RETURN, LARGEST_FRAME, LINE_FEED, RECORD_TERMINATOR};
use std::alloc::Global;
use std::marker::Model;
use union_base::memory::Memory;

/// A frame and where it stands. Contracts see the offset of its first byte, its length, whether a record terminator ends it,
/// and its first 99,999 bytes.
#[derive(Drop)]
pub struct Frame {
    first: u64,
    size: u64,
    ended: bool,
    bytes: Vec<u8>,
}

impl Model for Frame {
    ghost use Rattle.union_explain.specs.Located.{Located};
    ghost use Rattle.union_explain.specs.Gathered.{gathered_of};

    ghost Value = { Located };

    ghost view = { gathered_of };
}

/// Whether the byte is CR or LF.
fn is_break(byte: u8) -> bool
    ensures { result ≡ is_break byte }
{
    byte == CARRIAGE_RETURN || byte == LINE_FEED
}

/// Whether a piece has a record terminator that had one or not, and now this byte.
fn is_ended_by(ended: bool, byte: u8) -> bool
    ensures { result ≡ (ended || is_terminator byte) }
{
    ended || byte == RECORD_TERMINATOR
}

impl Frame {
    /// A frame of no bytes. Takes no memory.
    pub fn new(alloc: Global) -> Frame {
        Frame {
            first: 0,
            size: 0,
            ended: false,
            bytes: Vec::new(alloc),
        }
    }

    /// The offset of its first byte in the stream, from 0. Takes no memory.
    pub fn first(&self) -> u64
        ensures { result ≡ self.now.first }
    {
        self.first
    }

    /// How many bytes it has. Takes no memory.
    pub fn size(&self) -> u64
        ensures { result ≡ self.now.size }
    {
        self.size
    }

    /// Whether a record terminator ends it. Takes no memory.
    pub fn is_ended(&self) -> bool
        ensures { result ≡ self.now.ended }
    {
        self.ended
    }

    /// Its bytes, of a longer one the first 99,999. Takes no memory.
    pub fn bytes(&self) -> &[u8]
        ensures { result.now ≡ self.now.bytes }
    {
        self.bytes.as_slice()
    }

    /// Begins a piece of the stream at this offset. Takes no memory.
    pub fn begin(&mut self, at: u64)
        ensures { self.new ≡ frame_at at [] }
    {
        self.first = at;
        self.size = 0;
        self.ended = false;
        self.bytes.clear();
    }

    /// Adds the next byte of the piece.
    pub fn add(&mut self, byte: u8) -> Result<(), Memory>
        requires { self.old.first + self.old.size ≤ most_bytes }
        ensures { OnOk result (AddsByte self.old self.new byte) }
    {
        let ended = is_ended_by(self.ended, byte);
        self.ended = ended;
        if self.size == 0 && is_break(byte) {
            self.first += 1;
            return Ok(());
        }
        self.size += 1;
        if self.bytes.len() < LARGEST_FRAME {
            self.bytes.push(byte)?;
        }
        Ok(())
    }
}
