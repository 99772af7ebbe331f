//! The bytes of a source, one after the other, counted.
ghost use Rattle.std.specs.Prelude.{⊤, ◌≡◌, ◌≤◌, ◌<◌, ◌+◌, [], ◌∷◌, length, IfOk, MatchResult, MatchOption, OnOk, IsTrue, OnErr};
ghost use Rattle.std.specs.declared.option.Option.{Option};
ghost use Rattle.std.specs.Option.{option_to_list};
ghost use Rattle.library_batches.specs.Reading.{most_bytes};
ghost use Rattle.union_io.specs.Causes.{HasCause};
ghost use Rattle.union_explain.specs.Readings.{CountsFaults, FillsReader, GivesByte, IsLong, ReaderGoesOn, bytes_ahead};

use crate::stop::Stop;
use library_stream::frame_reader::LARGEST_SOURCE;
use std::alloc::Global;
use std::marker::Model;
use union_base::memory::Memory;
use union_io::failed::Failed;
use union_io::source::Source;

/// How many bytes are asked for at once.
pub const PIECE: usize = 65_536;

/// Reads a source byte by byte, and counts the bytes. Contracts see the bytes that were read and not yet given, and how many
/// were given.
#[derive(Drop)]
pub struct ByteReader {
    piece: Vec<u8>,
    from: usize,
    to: usize,
    at: u64,
}

impl Model for ByteReader {
    ghost use Rattle.union_io.specs.Causes.{HasCause};
    ghost use Rattle.union_explain.specs.Readings.{Reading};
    ghost use Rattle.union_explain.specs.Pieces.{reading_of, IsInPlace};

    ghost Value = { Reading };

    ghost view = { reading_of };

    ghost invariant = { IsInPlace };
}

impl ByteReader {
    /// A new reader. It takes the room of `PIECE` bytes.
    pub fn open(alloc: Global) -> Result<ByteReader, Memory>
        ensures { IfOk result (λ reader. reader ≡ record { unread = []; at = 0 }) }
    {
        Ok(ByteReader {
            piece: vec![in alloc; 0u8; PIECE]?,
            from: 0,
            to: 0,
            at: 0,
        })
    }

    /// How many bytes were given: the offset of the next one. Takes no memory.
    pub fn at(&self) -> u64
        ensures value { result ≡ self.now.at }
        ensures within { result ≤ most_bytes }
    {
        self.at
    }

    /// Whether a byte is there to be given; reads the source where none is unread.
    fn fill<S: Source>(&mut self, source: &mut S) -> Result<bool, Failed>
        ensures name { S.name source.new ≡ S.name source.old }
        ensures at { self.new.at ≡ self.old.at }
        ensures within { self.new.at ≤ most_bytes }
        ensures fills { IfOk result
            (FillsReader self.old (S.left source.old) self.new (S.left source.new)) }
        ensures some { IfOk result (λ some. IsTrue some → 0 < length self.new.unread) }
        ensures cause { HasCause (S.faults source.old) (S.faults source.new) result }
    {
        if self.from < self.to {
            return Ok(true);
        }
        self.from = 0;
        self.to = 0;
        let count = source.read(self.piece.as_mut_slice())?;
        self.to = count;
        Ok(count > 0)
    }

    /// The next byte, and None at the end of the source. `Failed` comes only where a read of the source failed, and `TooLong`
    /// only where the source gave `LARGEST_SOURCE` bytes and one more. Takes no memory.
    pub fn next<S: Source>(&mut self, source: &mut S) -> Result<Option<u8>, Stop>
        ensures name { S.name source.new ≡ S.name source.old }
        ensures gives { IfOk result
            (GivesByte self.old (S.left source.old) self.new (S.left source.new)) }
        ensures at { IfOk result (λ byte. self.new.at
            ≡ self.old.at + length (option_to_list byte)) }
        ensures within { IfOk result (λ _. self.new.at ≤ most_bytes) }
        ensures goes { IfOk result (λ _.
            ReaderGoesOn self.old (S.left source.old) self.new (S.left source.new)) }
        ensures long { result ≡ Err Stop.TooLong
            → IsLong self.old.at (bytes_ahead self.old (S.left source.old)) }
        ensures faults { CountsFaults (S.faults source.old) (S.faults source.new) result }
    {
        if !self.fill(source)? {
            return Ok(None);
        }
        if self.at == LARGEST_SOURCE {
            return Err(Stop::TooLong);
        }
        let byte = self.piece[self.from];
        self.from += 1;
        self.at += 1;
        Ok(Some(byte))
    }
}
