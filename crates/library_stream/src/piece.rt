//! The piece that was read last, and what of it is unread.
ghost use Rattle.std.specs.Prelude.{◌≡◌, ◌≤◌, [], length, take, drop, IfOk, MatchResult};
ghost use Rattle.std.specs.Io.KnownBytes.{Consumes, Keeps};
ghost use Rattle.union_io.specs.Causes.{HasCause};
ghost use Rattle.union_io.specs.Reading.{EndsExactly};

use std::alloc::Global;
use std::marker::Model;
use union_base::memory::Memory;
use union_io::failed::Failed;
use union_io::source::Source;

/// How many bytes are asked for at once.
pub const PIECE: usize = 65_536;

/// The piece that was read last. Contracts see what of it is unread.
#[derive(Drop)]
pub struct Piece {
    bytes: Vec<u8>,
    from: usize,
    to: usize,
}

impl Model for Piece {
    ghost use Rattle.std.specs.Prelude.{List, ℕ};

    ghost Value = { List ℕ };

    ghost use Rattle.library_stream.specs.Pieces.{unread_of, IsInPlace};

    ghost view = { unread_of };

    ghost invariant = { IsInPlace };
}

impl Piece {
    /// An empty piece. It takes the room of `PIECE` bytes.
    pub fn open(alloc: Global) -> Result<Piece, Memory>
        ensures { IfOk result (λ piece. piece ≡ []) }
    {
        Ok(Piece {
            bytes: vec![in alloc; 0u8; PIECE]?,
            from: 0,
            to: 0,
        })
    }

    /// What is unread. Takes no memory.
    pub fn unread(&self) -> &[u8]
        ensures { result.now ≡ self.now }
    {
        self.bytes
            .as_slice()
            .split_at(self.to)
            .0
            .split_at(self.from)
            .1
    }

    /// Passes over the first `count` bytes. Takes no memory.
    pub fn skip(&mut self, count: usize)
        requires { count ≤ length self.old }
        ensures { self.new ≡ drop count self.old }
    {
        self.from += count;
    }

    /// Keeps the first `count` bytes, and forgets those after them. Takes no memory.
    pub fn keep(&mut self, count: usize)
        requires { count ≤ length self.old }
        ensures { self.new ≡ take count self.old }
    {
        self.to = self.from + count;
    }

    /// Reads the next piece in place of this one, and answers how many bytes it has. After a failure it is empty. Takes no
    /// memory.
    pub fn fill<S: Source>(&mut self, source: &mut S) -> Result<usize, Failed>
        ensures name { S.name source.new ≡ S.name source.old }
        ensures bytes { MatchResult result
            (λ count. Consumes (S.left source.old) (S.left source.new) self.new)
            (λ _. Keeps (S.left source.old) (S.left source.new)) }
        ensures size { MatchResult result (λ count. length self.new ≡ count) (λ _. self.new ≡ []) }
        ensures end { EndsExactly (S.left source.old) result }
        ensures cause { HasCause (S.faults source.old) (S.faults source.new) result }
    {
        self.from = 0;
        self.to = 0;
        let count = source.read(self.bytes.as_mut_slice())?;
        self.to = count;
        Ok(count)
    }
}
