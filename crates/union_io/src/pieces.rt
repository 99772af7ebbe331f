//! Bytes in memory that are given in pieces. Each byte is copied once, to where it is given.
ghost use Rattle.std.specs.Prelude.{◌≡◌, ◌<◌, length, take, drop};
ghost use Rattle.union_io.specs.Pieces.{piece_size};

use std::marker::Model;
use union_base::bytes::Bytes;

/// A text of which pieces of a limited size are given, one after another.
#[derive(Drop)]
pub struct PieceReader {
    content: Bytes,
    given: usize,
    most: usize,
}

impl Model for PieceReader {
    ghost use Rattle.std.specs.Prelude.{◌<◌, ◌≤◌, length, drop};
    ghost use Rattle.union_io.specs.Pieces.{Pieces};

    ghost Value = { Pieces };

    ghost view = { λ reader. record { left = drop reader.given reader.content; most = reader.most } };

    ghost invariant = { λ reader. (reader.given ≤ length reader.content) × (0 < reader.most) };
}

impl PieceReader {
    /// A reader of the content, which gives at most `most` bytes at a time.
    pub fn of(content: Bytes, most: usize) -> PieceReader
        requires { 0 < most }
        ensures { result ≡ record { left = content; most = most } }
    {
        PieceReader {
            content,
            given: 0,
            most,
        }
    }

    /// Copies the next piece to the front of `into`, and answers its size.
    pub fn next(&mut self, into: &mut [u8]) -> usize
        ensures size { result ≡ piece_size self.old.left (length into.old) self.old.most }
        ensures bytes { take result into.new ≡ take result self.old.left }
        ensures left { self.new.left ≡ drop result self.old.left }
        ensures most { self.new.most ≡ self.old.most }
        ensures some { 0 < self.old.most }
    {
        let left = self.content.bytes().split_at(self.given).1;
        let size = left.len().min(into.len()).min(self.most);
        into[..size].copy_from_slice(left.split_at(size).0);
        self.given += size;
        size
    }
}
