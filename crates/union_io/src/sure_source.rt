//! A source in memory that never fails.
ghost use Rattle.std.specs.Prelude.{◌≡◌, ◌<◌, Some, Ok, [], length};
ghost use Rattle.std.specs.Io.{ReadsAtMost};
ghost use Rattle.std.specs.Io.KnownBytes.{ReadConsumes};
ghost use Rattle.union_io.specs.Causes.{HasCause};
ghost use Rattle.union_io.specs.Reading.{EndsExactly};
ghost use Rattle.union_io.specs.Pieces.{piece_size};

use crate::failed::Failed;
use crate::pieces::PieceReader;
use crate::source::Source;
use std::marker::Model;
use union_base::bytes::Bytes;

/// A source that tells its bytes and has the constant count 0. Contracts see its name and what it has left.
#[derive(Drop)]
pub struct SureSource {
    name: Option<Bytes>,
    pieces: PieceReader,
}

impl Model for SureSource {
    ghost use Rattle.std.specs.Prelude.{[], unwrap_or};
    ghost use Rattle.union_io.specs.SureSource.{SureSourceState};

    ghost Value = { SureSourceState };

    ghost view = { λ source. record {
      name = unwrap_or source.name [];
      left = source.pieces.left;
      most = source.pieces.most;
    } };
}

impl SureSource {
    /// A source of the content with no name. Its reads give at most `most` bytes each. Takes no memory.
    pub fn of(content: Bytes, most: usize) -> SureSource
        requires { 0 < most }
        ensures { result ≡ record { name = []; left = content; most = most } }
    {
        SureSource {
            name: None,
            pieces: PieceReader::of(content, most),
        }
    }

    /// The same with a name.
    pub(crate) fn named(name: Bytes, content: Bytes, most: usize) -> SureSource
        requires { 0 < most }
        ensures { result ≡ record { name = name; left = content; most = most } }
    {
        SureSource {
            name: Some(name),
            pieces: PieceReader::of(content, most),
        }
    }
}

impl Source for SureSource {
    ghost name = { λ source. source.name };

    ghost left = { λ source. Some source.left };

    ghost faults = { λ _. 0 };

    /// Gives as many bytes as are left, have room and are allowed. It never fails.
    fn read(&mut self, into: &mut [u8]) -> Result<usize, Failed>
        requires { 0 < length into.old }
        ensures name { self.new.name ≡ self.old.name }
        ensures bound { ReadsAtMost result into.new }
        ensures bytes { ReadConsumes (Some self.old.left) (Some self.new.left) result into.new }
        ensures end { EndsExactly (Some self.old.left) result }
        ensures cause { HasCause 0 0 result }

        ensures size { result ≡ Ok (piece_size self.old.left (length into.old) self.old.most) }
        ensures most { self.new.most ≡ self.old.most }
    {
        Ok(self.pieces.next(into))
    }
}
