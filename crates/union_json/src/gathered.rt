//! A text that is kept until it may be written.
ghost use Rattle.std.specs.Prelude.{◌≡◌, ◌++◌, [], IfOk, OnOk, OnErr};
ghost use Rattle.std.specs.Io.KnownBytes.{Appends};
ghost use Rattle.union_io.specs.Causes.{HasCause};
ghost use Rattle.union_io.specs.Writing.{AppendsFront};
ghost use Rattle.union_json.specs.Kept.{joined};

use std::alloc::{AllocError, Global};
use std::marker::Model;
use std::mem;
use union_io::failed::Failed;
use union_io::sink::{Sink, put_all};

/// The bytes of a piece. A text that is longer gets a piece of its own length.
const PIECE: usize = 1_048_576;

/// A text in pieces, none of which grows: what it takes is its own length, and a piece at most. Contracts see the text.
#[derive(Drop)]
pub struct Gathered {
    full: Vec<Vec<u8>>,
    last: Vec<u8>,
}

impl Model for Gathered {
    ghost use Rattle.std.specs.Prelude.{List, ℕ};

    ghost Value = { List ℕ };

    ghost use Rattle.union_json.specs.Kept.{text_of};

    ghost view = { text_of };
}

impl Gathered {
    /// The empty text. It takes the room of a piece.
    pub fn open(alloc: Global) -> Result<Gathered, AllocError>
        ensures { IfOk result (λ gathered. gathered ≡ []) }
    {
        Ok(Gathered {
            full: Vec::new(alloc),
            last: Vec::with_capacity(alloc, PIECE)?,
        })
    }

    /// Adds a text. After a refusal nothing is said of what is kept.
    pub fn add(&mut self, text: &[u8]) -> Result<(), AllocError>
        ensures { OnOk result (self.new ≡ self.old ++ text.now) }
    {
        if text.len() > PIECE.saturating_sub(self.last.len()) {
            next_piece(&mut self.full, &mut self.last, text.len())?;
        }
        self.last.extend_from_slice(text)
    }

    /// Writes the whole text. Where a write fails, a prefix of it was written. Takes no memory.
    pub fn put<O: Sink>(&self, out: &mut O) -> Result<(), Failed>
        ensures all { OnOk result (Appends (O.written out.old) (O.written out.new) self.now) }
        ensures front { OnErr result (AppendsFront (O.written out.old) (O.written out.new)
            self.now) }
        ensures cause { HasCause (O.faults out.old) (O.faults out.new) result }
    {
        put_pieces(self.full.as_slice(), out)?;
        put_all(out, self.last.as_slice())
    }
}

/// Sets the last piece aside, and begins a new one with the room of a piece, and of `size` bytes at least.
fn next_piece(full: &mut Vec<Vec<u8>>, last: &mut Vec<u8>, size: usize) -> Result<(), AllocError>
    ensures { OnOk result (joined full.new.items ++ last.new.items
        ≡ joined full.old.items ++ last.old.items) }
{
    let alloc = *full.allocator();
    let next = Vec::with_capacity(alloc, PIECE.max(size))?;
    full.push(mem::replace(last, next))?;
    Ok(())
}

/// Writes the pieces, one after the other.
fn put_pieces<O: Sink>(pieces: &[Vec<u8>], out: &mut O) -> Result<(), Failed>
    ensures all { OnOk result (Appends (O.written out.old) (O.written out.new)
        (joined pieces.now)) }
    ensures front { OnErr result (AppendsFront (O.written out.old) (O.written out.new)
        (joined pieces.now)) }
    ensures cause { HasCause (O.faults out.old) (O.faults out.new) result }
{
    for piece in pieces {
        put_all(out, piece.as_slice())?;
    }
    Ok(())
}
