//! Where bytes go, and the writing of a whole text. A write takes the front of its piece, or fails, takes nothing and
//! raises the sink's count.
ghost use Rattle.std.specs.Prelude.{◌<◌, ℕ, List, length, IfOk, OnOk, OnErr};
ghost use Rattle.std.specs.declared.option.Option.{Option};
ghost use Rattle.std.specs.Io.{WritesAtMost};
ghost use Rattle.std.specs.Io.KnownBytes.{Appends, WriteAppends};
ghost use Rattle.union_io.specs.Causes.{HasCause};
ghost use Rattle.union_io.specs.Writing.{AppendsFront};

use crate::failed::Failed;

/// Where bytes go, with a count of faults that never falls.
pub trait Sink: Drop {
    /// What was written, where it tells that.
    ghost written: { Self → Option (List ℕ) };

    /// How often a write failed, up to the count's last value.
    ghost faults: { Self → ℕ };

    /// Writes bytes from the front of the piece, one at least, and answers how many. A failure writes none.
    fn write(&mut self, piece: &[u8]) -> Result<usize, Failed>
        requires { 0 < length piece.now }
        ensures some { IfOk result (λ count. 0 < count) }
        ensures bound { WritesAtMost result piece.now }
        ensures bytes { WriteAppends (written self.old) (written self.new) result piece.now }
        ensures cause { HasCause (faults self.old) (faults self.new) result };
}

/// Writes the whole text, in as many pieces as the sink wants. Where a write fails, a prefix of the text was written.
/// Takes no memory.
pub fn put_all<O: Sink>(out: &mut O, text: &[u8]) -> Result<(), Failed>
    ensures all { OnOk result (Appends (O.written out.old) (O.written out.new) text.now) }
    ensures front { OnErr result (AppendsFront (O.written out.old) (O.written out.new) text.now) }
    ensures cause { HasCause (O.faults out.old) (O.faults out.new) result }
{
    let mut rest = text;
    while !rest.is_empty() {
        let taken = out.write(rest)?;
        rest = rest.split_at(taken).1;
    }
    Ok(())
}
