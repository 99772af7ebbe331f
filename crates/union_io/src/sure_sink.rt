//! A sink that never fails.
ghost use Rattle.std.specs.Prelude.{◌≡◌, ◌<◌, None, Ok, length, IfOk};
ghost use Rattle.std.specs.Io.{WritesAtMost};
ghost use Rattle.std.specs.Io.KnownBytes.{WriteAppends};
ghost use Rattle.union_io.specs.Causes.{HasCause};

use crate::failed::Failed;
use crate::sink::Sink;

/// A sink that takes every byte and keeps none, since one that keeps them may find no room. It tells nothing, and has the
/// constant count 0.
#[derive(Debug, Drop)]
pub struct SureSink;

impl SureSink {
    /// The sink. Takes no memory.
    pub fn new() -> SureSink {
        SureSink
    }
}

impl Sink for SureSink {
    ghost written = { λ _. None };

    ghost faults = { λ _. 0 };

    /// Takes the whole piece.
    fn write(&mut self, piece: &[u8]) -> Result<usize, Failed>
        requires { 0 < length piece.now }
        ensures some { IfOk result (λ count. 0 < count) }
        ensures bound { WritesAtMost result piece.now }
        ensures bytes { WriteAppends None None result piece.now }
        ensures cause { HasCause 0 0 result }

        ensures all { result ≡ Ok (length piece.now) }
    {
        Ok(piece.len())
    }
}
