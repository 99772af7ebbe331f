//! The standard streams, and any other writer, as sinks. A piece goes to the writer as it is given: whoever writes much
//! gives large pieces.
ghost use Rattle.std.specs.Prelude.{◌≡◌};

use crate::failed::Failed;
use crate::sink::Sink;
use std::io::{Stderr, Stdout, Write};

/// A writer as a sink. It tells what the writer tells, which is nothing at the standard streams. Each error of a write is
/// a fault, also one that a signal caused, and so is a write that takes nothing.
#[derive(Drop)]
pub struct WriterSink<W: Write + Drop> {
    writer: W,
    faults: u64,
}

/// The standard output as a sink.
pub type OutSink = WriterSink<Stdout>;

/// The standard error as a sink.
pub type ErrSink = WriterSink<Stderr>;

impl<W: Write + Drop> WriterSink<W> {
    /// The writer, of which no write has failed.
    pub fn of(writer: W) -> WriterSink<W>
        ensures written { ⟦<WriterSink<W> as Sink>⟧.written result ≡ W.contents writer }
        ensures fresh { ⟦<WriterSink<W> as Sink>⟧.faults result ≡ 0 }
    {
        WriterSink { writer, faults: 0 }
    }
}

impl<W: Write + Drop> Sink for WriterSink<W> {
    ghost written = { λ sink. W.contents sink.writer };

    ghost faults = { λ sink. sink.faults };

    fn write(&mut self, piece: &[u8]) -> Result<usize, Failed> {
        match self.writer.write(piece) {
            Ok(taken) if taken > 0 => Ok(taken),
            _ => {
                self.faults = self.faults.saturating_add(1);
                Err(Failed)
            }
        }
    }
}
