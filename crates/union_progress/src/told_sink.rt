//! Standard output and standard error of a run whose progress is told.
ghost use Rattle.std.specs.Prelude.{◌≡◌};

use crate::teller::Tells;
use union_io::failed::Failed;
use union_io::sink::Sink;

/// A sink of whose writes the teller is told how many bytes they took.
#[derive(Drop)]
pub struct ToldOut<'a, W: Sink, T> {
    sink: W,
    teller: &'a T,
}

impl<'a, W: Sink, T> ToldOut<'a, W, T> {
    /// The sink, whose writes are told to the teller.
    pub fn of(sink: W, teller: &'a T) -> ToldOut<'a, W, T>
        ensures { result.sink ≡ sink }
    {
        ToldOut { sink, teller }
    }
}

impl<W: Sink, T: Tells> Sink for ToldOut<'_, W, T> {
    ghost written = { λ told. W.written told.sink };

    ghost faults = { λ told. W.faults told.sink };

    fn write(&mut self, piece: &[u8]) -> Result<usize, Failed> {
        self.teller.wrote(0);
        let count = self.sink.write(piece)?;
        self.teller.wrote(count);
        Ok(count)
    }
}

/// A sink where the progress is shown until something is written.
#[derive(Drop)]
pub struct ToldNotes<'a, W: Sink, T> {
    sink: W,
    teller: &'a T,
}

impl<'a, W: Sink, T> ToldNotes<'a, W, T> {
    /// The sink, before whose first write the teller ends.
    pub fn of(sink: W, teller: &'a T) -> ToldNotes<'a, W, T>
        ensures { result.sink ≡ sink }
    {
        ToldNotes { sink, teller }
    }
}

impl<W: Sink, T: Tells> Sink for ToldNotes<'_, W, T> {
    ghost written = { λ told. W.written told.sink };

    ghost faults = { λ told. W.faults told.sink };

    fn write(&mut self, piece: &[u8]) -> Result<usize, Failed> {
        self.teller.ends();
        self.sink.write(piece)
    }
}
