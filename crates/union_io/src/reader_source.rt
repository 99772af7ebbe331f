//! A reader, as an opened file, as a source. Each read is one read of the reader, straight into the caller's buffer.
ghost use Rattle.std.specs.Prelude.{◌≡◌, ◌<◌, None, length};
ghost use Rattle.std.specs.Io.{ReadsAtMost};
ghost use Rattle.std.specs.Io.KnownBytes.{ReadConsumes};
ghost use Rattle.union_io.specs.Causes.{HasCause};
ghost use Rattle.union_io.specs.Reading.{EndsExactly};

use crate::failed::Failed;
use crate::source::Source;
use std::io::Read;
use union_base::bytes::Bytes;

/// A reader as a source, which tells no content. Each error of a read is a fault, also one that a signal caused.
#[derive(Drop)]
pub struct ReaderSource<R: Read + Drop> {
    reader: R,
    name: Bytes,
    faults: u64,
}

impl<R: Read + Drop> ReaderSource<R> {
    ghost use Rattle.union_io.specs.ReaderSource.{reader_of};

    /// The reader, opened under that name, of which no read has failed. Takes no memory.
    pub fn of(name: Bytes, reader: R) -> ReaderSource<R>
        ensures name { ⟦<ReaderSource<R> as Source>⟧.name result ≡ name }
        ensures fresh { ⟦<ReaderSource<R> as Source>⟧.faults result ≡ 0 }
        ensures reader { reader_of result ≡ reader }
    {
        ReaderSource {
            reader,
            name,
            faults: 0,
        }
    }

    /// The name under which it was opened.
    pub(crate) fn name(&self) -> &Bytes
        ensures { result.now ≡ ⟦<ReaderSource<R> as Source>⟧.name self.now }
    {
        &self.name
    }

    /// How often a read failed.
    pub(crate) fn faults(&self) -> u64
        ensures { result ≡ ⟦<ReaderSource<R> as Source>⟧.faults self.now }
    {
        self.faults
    }
}

impl<R: Read + Drop> Source for ReaderSource<R> {
    ghost use Rattle.union_io.specs.ReaderSource.{reader_of, name_of, faults_of};

    ghost name = { name_of };

    ghost left = { λ _. None };

    ghost faults = { faults_of };

    /// One read of the reader, straight into `into`.
    fn read(&mut self, into: &mut [u8]) -> Result<usize, Failed>
        requires { 0 < length into.old }
        ensures name { name_of self.new ≡ name_of self.old }
        ensures bound { ReadsAtMost result into.new }
        ensures bytes { ReadConsumes None None result into.new }
        ensures end { EndsExactly None result }
        ensures cause { HasCause (faults_of self.old) (faults_of self.new) result }

        // no byte of the reader is lost, repeated or changed
        ensures passed { ReadConsumes (R.remaining (reader_of self.old))
            (R.remaining (reader_of self.new)) result into.new }
    {
        match self.reader.read(into) {
            Ok(count) => Ok(count),
            Err(_) => {
                self.faults = self.faults.saturating_add(1);
                Err(Failed)
            }
        }
    }
}
