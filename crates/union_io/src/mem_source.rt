//! A source in memory, which fails at the reads that its script names.
ghost use Rattle.std.specs.Prelude.{◌≡◌, ◌<◌, ◌↔◌, Some, [], length, IsTrue, IsErr, IfOk, OnErr};
ghost use Rattle.std.specs.Io.{ReadsAtMost};
ghost use Rattle.std.specs.Io.KnownBytes.{ReadConsumes};
ghost use Rattle.union_io.specs.Causes.{HasCause};
ghost use Rattle.union_io.specs.Reading.{EndsExactly};
ghost use Rattle.union_io.specs.Pieces.{piece_size};
ghost use Rattle.union_io.specs.Script.{fails_next};
ghost use Rattle.union_io.specs.MemSource.{new_source, after_read, after_failed_read};

use crate::failed::Failed;
use crate::pieces::PieceReader;
use crate::script::FailScript;
use crate::source::Source;
use std::marker::Model;
use union_base::bytes::Bytes;

/// A source that tells its bytes. Contracts see its name, what it has left, its script and its count of faults.
#[derive(Drop)]
pub struct MemSource {
    name: Bytes,
    pieces: PieceReader,
    script: FailScript,
    faults: u64,
}

impl Model for MemSource {
    ghost use Rattle.union_io.specs.MemSource.{SourceState};

    ghost Value = { SourceState };

    ghost view = { λ source. record {
      name = source.name;
      left = source.pieces.left;
      most = source.pieces.most;
      script = source.script;
      faults = source.faults;
    } };
}

impl MemSource {
    /// A source of the content with no name. Its reads give at most `most` bytes each, and those with the numbers `fails`
    /// fail, counted from 1. Takes no memory.
    pub fn of(content: Bytes, fails: Vec<u64>, most: usize) -> MemSource
        requires { 0 < most }
        ensures { result ≡ new_source [] content fails.items most }
    {
        let unnamed = Bytes::from(Vec::new(*fails.allocator()));
        MemSource::named(unnamed, content, fails, most)
    }

    /// The same with a name.
    pub(crate) fn named(name: Bytes, content: Bytes, fails: Vec<u64>, most: usize) -> MemSource
        requires { 0 < most }
        ensures { result ≡ new_source name content fails.items most }
    {
        MemSource {
            name,
            pieces: PieceReader::of(content, most),
            script: FailScript::of(fails),
            faults: 0,
        }
    }

    /// The name under which it was opened.
    pub(crate) fn name(&self) -> &Bytes
        ensures { result.now ≡ self.now.name }
    {
        &self.name
    }

    /// How often a read failed.
    pub(crate) fn faults(&self) -> u64
        ensures { result ≡ self.now.faults }
    {
        self.faults
    }
}

impl Source for MemSource {
    ghost name = { λ source. source.name };

    ghost left = { λ source. Some source.left };

    ghost faults = { λ source. source.faults };

    /// Gives as many bytes as are left, have room and are allowed, and fails at the calls of its script alone.
    fn read(&mut self, into: &mut [u8]) -> Result<usize, Failed>
        requires { 0 < length into.old }
        ensures name { self.new.name ≡ self.old.name }
        ensures bound { ReadsAtMost result into.new }
        ensures bytes { ReadConsumes (Some self.old.left) (Some self.new.left) result into.new }
        ensures end { EndsExactly (Some self.old.left) result }
        ensures cause { HasCause self.old.faults self.new.faults result }

        // exactly the reads of the script fail, and each other gives all that it may
        ensures fails { IsErr result ↔ IsTrue (fails_next self.old.script) }
        ensures size { IfOk result (λ count. count
            ≡ piece_size self.old.left (length into.old) self.old.most) }
        ensures ok { IfOk result (λ count. self.new ≡ after_read self.old count) }
        ensures err { OnErr result (self.new ≡ after_failed_read self.old) }
    {
        if self.script.next_fails() {
            self.faults = self.faults.saturating_add(1);
            return Err(Failed);
        }
        Ok(self.pieces.next(into))
    }
}
