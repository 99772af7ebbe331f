//! Where bytes come from, in whatever pieces. A read gives the next bytes, 0 of them exactly at the end, or fails and
//! raises the source's count.
ghost use Rattle.std.specs.Prelude.{◌≡◌, ◌<◌, ℕ, List, length};
ghost use Rattle.std.specs.declared.option.Option.{Option};
ghost use Rattle.std.specs.Io.{ReadsAtMost};
ghost use Rattle.std.specs.Io.KnownBytes.{ReadConsumes};
ghost use Rattle.union_io.specs.Causes.{HasCause};
ghost use Rattle.union_io.specs.Reading.{EndsExactly};

use crate::failed::Failed;

/// Bytes that come in pieces, with the name under which they were opened and a count of faults that never falls.
pub trait Source: Drop {
    /// The name under which it was opened, empty where there is none.
    ghost name: { Self → List ℕ };

    /// The bytes that are left, where it tells them.
    ghost left: { Self → Option (List ℕ) };

    /// How often a read failed, up to the count's last value.
    ghost faults: { Self → ℕ };

    /// Reads the next bytes to the front of `into`, and answers how many. 0 is the end.
    ///
    /// What stands in `into` after them is not said, nor what stands there after a failure. A failure takes no bytes.
    fn read(&mut self, into: &mut [u8]) -> Result<usize, Failed>
        requires { 0 < length into.old }
        ensures name { name self.new ≡ name self.old }
        ensures bound { ReadsAtMost result into.new }
        ensures bytes { ReadConsumes (left self.old) (left self.new) result into.new }
        ensures end { EndsExactly (left self.old) result }
        ensures cause { HasCause (faults self.old) (faults self.new) result };
}
