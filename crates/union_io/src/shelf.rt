//! Files by name. An opening that failed, and a file of which a read failed, raise the count of their name and of no
//! other, so that whoever names a file as the cause can be held to it.
ghost use Rattle.std.specs.Prelude.{◌≡◌, ◌<◌, ◌≤◌, ℕ, List, IsTrue, IfOk};
ghost use Rattle.std.specs.declared.option.Option.{Option};
ghost use Rattle.union_io.specs.Causes.{Rose};
ghost use Rattle.union_io.specs.Counts.{SameCounts, SameElsewhere};
ghost use Rattle.union_io.specs.Files.{told_file};
ghost use Rattle.union_io.specs.Names.{is_among};
ghost use Rattle.union_io.specs.Opening.{CountsOpen, ListsOpen};

use crate::source::Source;
use std::alloc::Global;
use union_base::bytes::Bytes;
use union_base::memory::Memory;

/// Why a file was not opened.
#[derive(Clone, Copy, Debug, PartialEq, Eq)]
pub enum OpenFail {
    /// The opening failed, and the shelf's count of faults of that name rose.
    Failed,
    /// Memory ran out.
    Memory,
}

impl From<Memory> for OpenFail {
    ghost use Rattle.std.specs.Prelude.{◌≡◌};
    ghost use Rattle.union_io.specs.declared.shelf.OpenFail.TheVariants as fail;

    ghost from_gives = { λ _ answer. answer ≡ fail.Memory };

    fn from(_want: Memory) -> OpenFail {
        OpenFail::Memory
    }
}

/// Files by name, with the names that were opened, and for each name a count of faults that never falls.
pub trait Shelf: Drop {
    /// An opened file.
    type Src: Source + Send;

    /// The content of the file of each name, where it tells that. A name that it has not stands for the empty file.
    ghost files: { Self → Option (List ℕ → List ℕ) };

    /// The names that were opened.
    ghost opened: { Self → List (List ℕ) };

    /// How often something failed under a name, up to the count's last value.
    ghost faults: { Self → List ℕ → ℕ };

    /// Opens the file of that name. A want of memory leaves the shelf as it was, and any other answer adds the name to
    /// those that were opened.
    fn open(&mut self, alloc: Global, path: &Bytes) -> Result<Self::Src, OpenFail>
        ensures files { files self.new ≡ files self.old }

        // what an opened source is
        ensures name { IfOk result (λ source. Self.Src.name source ≡ path.now) }
        ensures left { IfOk result (λ source. Self.Src.left source
            ≡ told_file (files self.old) path.now) }
        ensures fresh { IfOk result (λ source. Self.Src.faults source ≡ 0) }

        // the counts
        ensures later { faults self.old path.now ≤ faults self.new path.now }
        ensures counts { CountsOpen result (faults self.old) (faults self.new) path.now }
        ensures others { SameElsewhere (faults self.old) (faults self.new) path.now }

        // the names that were opened
        ensures names { ListsOpen result (opened self.old) (opened self.new) path.now };

    /// Takes an opened source back, and raises the count of its name exactly where a read of it failed. Takes no memory.
    fn give_back(&mut self, source: Self::Src)
        requires { IsTrue (is_among (Self.Src.name source) (opened self.old)) }
        ensures files { files self.new ≡ files self.old }
        ensures names { opened self.new ≡ opened self.old }
        ensures later { faults self.old (Self.Src.name source)
            ≤ faults self.new (Self.Src.name source) }
        ensures raised { 0 < Self.Src.faults source
            → Rose (faults self.old (Self.Src.name source))
            (faults self.new (Self.Src.name source)) }
        ensures calm { Self.Src.faults source ≡ 0 → SameCounts (faults self.old) (faults self.new) }
        ensures others { SameElsewhere (faults self.old) (faults self.new) (Self.Src.name source) };
}
