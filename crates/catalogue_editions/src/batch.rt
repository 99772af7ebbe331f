//! What a library does with its records in one turn.
ghost use Rattle.std.specs.Prelude.{IsTrue};
ghost use Rattle.catalogue_editions.specs.Batches.{is_batch};

use crate::op::Op;
use union_base::library_code::LibraryCode;
use union_base::sequence::Sequence;

/// What a library does with its records in one turn: 1 to `LARGEST_BATCH` operations, in order. Each edition that is loaded
/// has one contributor, a record of this library, and one level in all its ranks, at most that of the first library of a
/// preference.
#[derive(Debug)]
pub struct Batch {
    pub library: LibraryCode,
    pub ops: Sequence<Op>,
    pub ghost fits: { IsTrue (is_batch library ops) },
}

/// A drop of its own, as that of `Bytes`.
impl Drop for Batch {
    fn drop(self) {
        let Batch { library: _, ops: _ } = self;
    }
}
