//! Batches of operations at hand, and copies of batches.
ghost use Rattle.std.specs.Prelude.{◌≡◌, IfOk, IsTrue};
ghost use Rattle.catalogue_editions.specs.Batches.{is_batch};

use crate::batch::Batch;
use crate::op::Op;
use std::alloc::Global;
use union_base::copied::Copied;
use union_base::library_code::LibraryCode;
use union_base::memory::Memory;
use union_base::sequence::Sequence;

impl Batch {
    /// The batch of these operations of that library. Takes no memory.
    pub fn of(library: LibraryCode, ops: Vec<Op>) -> Batch
        requires { IsTrue (is_batch library ops.items) }
        ensures library { result.library ≡ library }
        ensures ops { result.ops ≡ ops.items }
    {
        Batch {
            library,
            ops: Sequence::from(ops),
        }
    }

    /// An equal batch, whose editions share their parts with those of this one.
    ///
    /// Returns `Memory` if allocation fails.
    pub fn copied(&self, alloc: Global) -> Result<Batch, Memory>
        ensures { IfOk result (λ copy. copy ≡ self.now) }
    {
        Ok(Batch {
            library: self.library,
            ops: self.ops.copied(alloc)?,
        })
    }
}

impl Copied for Op {
    fn copied(&self, alloc: Global) -> Result<Op, Memory> {
        match self {
            Op::Load(edition) => Ok(Op::Load(edition.shared()?)),
            Op::Withdraw(control) => Ok(Op::Withdraw(control.copied(alloc)?)),
        }
    }
}
