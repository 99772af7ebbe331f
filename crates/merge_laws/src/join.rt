//! Values that merge.
ghost use Rattle.std.specs.Prelude.{◌≡◌, IfOk};
ghost use Rattle.merge_laws.specs.Resolution.{JoinLaws};

use std::alloc::Global;
use union_base::memory::Memory;

/// Values of which any two merge to a third, so that neither the order nor the number of times matters: a union of
/// sets, or the greater of two values.
pub trait Join: Sized + Drop {
    /// What two values merge to.
    ghost join: { Self → Self → Self };

    /// What this value and the other merge to. Returns `Memory` if allocation fails.
    fn joined(&self, alloc: Global, other: &Self) -> Result<Self, Memory>
        ensures { IfOk result (λ r. r ≡ join self.now other.now) };

    /// An equal value. Returns `Memory` if allocation fails.
    fn copied(&self, alloc: Global) -> Result<Self, Memory>
        ensures { IfOk result (λ r. r ≡ self.now) };

    /// Merging is idempotent, commutative and associative.
    ghost join_laws: { JoinLaws join };
}
