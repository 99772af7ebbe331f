//! Copies that may be refused for want of memory.
ghost use Rattle.std.specs.Prelude.{◌≡◌, [], ◌∷◌, ◌++◌, List, IfOk, OnOk};

use crate::memory::Memory;
use std::alloc::Global;

/// A value that can be copied whole.
pub trait Copied: Sized + Drop {
    /// An equal value.
    fn copied(&self, alloc: Global) -> Result<Self, Memory>
        ensures { IfOk result (λ copy. copy ≡ self.now) };
}

impl<const N: usize> Copied for [u8; N] {
    fn copied(&self, _alloc: Global) -> Result<[u8; N], Memory> {
        Ok(*self)
    }
}

impl<A: Copied, B: Copied> Copied for (A, B) {
    fn copied(&self, alloc: Global) -> Result<(A, B), Memory> {
        Ok((self.0.copied(alloc)?, self.1.copied(alloc)?))
    }
}

/// Pushes a copy of the value.
pub(crate) fn push_copy<T: Copied>(
    alloc: Global,
    items: &mut Vec<T>,
    value: &T,
) -> Result<(), Memory>
    ensures { OnOk result (items.new.items ≡ items.old.items ++ value.now ∷ []) }
{
    items.push(value.copied(alloc)?)?;
    Ok(())
}

/// Pushes a copy of each value.
pub(crate) fn push_copies<T: Copied>(
    alloc: Global,
    items: &mut Vec<T>,
    values: &[T],
) -> Result<(), Memory>
    ensures { OnOk result (items.new.items ≡ items.old.items ++ values.now) }
{
    for value in values {
        push_copy(alloc, items, value)?;
    }
    Ok(())
}
