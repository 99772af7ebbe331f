//! A field that an edition shows once.
use crate::rank::Rank;
use std::alloc::Global;
use union_base::copied::Copied;
use union_base::field::Field;
use union_base::memory::Memory;

/// A field and the rank of the record that it comes from, ordered by rank, then by field.
#[derive(Debug, PartialEq, Eq, PartialOrd, Ord)]
pub struct Slot {
    pub rank: Rank,
    pub field: Field,
}

/// A drop of its own, as that of `Bytes`.
impl Drop for Slot {
    fn drop(self) {
        let Slot { rank: _, field: _ } = self;
    }
}

impl Copied for Slot {
    fn copied(&self, alloc: Global) -> Result<Slot, Memory> {
        Ok(Slot {
            rank: self.rank.copied(alloc)?,
            field: self.field.copied(alloc)?,
        })
    }
}
