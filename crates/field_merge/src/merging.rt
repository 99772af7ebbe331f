//! What two contents merge to.
ghost use Rattle.std.specs.Prelude.{◌≡◌};
ghost use Rattle.field_merge.specs.Merging.{greater, join};
ghost use Rattle.field_merge.specs.MergingLaws.{join_laws};

use crate::content::{Content, copied_slot};
use merge_laws::join::Join;
use std::alloc::Global;
use std::cmp::Ordering;
use union_base::copied::Copied;
use union_base::memory::Memory;

impl Join for Content {
    ghost join = { join };

    fn joined(&self, alloc: Global, other: &Content) -> Result<Content, Memory> {
        Ok(Content {
            contributors: self.contributors.union(alloc, &other.contributors)?,
            fixed: greater(&self.fixed, &other.fixed).copied(alloc)?,
            f005: copied_slot(alloc, greater(&self.f005, &other.f005))?,
            f010: copied_slot(alloc, greater(&self.f010, &other.f010))?,
            f040: copied_slot(alloc, greater(&self.f040, &other.f040))?,
            f1xx: copied_slot(alloc, greater(&self.f1xx, &other.f1xx))?,
            f240: copied_slot(alloc, greater(&self.f240, &other.f240))?,
            f245: greater(&self.f245, &other.f245).copied(alloc)?,
            united: self.united.union(alloc, &other.united)?,
        })
    }

    fn copied(&self, alloc: Global) -> Result<Content, Memory> {
        Copied::copied(self, alloc)
    }

    ghost join_laws = { join_laws };
}

/// The greater of two values, the one where neither is. Takes no memory.
pub fn greater<'a, K: Ord>(one: &'a K, other: &'a K) -> &'a K
    ensures { result.now ≡ greater K.cmp one.now other.now }
{
    match one.cmp(other) {
        Ordering::Less => other,
        Ordering::Equal | Ordering::Greater => one,
    }
}
