//! What an edition shows.
ghost use Rattle.std.specs.Prelude.{◌≡◌, IfOk, IsTrue};
ghost use Rattle.field_merge.specs.Kept.{are_kept};

use crate::fixed::Fixed;
use crate::slot::Slot;
use std::alloc::Global;
use union_base::copied::Copied;
use union_base::field::Field;
use union_base::memory::Memory;
use union_base::record_id::RecordId;
use union_base::sorted_list::SortedList;

/// The content of an edition: the ids of the records that it is made of, the leader's codes with field 008, the fields of
/// which it shows one, each with the rank of the record that it comes from, and all other fields.
///
/// There is at least one contributor, and contributors and united fields are in order and without repeats. What comes from one
/// record shares its rank, and a copy shares the ranks of its source.
#[derive(Debug)]
pub struct Content {
    pub contributors: SortedList<RecordId>,
    pub fixed: Fixed,
    pub f005: Option<Slot>,
    pub f010: Option<Slot>,
    pub f040: Option<Slot>,
    /// The main entry, of tag 100, 110, 111 or 130.
    pub f1xx: Option<Slot>,
    pub f240: Option<Slot>,
    pub f245: Slot,
    pub united: SortedList<Field>,
    pub ghost kept: { IsTrue (are_kept contributors united) },
}

/// A drop of its own, as that of `Bytes`.
impl Drop for Content {
    fn drop(self) {
        let Content {
            contributors: _,
            fixed: _,
            f005: _,
            f010: _,
            f040: _,
            f1xx: _,
            f240: _,
            f245: _,
            united: _,
        } = self;
    }
}

impl Copied for Content {
    fn copied(&self, alloc: Global) -> Result<Content, Memory> {
        Ok(Content {
            contributors: self.contributors.copied(alloc)?,
            fixed: self.fixed.copied(alloc)?,
            f005: copied_slot(alloc, &self.f005)?,
            f010: copied_slot(alloc, &self.f010)?,
            f040: copied_slot(alloc, &self.f040)?,
            f1xx: copied_slot(alloc, &self.f1xx)?,
            f240: copied_slot(alloc, &self.f240)?,
            f245: self.f245.copied(alloc)?,
            united: self.united.copied(alloc)?,
        })
    }
}

/// An equal slot, absent where it is absent.
pub fn copied_slot(alloc: Global, slot: &Option<Slot>) -> Result<Option<Slot>, Memory>
    ensures { IfOk result (λ copy. copy ≡ slot.now) }
{
    match slot {
        Some(slot) => Ok(Some(slot.copied(alloc)?)),
        None => Ok(None),
    }
}
