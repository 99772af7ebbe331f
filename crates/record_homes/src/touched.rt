//! What a turn touched: the ids of records, each with the place at which its record was loaded or none.
//!
//! The ids of a batch nearly always come in ascending order, and then they stand in a list. From the first id on that is not greater
//! than the last one they stand in a tree.
ghost use Rattle.std.specs.Prelude.{◌≡◌, [], IfOk, OnOk};
ghost use Rattle.std.specs.BTreeMap.{insert_entry};
ghost use Rattle.union_base.specs.RecordIds.{id_cmp};
ghost use Rattle.record_homes.specs.Maps.{at_id};

use crate::ascending_ids::AscendingIds;
use crate::place::Place;
use std::alloc::Global;
use std::collections::BTreeMap;
use std::marker::Model;
use std::mem;
use union_base::memory::Memory;
use union_base::record_id::RecordId;

/// The ids that a turn touched, each with the place at which the record was loaded that is current by now, or none.
pub struct Touched {
    held: Held,
}

/// A drop of its own, as that of `Bytes`.
impl Drop for Touched {
    fn drop(self) {
        let Touched { held: _ } = self;
    }
}

#[derive(Drop)]
enum Held {
    List(AscendingIds),
    Tree(BTreeMap<RecordId, Option<Place>>),
}

impl Model for Touched {
    ghost use Rattle.record_homes.specs.TouchedIds.{TouchedIds};
    ghost use Rattle.record_homes.specs.HeldIds.{held_in};

    ghost Value = { TouchedIds };

    ghost view = { λ touched. record { entries = held_in touched.held } };
}

impl Touched {
    /// No ids. Takes no memory.
    pub fn new(alloc: Global) -> Touched
        ensures { result.entries ≡ [] }
    {
        Touched {
            held: Held::List(AscendingIds::new(alloc)),
        }
    }

    /// No ids, with room for that many in ascending order. Returns `Memory` if allocation fails.
    pub fn with_capacity(alloc: Global, count: usize) -> Result<Touched, Memory>
        ensures { IfOk result (λ touched. touched.entries ≡ []) }
    {
        Ok(Touched {
            held: Held::List(AscendingIds::with_capacity(alloc, count)?),
        })
    }

    /// What stands under the id. Takes no memory.
    pub fn get(&self, id: &RecordId) -> Option<Option<Place>>
        ensures { result ≡ at_id self.now.entries id.now }
    {
        match &self.held {
            Held::List(ids) => ids.get(id),
            Held::Tree(tree) => match tree.get(id) {
                Some(place) => Some(*place),
                None => None,
            },
        }
    }

    /// Puts the place, or none, under the id, and answers what stood there. Returns `Memory` if allocation fails; ids may be lost
    /// then.
    pub fn insert(
        &mut self,
        alloc: Global,
        id: RecordId,
        place: Option<Place>,
    ) -> Result<Option<Option<Place>>, Memory>
        ensures old { IfOk result (λ old. old ≡ at_id self.old.entries id) }
        ensures entries { OnOk result (self.new.entries
            ≡ insert_entry id_cmp self.old.entries id place) }
    {
        match &mut self.held {
            Held::List(ids) => {
                if ids.is_above(&id) {
                    ids.push(id, place)?;
                    return Ok(None);
                }
                let mut tree = mem::replace(ids, AscendingIds::new(alloc)).into_tree(alloc)?;
                let old = tree.insert(id, place)?;
                self.held = Held::Tree(tree);
                Ok(old)
            }
            Held::Tree(tree) => Ok(tree.insert(id, place)?),
        }
    }

    /// The ids in a list, in ascending order. Returns `Memory` if allocation fails.
    pub fn into_list(self, alloc: Global) -> Result<AscendingIds, Memory>
        ensures { IfOk result (λ ids. ids.entries ≡ self.entries) }
    {
        let Touched { held } = self;
        match held {
            Held::List(ids) => Ok(ids),
            Held::Tree(tree) => AscendingIds::of_tree(alloc, tree),
        }
    }
}
