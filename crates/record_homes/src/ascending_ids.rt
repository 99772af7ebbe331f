//! Ids in ascending order in a list, each with a place or none.
//!
//! Cost: an id that comes in order is compared with the last one alone. A search looks at the last id first, and then goes on by
//! halves.
ghost use Rattle.std.specs.Prelude.{◌≡◌, ◌↔◌, ◌++◌, ◌∷◌, [], IsTrue, IfOk, OnOk};
ghost use Rattle.std.specs.List.Sorted.{IsStrictlySortedBy};
ghost use Rattle.std.specs.Map.{keys_of};
ghost use Rattle.union_base.specs.RecordIds.{id_cmp};
ghost use Rattle.record_homes.specs.Maps.{at_id};
ghost use Rattle.record_homes.specs.TouchedIds.{IsAbove};

use crate::place::Place;
use std::alloc::Global;
use std::cmp::Ordering;
use std::collections::BTreeMap;
use std::marker::Model;
use union_base::memory::Memory;
use union_base::record_id::RecordId;

/// Ids in ascending order, each with the place of its record or none.
pub struct AscendingIds {
    entries: Vec<(RecordId, Option<Place>)>,
}

/// A drop of its own, as that of `Bytes`.
impl Drop for AscendingIds {
    fn drop(self) {
        let AscendingIds { entries: _ } = self;
    }
}

impl Model for AscendingIds {
    ghost use Rattle.std.specs.List.Sorted.{IsStrictlySortedBy};
    ghost use Rattle.std.specs.Map.{keys_of};
    ghost use Rattle.union_base.specs.RecordIds.{id_cmp};
    ghost use Rattle.record_homes.specs.TouchedIds.{TouchedIds};

    ghost Value = { TouchedIds };

    ghost view = { λ ids. record { entries = ids.entries.items } };

    ghost invariant = { λ ids. IsStrictlySortedBy id_cmp (keys_of ids.entries.items) };
}

impl AscendingIds {
    /// No ids. Takes no memory.
    pub fn new(alloc: Global) -> AscendingIds
        ensures { result.entries ≡ [] }
    {
        AscendingIds {
            entries: Vec::new(alloc),
        }
    }

    /// No ids, with room for that many. Returns `Memory` if allocation fails.
    pub fn with_capacity(alloc: Global, count: usize) -> Result<AscendingIds, Memory>
        ensures { IfOk result (λ ids. ids.entries ≡ []) }
    {
        Ok(AscendingIds {
            entries: Vec::with_capacity(alloc, count)?,
        })
    }

    /// The ids of a tree, in order. Returns `Memory` if allocation fails.
    pub fn of_tree(
        alloc: Global,
        tree: BTreeMap<RecordId, Option<Place>>,
    ) -> Result<AscendingIds, Memory>
        ensures { IfOk result (λ ids. ids.entries ≡ tree.entries) }
    {
        let mut entries = Vec::with_capacity(alloc, tree.len())?;
        for entry in tree {
            entries.push(entry)?;
        }
        Ok(AscendingIds { entries })
    }

    /// The same ids in a tree. Returns `Memory` if allocation fails.
    pub fn into_tree(self, alloc: Global) -> Result<BTreeMap<RecordId, Option<Place>>, Memory>
        ensures { IfOk result (λ tree. tree.entries ≡ self.entries) }
    {
        let AscendingIds { entries } = self;
        let mut tree = BTreeMap::new(alloc);
        for (id, place) in entries {
            tree.insert(id, place)?;
        }
        Ok(tree)
    }

    /// The ids, each with the place of its record or none. Takes no memory.
    pub fn entries(&self) -> &[(RecordId, Option<Place>)]
        ensures all { result.now ≡ self.now.entries }
        ensures ordered { IsStrictlySortedBy id_cmp (keys_of self.now.entries) }
    {
        self.entries.as_slice()
    }

    /// Whether the id is greater than all the others. Only the last one is looked at. Takes no memory.
    pub fn is_above(&self, id: &RecordId) -> bool
        ensures { IsTrue result ↔ IsAbove id.now self.now.entries }
    {
        match self.entries.as_slice().last() {
            Some((last, _)) => id.cmp(last).is_gt(),
            None => true,
        }
    }

    /// Appends an id that is greater than all the others. Returns `Memory` if allocation fails.
    pub fn push(&mut self, id: RecordId, place: Option<Place>) -> Result<(), Memory>
        requires { IsAbove id self.old.entries }
        ensures { OnOk result (self.new.entries ≡ self.old.entries ++ (id, place) ∷ []) }
    {
        self.entries.push((id, place))?;
        Ok(())
    }

    /// What stands under the id. Takes no memory.
    pub fn get(&self, id: &RecordId) -> Option<Option<Place>>
        ensures { result ≡ at_id self.now.entries id.now }
    {
        if self.is_above(id) {
            return None;
        }
        search(self.entries.as_slice(), id)
    }
}

/// What stands under the id in entries that are in the order of their ids. Takes no memory.
fn search(entries: &[(RecordId, Option<Place>)], id: &RecordId) -> Option<Option<Place>>
    requires { IsStrictlySortedBy id_cmp (keys_of entries.now) }
    ensures { result ≡ at_id entries.now id.now }
{
    let found = entries.binary_search_by(
        |entry: &(RecordId, Option<Place>)| -> Ordering
            ensures { result ≡ id_cmp entry.now.0 id.entry.now }
        { entry.0.cmp(id) },
    );
    match found {
        Ok(at) => Some(entries[at].1),
        Err(_) => None,
    }
}
