//! A work as it is kept.
ghost use Rattle.std.specs.Prelude.{◌≡◌, ◌+◌, ◌<◌, ◌≤◌, ◌&&◌, not, true, [], filter, OnOk, IfOk};
ghost use Rattle.std.specs.Ordering.{eq_by_cmp};
ghost use Rattle.union_base.specs.SortedLists.{is_ascending, put};
ghost use Rattle.union_base.specs.RecordIds.{id_cmp};
ghost use Rattle.work_clusters.specs.Works.{some};

use crate::ids::{enter, leave};
use std::alloc::Global;
use std::marker::Model;
use union_base::memory::Memory;
use union_base::record_id::RecordId;

/// The ids of a work's editions in ascending order, each once, and how many more are sure to find room.
#[derive(Drop)]
pub(crate) struct Work {
    editions: Vec<RecordId>,
    room: usize,
}

impl Model for Work {
    ghost use Rattle.std.specs.Prelude.{◌≡◌, ◌+◌, ◌≤◌, true, length, vec_capacity};
    ghost use Rattle.union_base.specs.SortedLists.{is_ascending};
    ghost use Rattle.union_base.specs.RecordIds.{id_cmp};
    ghost use Rattle.work_clusters.specs.Entries.{Kept};

    ghost Value = { Kept };

    ghost view = { λ w. record { ids = w.editions.items; room = w.room } };

    ghost invariant = { λ w. (is_ascending id_cmp w.editions.items ≡ true) × (length w.editions.items + w.room ≤ vec_capacity w.editions) };
}

impl Work {
    /// No ids, with room for one.
    pub(crate) fn with_room(alloc: Global) -> Result<Work, Memory>
        ensures { IfOk result (λ work. work ≡ record { ids = []; room = 1 }) }
    {
        let editions = Vec::with_capacity(alloc, 1)?;
        Ok(Work { editions, room: 1 })
    }

    /// The ids. Takes no memory.
    pub(crate) fn ids(&self) -> &[RecordId]
        ensures { result.now ≡ self.now.ids }
    {
        self.editions.as_slice()
    }

    /// Whether there are ids. Takes no memory.
    pub(crate) fn has_editions(&self) -> bool
        ensures { result ≡ some self.now.ids }
    {
        !self.editions.is_empty()
    }

    /// Makes room for one id more. Returns `Memory` if allocation fails, and then all stays.
    pub(crate) fn make_room(&mut self) -> Result<(), Memory>
        ensures ids { self.new.ids ≡ self.old.ids }
        ensures ascending { is_ascending id_cmp self.new.ids ≡ true }
        ensures kept { self.old.room ≤ self.new.room }
        ensures room { OnOk result (self.new.room ≡ self.old.room + 1) }
    {
        self.editions.reserve(self.room + 1)?;
        self.room += 1;
        Ok(())
    }

    /// Puts the id in, unless it stands there already, and answers whether it is the first. It takes a place of the room,
    /// and no memory.
    pub(crate) fn enter(&mut self, id: RecordId) -> bool
        requires { 0 < self.old.room }
        ensures first { result ≡ not (some self.old.ids) }
        ensures ids { self.new.ids ≡ put id_cmp id self.old.ids }
        ensures ascending { is_ascending id_cmp self.new.ids ≡ true }
        ensures room { self.new.room + 1 ≡ self.old.room }
    {
        let first = self.editions.is_empty();
        enter(&mut self.editions, id);
        self.room -= 1;
        first
    }

    /// Takes the id out, where it stands there, and answers whether the last one left. Takes no memory.
    pub(crate) fn leave(&mut self, id: &RecordId) -> bool
        ensures last { result ≡ (some self.old.ids && not (some self.new.ids)) }
        ensures ids { self.new.ids ≡ filter (λ other. not (eq_by_cmp id_cmp id.now other))
            self.old.ids }
        ensures ascending { is_ascending id_cmp self.new.ids ≡ true }
        ensures room { self.new.room ≡ self.old.room }
    {
        let had = self.has_editions();
        leave(&mut self.editions, id);
        had && self.editions.is_empty()
    }
}
