//! The works of a catalogue.
ghost use Rattle.std.specs.Prelude.{◌≡◌, ◌+◌, ◌<◌, ◌≤◌, [], ◌∷◌, ℕ, List, length, find, OnOk, if◌then◌else◌};
ghost use Rattle.std.specs.Option.{option_copied, option_map};
ghost use Rattle.work_clusters.specs.Works.{is_key, ids_under, key_after, changed};
ghost use Rattle.work_clusters.specs.Works.{some, AreWorks};
ghost use Rattle.work_clusters.specs.Room.{HasRoomForPairs, room_under};
ghost use Rattle.work_clusters.specs.Steps.{TakesOut, PutsIn};

use crate::change::WorkChange;
use crate::work::Work;
use std::alloc::Global;
use std::collections::BTreeMap;
use std::collections::btree_map::Range;
use std::marker::Model;
use std::ops::Bound;
use union_base::bytes::Bytes;
use union_base::copied::Copied;
use union_base::memory::Memory;
use union_base::record_id::RecordId;
use union_base::sequence::Sequence;

/// A finite map from work keys to lists of ids that are not empty. Contracts see its works in the order of their keys, and
/// beside them the room that was made under each key. A row without ids has room alone, and its key counts as absent; the rows
/// that have ids are counted.
#[derive(Drop)]
pub struct Works {
    rows: BTreeMap<Bytes, Work>,
    filled: u64,
}

impl Model for Works {
    ghost use Rattle.work_clusters.specs.Room.{WorkMap};

    ghost Value = { WorkMap };

    ghost use Rattle.work_clusters.specs.Entries.{works_in, room_in, AreCounted};

    ghost view = { λ w. record { works = works_in w.rows.entries; room = room_in w.rows.entries } };

    ghost invariant = { λ w. AreCounted w.rows.entries w.filled };
}

impl Works {
    /// No works. Takes no memory.
    pub fn empty(alloc: Global) -> Works
        ensures { result.works ≡ [] }
    {
        Works {
            rows: BTreeMap::new(alloc),
            filled: 0,
        }
    }

    /// Works are in order: each key stands once, and the keys rise; under each key stands at least one id, each id once, and
    /// the ids rise. Does nothing when it runs: whoever holds works may conclude this by a call.
    pub fn are_in_order(&self)
        ensures { AreWorks self.now.works }
    {
        // What the type keeps is known where a field is read.
        let _filled = self.filled;
    }

    /// The ids under the key, in ascending order: none where the key is absent. Takes no memory.
    pub fn editions_of(&self, key: &Bytes) -> &[RecordId]
        ensures { result.now ≡ ids_under self.now.works key.now }
    {
        match self.rows.get(key) {
            Some(work) => work.ids(),
            None => &[],
        }
    }

    /// How many keys there are. Takes no memory.
    pub fn count(&self) -> u64
        ensures { result ≡ length self.now.works }
    {
        self.filled
    }

    /// The least key that is greater than the given one, or the least of all where none is given. Takes no memory.
    pub fn after(&self, key: Option<&Bytes>) -> Option<&Bytes>
        ensures { option_copied result ≡ key_after self.now.works (option_copied key.entry) }
    {
        let start = match key {
            Some(key) => Bound::Excluded(key),
            None => Bound::Unbounded,
        };
        first_filled(self.rows.range((start, Bound::Unbounded)))
    }

    /// The change in which the gone pairs leave, and then the come pairs enter. Any pairs make a change: a gone pair that is
    /// not there leaves nothing, and a come pair that is there stays. Takes no memory.
    pub fn plan(&self, gone: Vec<(Bytes, RecordId)>, come: Vec<(Bytes, RecordId)>) -> WorkChange
        ensures { result ≡ record { gone = gone.items; come = come.items } }
    {
        WorkChange {
            gone: Sequence::from(gone),
            come: Sequence::from(come),
        }
    }

    /// Makes room for the change's come pairs. Returns `Memory` if allocation fails. The works stay, whatever the answer.
    pub fn make_room(&mut self, alloc: Global, change: &WorkChange) -> Result<(), Memory>
        ensures works { self.new.works ≡ self.old.works }
        ensures room { OnOk result (HasRoomForPairs self.new.room change.now.come) }
    {
        for (key, _) in change.come.as_slice() {
            self.make_place(alloc, key)?;
        }
        Ok(())
    }

    /// Makes room for one id more under the key. The works stay, whatever the answer.
    fn make_place(&mut self, alloc: Global, key: &Bytes) -> Result<(), Memory>
        ensures works { self.new.works ≡ self.old.works }
        ensures room { OnOk result ((q : List ℕ) → room_under self.old.room q +
            (if is_key q key.now then 1 else 0) ≤ room_under self.new.room q) }
    {
        match self.rows.get_mut(key) {
            Some(work) => work.make_room(),
            None => {
                let work = Work::with_room(alloc)?;
                self.rows.insert(key.copied(alloc)?, work)?;
                Ok(())
            }
        }
    }

    /// The gone pairs leave, then the come pairs enter, for which there is room. Takes no memory.
    pub fn install(&mut self, change: WorkChange)
        requires { HasRoomForPairs self.old.room change.come }
        ensures { self.new.works ≡ changed self.old.works change.gone change.come }
    {
        let WorkChange { gone, come } = change;
        self.take_out(gone.as_slice());
        self.put_in(come.into_vec());
        self.drop_empty(gone.as_slice());
    }

    /// The gone pairs leave. Where nothing is, nothing is looked for.
    fn take_out(&mut self, gone: &[(Bytes, RecordId)])
        ensures well { AreWorks self.old.works }
        ensures taken { TakesOut self.old self.new gone.now }
    {
        if self.filled == 0 {
            return;
        }
        for (key, id) in gone {
            self.take_out_one(key, id);
        }
    }

    fn take_out_one(&mut self, key: &Bytes, id: &RecordId)
        ensures { TakesOut self.old self.new ((key.now, id.now) ∷ []) }
    {
        if let Some(work) = self.rows.get_mut(key) {
            if work.leave(id) {
                self.filled -= 1;
            }
        }
    }

    fn put_in(&mut self, come: Vec<(Bytes, RecordId)>)
        requires { HasRoomForPairs self.old.room come.items }
        ensures { PutsIn self.old self.new come.items }
    {
        for (key, id) in come {
            self.put_in_one(&key, id);
        }
    }

    fn put_in_one(&mut self, key: &Bytes, id: RecordId)
        requires { 0 < room_under self.old.room key.now }
        ensures { PutsIn self.old self.new ((key.now, id) ∷ []) }
    {
        // A count of rows is below 2^63, and so is that of those with ids.
        let _rows = self.rows.len();
        if let Some(work) = self.rows.get_mut(key) {
            if work.enter(id) {
                self.filled += 1;
            }
        }
    }

    /// Rows under the pairs' keys that have no ids are given up. The works stay. Where each row has ids, nothing is looked for.
    fn drop_empty(&mut self, gone: &[(Bytes, RecordId)])
        ensures well { AreWorks self.new.works }
        ensures same { self.new.works ≡ self.old.works }
    {
        if self.filled == self.rows.len() as u64 {
            return;
        }
        for (key, _) in gone {
            self.drop_empty_one(key);
        }
    }

    fn drop_empty_one(&mut self, key: &Bytes)
        ensures { self.new.works ≡ self.old.works }
    {
        if let Some(work) = self.rows.get(key) {
            if !work.has_editions() {
                let _dropped = self.rows.remove(key);
            }
        }
    }
}

/// The key of the first of the rows that has ids. Takes no memory.
fn first_filled<'a>(rows: Range<'a, Bytes, Work>) -> Option<&'a Bytes>
    ensures { option_copied result ≡ option_map (λ row. row.0)
        (find (λ row. some row.1.ids) rows.entry) }
{
    let mut rows = rows;
    match rows.find(|(_, work)| work.has_editions()) {
        Some((key, _)) => Some(key),
        None => None,
    }
}
