//! Where one library's current records were loaded.
//!
//! Cost: a call hashes the control number once. Room is made before a turn, so that no call of the turn takes memory.
ghost use Rattle.std.specs.Prelude.{◌≡◌, ◌<◌, ◌≤◌, ◌+◌, [], None, Some, is_some, OnOk};
ghost use Rattle.turn_plans.specs.Keeping.{batches};
ghost use Rattle.gathered_catalogue.specs.Tables.{row_at, Sets};
ghost use Rattle.gathered_catalogue.specs.Gathering.{GainsLoads};

use catalogue_editions::edition::Edition;
use catalogue_editions::history_entry::HistoryEntry;
use indexmap::IndexMap;
use key_hashing::hashing::Hashing;
use record_homes::place::Place;
use std::alloc::Global;
use std::marker::Model;
use turn_plans::keeping::loaded_at;
use union_base::bytes::Bytes;
use union_base::memory::Memory;

/// The places in the history at which one library's current records were loaded, under their control numbers.
#[derive(Drop)]
pub struct LibraryPlaces {
    rows: IndexMap<Bytes, Place, Hashing>,
}

impl Model for LibraryPlaces {
    ghost use Rattle.std.specs.HashMap.{spare};
    ghost use Rattle.gathered_catalogue.specs.Tables.{Shelf};

    ghost Value = { Shelf };

    ghost view = { λ s. record { rows = s.rows.entries; room = spare s.rows } };
}

impl LibraryPlaces {
    /// No places, in a map that hashes control numbers by these numbers. Takes no memory.
    pub(crate) fn empty(alloc: Global, hashing: Hashing) -> LibraryPlaces
        ensures { result.rows ≡ [] }
    {
        LibraryPlaces {
            rows: IndexMap::with_hasher(alloc, hashing),
        }
    }

    /// Makes room for so many control numbers more. Returns `Memory` if allocation fails.
    pub(crate) fn make_room(&mut self, count: usize) -> Result<(), Memory>
        ensures same { self.new.rows ≡ self.old.rows }
        ensures room { OnOk result (count ≤ self.new.room) }
    {
        self.rows.reserve(count)?;
        Ok(())
    }

    /// Puts the place under the control number, in place of an earlier one, and answers whether there was one. Takes no memory.
    pub(crate) fn put(&mut self, control: Bytes, place: Place) -> bool
        requires { 0 < self.old.room }
        ensures was { result ≡ is_some (row_at self.old.rows control) }
        ensures set { Sets self.old.rows self.new.rows control (Some place) }
        ensures room { self.old.room ≤ self.new.room + 1 }
    {
        match self.rows.insert(control, place) {
            Ok(before) => before.is_some(),
            Err(_) => unreachable!(),
        }
    }

    /// Takes the place under the control number away, and answers whether there was one. Takes no memory.
    pub(crate) fn take(&mut self, control: &Bytes) -> bool
        ensures was { result ≡ is_some (row_at self.old.rows control.now) }
        ensures set { Sets self.old.rows self.new.rows control.now None }
        ensures room { self.old.room ≤ self.new.room }
    {
        self.rows.swap_remove(control).is_some()
    }

    /// Appends the editions that the history loads at the places: one more owner of each. Returns `Memory` if allocation fails.
    pub(crate) fn push_loads(
        &self,
        history: &[HistoryEntry],
        records: &mut Vec<Edition>,
    ) -> Result<(), Memory>
        ensures { OnOk result (GainsLoads (batches history.now) self.now.rows records.old.items
            records.new.items) }
    {
        records.reserve(self.rows.len())?;
        for place in self.rows.values() {
            if let Some(edition) = loaded_at(history, *place) {
                records.push(edition.shared()?)?;
            }
        }
        Ok(())
    }
}
