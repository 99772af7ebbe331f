//! The homes of one library's records.
ghost use Rattle.std.specs.Prelude.{◌≡◌, [], None, Some, is_some, unwrap_or, not, IfOk, OnOk, OnErr};
ghost use Rattle.std.specs.Option.{option_map};
ghost use Rattle.record_homes.specs.Maps.{moved_to};
ghost use Rattle.record_homes.specs.Libraries.{row_at, Sets};

use crate::home::Home;
use crate::move_to::MoveTo;
use indexmap::IndexMap;
use indexmap::map::Entry;
use key_hashing::hashing::Hashing;
use std::alloc::Global;
use std::marker::Model;
use union_base::bytes::Bytes;
use union_base::memory::Memory;

/// The homes of one library's records, under their control numbers.
#[derive(Drop)]
pub struct LibraryHomes {
    rows: IndexMap<Bytes, Home, Hashing>,
}

impl Model for LibraryHomes {
    ghost use Rattle.record_homes.specs.Libraries.{Rows};

    ghost Value = { Rows };

    ghost view = { λ s. s.rows.entries };
}

impl LibraryHomes {
    /// No homes, in a map that hashes control numbers by these numbers. Takes no memory.
    pub(crate) fn empty(alloc: Global, hashing: Hashing) -> LibraryHomes
        ensures { result ≡ [] }
    {
        LibraryHomes {
            rows: IndexMap::with_hasher(alloc, hashing),
        }
    }

    /// The home under the control number: None exactly where there is none. Takes no memory.
    pub(crate) fn get(&self, control: &Bytes) -> Option<Home>
        ensures { result ≡ row_at self.now control.now }
    {
        match self.rows.get(control) {
            Some(home) => Some(*home),
            None => None,
        }
    }

    /// Puts a home under the control number if there is none, and answers whether there was none. Returns `Memory` if allocation
    /// fails; all is as before then.
    pub(crate) fn put(&mut self, control: Bytes, home: Home) -> Result<bool, Memory>
        ensures new { IfOk result (λ new. new ≡ not (is_some (row_at self.old control))) }
        ensures set { OnOk result (Sets self.old self.new control
            (Some (unwrap_or (row_at self.old control) home))) }
        ensures kept { OnErr result (self.new ≡ self.old) }
    {
        match self.rows.entry(control)? {
            Entry::Occupied(_) => Ok(false),
            Entry::Vacant(entry) => {
                entry.insert(home);
                Ok(true)
            }
        }
    }

    /// Takes the home under the control number away, and answers whether there was one. Takes no memory.
    pub(crate) fn take(&mut self, control: &Bytes) -> bool
        ensures was { result ≡ is_some (row_at self.old control.now) }
        ensures set { Sets self.old self.new control.now None }
    {
        self.rows.swap_remove(control).is_some()
    }

    /// Moves the home under the control number, where there is one. Takes no memory.
    pub(crate) fn change(&mut self, control: &Bytes, to: MoveTo)
        ensures { Sets self.old self.new control.now
            (option_map (moved_to to) (row_at self.old control.now)) }
    {
        if let Some(home) = self.rows.get_mut(control) {
            *home = to.of(*home);
        }
    }
}
