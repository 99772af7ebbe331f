//! The names that were opened at a shelf, each with its count of faults. A look-up takes time by the logarithm of their
//! number.
ghost use Rattle.std.specs.Prelude.{◌≡◌, ◌<◌, ◌≤◌, IsTrue, OnOk, OnErr, [], List, ℕ};
ghost use Rattle.union_io.specs.Causes.{next_count};
ghost use Rattle.union_io.specs.Counts.{SameCounts, SameElsewhere};
ghost use Rattle.union_io.specs.Names.{is_among, AddsName};
ghost use Rattle.union_io.specs.Opened.{names_in, count_in};

use std::alloc::Global;
use std::collections::BTreeMap;
use std::marker::Model;
use union_base::bytes::Bytes;
use union_base::memory::Memory;

/// Contracts see it as the list of the names with their counts.
#[derive(Drop)]
pub struct OpenedNames {
    counts: BTreeMap<Bytes, u64>,
}

impl Model for OpenedNames {
    ghost use Rattle.std.specs.Prelude.{List, ℕ};

    ghost Value = { List (List ℕ × ℕ) };

    ghost view = { λ names. names.counts.entries };
}

impl OpenedNames {
    /// No names.
    pub fn new(alloc: Global) -> OpenedNames
        ensures { result ≡ [] }
    {
        OpenedNames {
            counts: BTreeMap::new(alloc),
        }
    }

    /// Adds a name, with no fault where it is new.
    pub fn add(&mut self, name: Bytes) -> Result<(), Memory>
        ensures names { OnOk result (AddsName (names_in self.old) (names_in self.new) name) }
        ensures counts { SameCounts (count_in self.old) (count_in self.new) }
        ensures err { OnErr result (self.new ≡ self.old) }
    {
        if !self.counts.contains_key(&name) {
            self.counts.insert(name, 0)?;
        }
        Ok(())
    }

    /// Counts one fault more of a name that was opened. Takes no memory.
    pub fn count_fault(&mut self, name: &Bytes)
        requires { IsTrue (is_among name.now (names_in self.old)) }
        ensures names { names_in self.new ≡ names_in self.old }
        ensures raised { count_in self.new name.now ≡ next_count (count_in self.old name.now) }
        ensures later { count_in self.old name.now ≤ count_in self.new name.now }
        ensures others { SameElsewhere (count_in self.old) (count_in self.new) name.now }
    {
        if let Some(count) = self.counts.get_mut(name) {
            *count = count.saturating_add(1);
        }
    }

    /// Takes back what was opened under the name, and counts one fault more of it if it had any. Takes no memory.
    pub fn take_back(&mut self, name: &Bytes, faults: u64)
        requires { IsTrue (is_among name.now (names_in self.old)) }
        ensures names { names_in self.new ≡ names_in self.old }
        ensures raised { 0 < faults → count_in self.new name.now
            ≡ next_count (count_in self.old name.now) }
        ensures calm { faults ≡ 0 → self.new ≡ self.old }
        ensures later { count_in self.old name.now ≤ count_in self.new name.now }
        ensures others { SameElsewhere (count_in self.old) (count_in self.new) name.now }
    {
        if faults > 0 {
            self.count_fault(name);
        }
    }
}
