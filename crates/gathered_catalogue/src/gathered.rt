//! The gathered catalogue: what a union catalogue is while nobody asks.
//!
//! Its history and its table of names are those of `Catalogue` of catalogue_core, and a batch has the same outcomes. But a turn
//! resolves nothing: it notes where each current record was loaded, and the editions are made from all current records at
//! once, when they are asked for.
//!
//! Cost: a turn hashes the control number of each of its operations once, whatever the size of the catalogue, and makes no match
//! tests.
ghost use Rattle.std.specs.Prelude.{◌≡◌, ◌≤◌, ◌<◌, ◌^◌, ◌++◌, ◌∷◌, [], Some, length, slice_get, IfOk, OnOk, OnErr};
ghost use Rattle.turn_plans.specs.Histories.{current, outcomes, AreEditionsOf};
ghost use Rattle.catalogue_core.specs.Catalogues.{by_names};

use crate::following::{control_numbers, follow_batch, make_room};
use crate::gathering::{current_records, resolved_in_order};
use crate::library_places::LibraryPlaces;
use crate::resolved::Resolved;
use crate::standing::standing_of;
use authority_names::name_table::NameTable;
use catalogue_core::catalogue::Catalogue;
use catalogue_editions::batch::Batch;
use catalogue_editions::edition::Edition;
use catalogue_editions::history_entry::HistoryEntry;
use catalogue_editions::outcome::Outcome;
use std::alloc::Global;
use std::collections::BTreeMap;
use std::marker::{Brand, Model};
use std::sync::ledger::Blank;
use std::thread::Threads;
use union_base::library_code::LibraryCode;
use union_base::memory::Memory;

/// A union catalogue whose editions are made once they are asked for. Contracts see it as its history and its table of names.
pub struct Gathered {
    history: Vec<HistoryEntry>,
    libraries: BTreeMap<LibraryCode, LibraryPlaces>,
    names: NameTable,
}

/// A drop of its own, as that of `Bytes`.
impl Drop for Gathered {
    fn drop(self) {
        let Gathered {
            history: _,
            libraries: _,
            names: _,
        } = self;
    }
}

impl Model for Gathered {
    ghost use Rattle.catalogue_core.specs.Catalogues.{CatalogueValue, catalogue_code};

    ghost Value = { CatalogueValue };

    ghost coded = { catalogue_code };

    ghost use Rattle.gathered_catalogue.specs.Following.{AreCurrent};

    ghost view = { λ g. record { history = g.history.items; names = g.names } };

    ghost invariant = { λ g. AreCurrent g.history.items g.libraries.entries };
}

impl Gathered {
    /// A catalogue without history, with this table of names, whose maps hash keys by the numbers of the table. Takes no memory.
    pub fn with_names(alloc: Global, names: NameTable) -> Gathered
        ensures { result ≡ by_names names }
    {
        Gathered {
            history: Vec::new(alloc),
            libraries: BTreeMap::new(alloc),
            names,
        }
    }

    /// Appends a batch under that number to the history, and answers what came of each of its operations.
    ///
    /// Returns `Memory` if allocation fails; the catalogue is as before then.
    pub fn apply(
        &mut self,
        alloc: Global,
        number: u32,
        batch: Batch,
    ) -> Result<Vec<Outcome>, Memory>
        ensures appended { OnOk result (self.new.history ≡ self.old.history
            ++ record { pass = number; batch = batch } ∷ []) }
        ensures names { self.new.names ≡ self.old.names }
        ensures outcomes { IfOk result (λ found. found.items
            ≡ outcomes batch.library (current self.old.history) batch.ops) }
        ensures kept { OnErr result (self.new ≡ self.old) }
    {
        let ops = batch.ops.as_slice();
        let controls = control_numbers(alloc, ops)?;
        let outcomes = Vec::with_capacity(alloc, ops.len())?;
        self.history.reserve(1)?;
        make_room(
            alloc,
            self.names.hashing(),
            &mut self.libraries,
            &batch.library,
            controls.len(),
        )?;
        let found = follow_batch(
            &mut self.libraries,
            self.history.as_slice(),
            &batch,
            controls,
            outcomes,
        );
        self.history.push_reserved(HistoryEntry {
            pass: number,
            batch,
        });
        Ok(found)
    }

    /// The table of names by which work keys are made. Takes no memory.
    pub fn names(&self) -> &NameTable
        ensures { result.now ≡ self.now.names }
    {
        &self.names
    }

    /// How many turns the history has. Takes no memory.
    pub fn turns(&self) -> u64
        ensures value { result ≡ length self.now.history }
        ensures few { result < 2 ^ 63 }
    {
        self.history.len() as u64
    }

    /// The entry of that turn, counted from 0. Takes no memory.
    pub fn entry(&self, turn: u64) -> &HistoryEntry
        requires { turn < length self.now.history }
        ensures { slice_get self.now.history turn ≡ Some result.now }
    {
        &self.history[turn as usize]
    }

    /// The editions in order of their least contributors. The current records are resolved among themselves by 1 to 64 workers,
    /// each in a thread of its own where one can be made. One worker makes no thread.
    ///
    /// Returns `Memory` if allocation fails.
    pub fn editions<R: Threads + Sync>(
        &self,
        rt: &R,
        alloc: Global,
        workers: u32,
    ) -> Result<Vec<Edition>, Memory>
        requires some { 1 ≤ workers }
        requires most { workers ≤ 64 }
        ensures { IfOk result (λ editions. AreEditionsOf self.now.history editions.items) }
    {
        let records = current_records(alloc, self.history.as_slice(), &self.libraries)?;
        resolved_in_order(rt, self.names.hashing(), records, workers)
    }

    /// The catalogue, resolved. Returns `Memory` if allocation fails.
    ///
    /// The places of the records are given up first, so that their memory serves the resolving.
    pub fn into_resolved<R: Threads + Sync>(
        self,
        rt: &R,
        alloc: Global,
        workers: u32,
    ) -> Result<Resolved, Memory>
        requires some { 1 ≤ workers }
        requires most { workers ≤ 64 }
        ensures { IfOk result (λ resolved. resolved ≡ self) }
    {
        let Gathered {
            history,
            libraries,
            names,
        } = self;
        let records = current_records(alloc, history.as_slice(), &libraries)?;
        drop(libraries);
        let editions = resolved_in_order(rt, names.hashing(), records, workers)?;
        Ok(Resolved::of(history, editions, names))
    }

    /// A standing catalogue of the same history and the same names: each batch is applied to it anew.
    ///
    /// Returns `Memory` if allocation fails.
    pub fn standing(&self, alloc: Global) -> Result<Catalogue, Memory>
        ensures { IfOk result (λ catalogue. catalogue ≡ self.now) }
    {
        standing_of::<Brand>(alloc, self.history.as_slice(), &self.names, Blank::new(1))
    }
}
