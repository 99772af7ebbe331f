//! A catalogue whose records were resolved once.
ghost use Rattle.std.specs.Prelude.{◌≡◌, ◌<◌, ◌^◌, Some, length, slice_get};
ghost use Rattle.turn_plans.specs.Histories.{AreEditionsOf};

use authority_names::name_table::NameTable;
use catalogue_editions::edition::Edition;
use catalogue_editions::history_entry::HistoryEntry;
use std::marker::Model;

/// A catalogue that takes no batch any more: its history, the editions to which its current records resolve, in order of their least
/// contributors, and its table of names. Contracts see the history and the names, by which the editions are determined.
pub struct Resolved {
    history: Vec<HistoryEntry>,
    editions: Vec<Edition>,
    names: NameTable,
}

/// Written by hand: a derived drop is proved again at every exit.
impl Drop for Resolved {
    fn drop(self) {
        let Resolved {
            history: _,
            editions: _,
            names: _,
        } = self;
    }
}

impl Model for Resolved {
    ghost use Rattle.catalogue_core.specs.Catalogues.{CatalogueValue, catalogue_code};

    ghost Value = { CatalogueValue };

    ghost coded = { catalogue_code };

    ghost use Rattle.turn_plans.specs.Histories.{AreEditionsOf};

    ghost view = { λ r. record { history = r.history.items; names = r.names } };

    ghost invariant = { λ r. AreEditionsOf r.history.items r.editions.items };
}

impl Resolved {
    /// The catalogue of this history and these names, with its editions. Takes no memory.
    pub(crate) fn of(
        history: Vec<HistoryEntry>,
        editions: Vec<Edition>,
        names: NameTable,
    ) -> Resolved
        requires { AreEditionsOf history.items editions.items }
        ensures { result ≡ record { history = history.items; names = names } }
    {
        Resolved {
            history,
            editions,
            names,
        }
    }

    /// The editions in order of their least contributors. Takes no memory.
    pub fn editions(&self) -> &[Edition]
        ensures { AreEditionsOf self.now.history result.now }
    {
        self.editions.as_slice()
    }

    /// The table of names. Takes no memory.
    pub fn names(&self) -> &NameTable
        ensures { result.now ≡ self.now.names }
    {
        &self.names
    }

    /// How many turns the history has. Takes no memory.
    pub fn turns(&self) -> u64
        ensures value { result ≡ length self.now.history }
        ensures few { result < 2 ^ 63 }
    {
        self.history.len() as u64
    }

    /// The entry of that turn, counted from 0. Takes no memory.
    pub fn entry(&self, turn: u64) -> &HistoryEntry
        requires { turn < length self.now.history }
        ensures { slice_get self.now.history turn ≡ Some result.now }
    {
        &self.history[turn as usize]
    }
}
