//! The log of the published entries.
//!
//! The types here carry meanings alone. `Law` names the rule of the log, and the others what a step on its word asks and reports.
use catalogue_core::history_entry::HistoryEntry;
use logbook::{Gain, Plain, Play, Rule, Seen, Word};

/// The rule of the log: its word counts its entries.
pub struct Law;

impl Rule<HistoryEntry, u64> for Law {
    ghost use Rattle.std.specs.Prelude.{[]};
    ghost use base.Fml.{ftrue};
    ghost use Rattle.snapshot_desk.specs.Counting.{IsCounted};

    ghost holds = { λ cells log. IsCounted cells log };

    ghost first = { [] };

    ghost hinted = { λ n log. Unit {0} };

    ghost shows = { λ log. [] };

    ghost keeps = { λ names log. ftrue };

    ghost moves = { λ ask before after answer. Unit {0} };
}

/// The word that counts the entries.
pub type Head = Word<HistoryEntry, u64, Law>;

/// A list of entries that the log has reached. It has no bytes.
pub type Reached = Seen<HistoryEntry, u64, Law>;

/// A step trades nothing.
pub struct Nothing;

impl Gain<HistoryEntry, u64> for Nothing {
    ghost use base.Fml.{ftrue};

    ghost after = { λ names about answer. ftrue };
}

/// The load.
pub struct Look;

impl Play<HistoryEntry, u64> for Look {
    ghost use Rattle.snapshot_desk.specs.Counting.{Looks};

    ghost then = { Looks };
}

/// The compare and exchange that adds an entry.
pub struct Add;

impl Play<HistoryEntry, u64> for Add {
    ghost use Rattle.snapshot_desk.specs.Counting.{Adds};

    ghost then = { Adds };
}

/// What a step asks for: the entry.
impl Plain<HistoryEntry, HistoryEntry, u64> for Add {
    ghost use Rattle.std.specs.Prelude.{None};

    ghost ask = { λ entry. entry };

    ghost state = { λ entry. None };
}
