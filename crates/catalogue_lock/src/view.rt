//! What a seat at the desk knows.
ghost use Rattle.std.specs.Prelude.{ℕ, List, Bool};
ghost use Rattle.std.specs.Borrow.{ftrue};
ghost use Rattle.catalogue_lock.specs.Ended.{Role, Ended};

use std::marker::{Model, PhantomData};

/// What a seat knows. No value of it is made: contracts read it, and it has no part in a program.
pub struct View<S, C> {
    pub of: PhantomData<(S, C)>,
    /// Whether it is the root's seat, a pass's, or one that was joined into the root's.
    pub ghost role: { Role },
    /// The setting of the machine with which the desk was opened.
    pub ghost setting: { S },
    /// Of the root: how many passes were made.
    pub ghost made: { ℕ },
    /// Of the root: what each ended pass left, in the order in which they were ended.
    pub ghost ended: { List (Ended C) },
    /// At least this many turns are finished.
    pub ghost floor: { ℕ },
    /// Of a pass, as all that follows: its number.
    pub ghost number: { ℕ },
    /// The changes that it has made, in order.
    pub ghost own: { List C },
    /// A beginning of the history, which it has seen.
    pub ghost seen: { List (ℕ × C) },
    /// It holds the turn.
    pub ghost holds: { Bool },
    /// While it holds the turn: the history as it found it.
    pub ghost base: { List (ℕ × C) },
    /// The word that its last load read.
    pub ghost loaded: { ℕ },
    /// The word that its last compare and exchange read.
    pub ghost found: { ℕ },
    /// How many loads it has made.
    pub ghost looks: { ℕ },
    /// How many compares and exchanges it has made.
    pub ghost tries: { ℕ },
}

impl<S, C> Model for View<S, C> {
    // It owns nothing.
    ghost also_owns = { λ _. ftrue };
}
