//! The table under a desk: one word, one slot and the seats, with the rule that each step keeps.
//!
//! The types here carry meanings alone. `Law` names the rule (`specs/Rule.antt`), and `Look`, `Claim`, `Release`, `Deal` and
//! `Gather` name what a step reports to the seat that makes it (`specs/Steps.antt`, `specs/Views.antt`). The two exchanges of the
//! machine touch no word, so they need no name.
ghost use Rattle.catalogue_lock.specs.Views.{root_view, spent_view, dealt, dealt_pass, gathered};
ghost use Rattle.catalogue_lock.specs.Rule.{Ruled};
ghost use Rattle.catalogue_lock.specs.Steps.{loads, claims, releases};

use crate::machine::Machine;
use crate::view::View;
use atomic_table::{Join, Play, Seat, Split, Table, TableRule};
use std::alloc::Global;
use std::marker::PhantomData;
use std::snapshot::Snapshot;

/// The rule between any two steps. The table is told the machine with which the desk is opened, whose setting the root takes.
pub struct Law<M> {
    of: PhantomData<M>,
}

impl<M: Machine> TableRule<Option<M>, View<M::Setting, M::Change>, Snapshot<M>> for Law<M> {
    ghost holds = { λ _. Ruled M.setting M.entries };

    ghost first = { λ key. root_view (M.setting key.value) };
}

/// The table.
pub type Board<M> = Table<
    Option<M>,
    View<<M as Machine>::Setting, <M as Machine>::Change>,
    Snapshot<M>,
    Law<M>,
    Global,
>;

/// A seat at the table.
pub type Place<M> = Seat<Option<M>, View<<M as Machine>::Setting, <M as Machine>::Change>>;

/// The load.
pub(crate) struct Look;

impl<M: Machine> Play<Option<M>, View<M::Setting, M::Change>> for Look {
    ghost then = { loads };
}

/// The compare and exchange from an even word to the odd one above it.
pub(crate) struct Claim;

impl<M: Machine> Play<Option<M>, View<M::Setting, M::Change>> for Claim {
    ghost then = { claims M.setting M.entries };
}

/// The fetch_add or fetch_sub that ends a turn. Which of the two it may be is decided by the entries of the machine in hand.
pub(crate) struct Release;

impl<M: Machine> Play<Option<M>, View<M::Setting, M::Change>> for Release {
    ghost then = { releases M.entries };
}

/// A pass is split off the root.
pub(crate) struct Deal;

impl<S, C> Split<View<S, C>> for Deal {
    ghost left = { dealt };

    ghost right = { dealt_pass };
}

/// A pass is joined into the root.
pub(crate) struct Gather<M> {
    of: PhantomData<M>,
}

impl<M: Machine> Join<View<M::Setting, M::Change>> for Gather<M> {
    ghost both = { gathered };

    ghost spent = { spent_view M.spare };
}
