//! A desk is opened, its passes are made and ended, and it is closed.
ghost use Rattle.std.specs.Prelude.{◌≡◌, ◌-◌, ◌<◌, ◌≤◌, ℕ, [], length, IfOk, All, Any};
ghost use Rattle.catalogue_lock.specs.History.{changes_of};
ghost use Rattle.catalogue_lock.specs.Ended.{Ended};
ghost use Rattle.catalogue_lock.specs.Views.{root_view, dealt, dealt_pass, gathered};
ghost use Rattle.catalogue_lock.specs.Rule.{EndedOk};

use super::Desk;
use super::bell::Bell;
use crate::board::{Deal, Gather};
use crate::machine::Machine;
use crate::pass::Pass;
use crate::root::Root;
use atomic_table::{Refused, Table};
use std::alloc::Global;
use std::snapshot::Snapshot;
use union_base::memory::Memory;

impl<M: Machine> Desk<M> {
    ghost use Rattle.catalogue_lock.specs.Tokens.{view, root_of, IsPassOf, IsRootOf};

    /// A desk for a machine that has no entries, with its root, which has made no pass and has the machine's setting.
    ///
    /// # Errors
    ///
    /// `Memory`: there was none for the word and the slot. The machine is dropped.
    pub fn open(alloc: Global, machine: M) -> Result<(Desk<M>, Root<M>), Memory>
        requires { M.entries machine ≡ [] }
        ensures desk { IfOk result (λ r. IsRootOf r.1 r.0) }
        ensures root { IfOk result (λ r. root_of r.1 ≡ root_view (M.setting machine)) }
    {
        let about = Snapshot::of(&machine);
        let mut slots = Vec::with_capacity(alloc, 1)?;
        slots.push(Some(machine))?;
        match Table::new(alloc, &[0], slots, &about) {
            Ok((board, place)) => Ok((
                Desk {
                    board,
                    bell: Bell::new(),
                },
                Root {
                    made: 0,
                    ended: 0,
                    place,
                },
            )),
            Err(Refused { slots: _ }) => Err(Memory),
        }
    }

    /// A new pass. Its number is the old `made()`, it has no entries, and its setting and floor are the root's: it knows at
    /// least as many turns to be finished as each pass that was ended at this root. Takes no memory.
    pub fn make_pass(&self, root: &mut Root<M>) -> Pass<M>
        requires desk { IsRootOf root.old self.now }
        requires few { (root_of root.old).made < 4294967295 }
        ensures desk { IsRootOf root.new self.now }
        ensures root { root_of root.new ≡ dealt (root_of root.old) }
        ensures pass_desk { IsPassOf result self.now }
        ensures pass { view result ≡ dealt_pass (root_of root.old) }
    {
        let number = root.made;
        let place = self.board.shared.split_seat::<Deal>(&mut root.place);
        root.made += 1;
        Pass { number, place }
    }

    /// Ends a pass. The root keeps its number, its own list and the beginning of the history that it has seen. Takes no
    /// memory.
    pub fn end_pass(&self, root: &mut Root<M>, pass: Pass<M>)
        requires desk { IsRootOf root.old self.now }
        requires pass_desk { IsPassOf pass self.now }
        ensures desk { IsRootOf root.new self.now }
        ensures root { root_of root.new ≡ gathered (root_of root.old) (view pass) }
    {
        let Pass { number: _, place } = pass;
        self.board
            .shared
            .join_seat::<Gather<M>>(&mut root.place, place);
        root.ended = root.ended.saturating_add(1);
    }

    /// The machine, once no pass is out. Takes no memory.
    ///
    /// It has the root's setting. Under each number below `made()` its entries are the list that the ended pass of this
    /// number left, there are no others, and what each ended pass had seen is a beginning of them.
    pub fn close(self, root: Root<M>) -> M
        requires desk { IsRootOf root self }
        requires out { (root_of root).made - length (root_of root).ended ≡ 0 }
        ensures setting { M.setting result ≡ (root_of root).setting }
        ensures ended { All (EndedOk (M.entries result)) (root_of root).ended }
        ensures numbers { (n : ℕ) → n < (root_of root).made
            → Any (λ (e : Ended M.Change). e.number ≡ n) (root_of root).ended }
        ensures no_other { All (λ (e : ℕ × M.Change). e.0 < (root_of root).made)
            (M.entries result) }
    {
        let Root {
            made: _,
            ended: _,
            place,
        } = root;
        let Desk { board, bell: _ } = self;
        let mut closed = board.close_with(place);
        let machine = closed.take(0);
        closed.free();
        machine.unwrap()
    }
}

impl<M: Machine> Root<M> {
    ghost use Rattle.catalogue_lock.specs.Tokens.{root_of};

    /// How many passes were made. Takes no memory.
    pub fn made(&self) -> u32
        ensures { result ≡ (root_of self.now).made }
    {
        self.made
    }

    /// How many of them were not ended yet. Takes no memory.
    pub fn out(&self) -> u32
        ensures { result ≡ (root_of self.now).made - length (root_of self.now).ended }
    {
        self.made.saturating_sub(self.ended)
    }
}

impl<M: Machine> Pass<M> {
    ghost use Rattle.catalogue_lock.specs.Tokens.{view};

    /// The number of the pass, which no other pass of the desk has. Takes no memory.
    ///
    /// Its own changes are those that it has seen under its number, and it knows the turns that it has seen to be finished.
    pub fn number(&self) -> u32
        ensures number { result ≡ (view self.now).number }
        ensures own { changes_of (view self.now).number (view self.now).seen ≡ (view self.now).own }
        ensures floor { length (view self.now).seen ≤ (view self.now).floor }
    {
        self.number
    }
}
