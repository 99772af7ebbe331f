//! The viewer.
ghost use Rattle.std.specs.Prelude.{◌≡◌, ◌++◌, ◌∷◌, [], length, OnOk, OnErr, IfOk};
ghost use mathlib.Core.List.{IsPrefix};
ghost use Rattle.snapshot_desk.specs.Answering.{IsAnswerOver};
ghost use Rattle.snapshot_desk.specs.Counting.{numbers_of};

use crate::applying::apply_batch;
use crate::board::{Board, Next, posted_at};
use crate::log::Reached;
use crate::told::Told;
use catalogue_core::catalogue::Catalogue;
use catalogue_query::answer::Answer;
use catalogue_query::answering::answer;
use catalogue_query::query::Query;
use std::alloc::Global;
use std::marker::Model;
use std::sync::Arc;
use union_base::memory::Memory;

/// The one viewer of a published history. Contracts see whose it is, the entries over which it answers, and a published list that its
/// next answer is over at least (`specs/States.antt`). It is closed with its publisher.
pub struct Viewer {
    pub(crate) reached: Reached,
    pub(crate) owed: u64,
    pub(crate) board: Arc<Board, Global>,
    pub(crate) catalogue: Catalogue,
}

impl Model for Viewer {
    ghost use Rattle.std.specs.Prelude.{◌≡◌, ◌≤◌, length, take};
    ghost use Rattle.std.specs.Arc.{arc_value};
    ghost use Rattle.std.specs.FinMap.{empty};
    ghost use mathlib.Core.List.{IsPrefix};
    ghost use Rattle.snapshot_desk.specs.Counting.{numbers_of};
    ghost use Rattle.snapshot_desk.specs.States.{Viewing};

    ghost Value = { Viewing };

    ghost view = { λ v. record { book = v.reached.book; seen = v.catalogue.history; learnt = take v.owed v.reached.log } };

    ghost invariant = { λ v. ((arc_value v.board).tag ≡ numbers_of v.reached.book) × IsPrefix v.catalogue.history v.reached.log × (v.owed ≤ length v.reached.log) × (v.catalogue.names ≡ empty) };
}

impl Viewer {
    /// Learns what a note tells: the next answer is over that list at least. The note is of the viewer's own publisher. Takes no memory.
    pub fn learn(&mut self, told: Told)
        requires { told.book ≡ self.old.book }
        ensures kept { (self.new.book ≡ self.old.book) × (self.new.seen ≡ self.old.seen) }
        ensures told { IsPrefix told.published self.new.learnt }
        ensures learnt { IsPrefix self.old.learnt self.new.learnt }
    {
        self.reached.learn(&told.reached);
        if self.owed < told.count {
            self.owed = told.count;
        }
    }

    /// Takes in the entry that comes next. Returns `Memory` if allocation fails; no entry is taken in then.
    fn take_in(&mut self, alloc: Global, next: Next) -> Result<(), Memory>
        requires place { next.place ≡ length self.old.seen }
        requires log { next.reached.book ≡ self.old.book }
        ensures book { self.new.book ≡ self.old.book }
        ensures seen { IsPrefix self.old.seen self.new.seen }
        ensures learnt { IsPrefix self.old.learnt self.new.learnt }
    {
        let Next {
            place: _,
            pass,
            batch,
            reached,
        } = next;
        self.reached.learn(&reached);
        apply_batch(alloc, &mut self.catalogue, pass, batch)?;
        Ok(())
    }

    /// Takes in what is new: the entries that are posted when it begins, and no more, so that a publisher that goes on cannot keep it.
    ///
    /// Returns `Memory` if allocation fails. The first of the new entries may be taken in then.
    fn take_new(&mut self, alloc: Global) -> Result<(), Memory>
        ensures book { self.new.book ≡ self.old.book }
        ensures seen { IsPrefix self.old.seen self.new.seen }
        ensures learnt { IsPrefix self.old.learnt self.new.learnt }
    {
        let posted = self.board.count() as u64;
        for _ in self.catalogue.turns()..posted {
            let place = self.catalogue.turns();
            match posted_at(alloc, &self.board, place)? {
                Some(next) => self.take_in(alloc, next)?,
                None => return Ok(()),
            }
        }
        Ok(())
    }

    /// Takes in the published entries that are new, and answers over how many entries in all it answers, and the answer. Waits for nobody.
    ///
    /// Returns `Memory` if allocation fails. Some of the new entries may be taken in then, and the next call goes on from there.
    pub fn view(&mut self, alloc: Global, query: &Query) -> Result<(u64, Answer), Memory>
        ensures book { self.new.book ≡ self.old.book }
        ensures count { IfOk result (λ told. told.0 ≡ length self.new.seen) }
        ensures answer { IfOk result (λ told. IsAnswerOver self.new.seen query.now told.1) }
        ensures seen { IsPrefix self.old.seen self.new.seen }
        ensures told { OnOk result (IsPrefix self.old.learnt self.new.seen) }
        ensures learnt { IsPrefix self.old.learnt self.new.learnt }
    {
        self.take_new(alloc)?;
        let turns = self.catalogue.turns();
        if turns < self.owed {
            return Err(Memory);
        }
        let told = answer(alloc, &self.catalogue, query)?;
        Ok((turns, told))
    }
}
