//! The publisher.
ghost use Rattle.std.specs.Prelude.{◌≡◌, ◌<◌, ◌^◌, ◌-◌, ◌++◌, ◌∷◌, [], List, length, IfOk, OnOk, OnErr};
ghost use mathlib.Core.List.{IsPrefix};
ghost use Rattle.snapshot_desk.specs.Counting.{head_of};
ghost use Rattle.catalogue_editions.specs.declared.history_entry.HistoryEntry.{HistoryEntry as Entry};

use crate::board::{Board, Posted, post};
use crate::log::{Add, Head, Law, Look, Nothing, Reached};
use crate::told::Told;
use crate::viewer::Viewer;
use catalogue_core::history_entry::HistoryEntry;
use logbook::Offer;
use std::alloc::Global;
use std::collections::VecDeque;
use std::marker::Model;
use std::sync::{Arc, Wait};
use union_base::memory::Memory;

/// The one publisher of a history. Contracts see its published list, its pending one, and which history it is
/// (`specs/States.antt`). It is not dropped but closed.
pub struct Publisher {
    pub(crate) head: Head,
    pub(crate) reached: Reached,
    pub(crate) count: u64,
    pub(crate) board: Arc<Board, Global>,
    pub(crate) pending: VecDeque<HistoryEntry>,
}

impl Model for Publisher {
    ghost use Rattle.std.specs.Prelude.{◌≡◌, length};
    ghost use Rattle.std.specs.Arc.{arc_value};
    ghost use Rattle.snapshot_desk.specs.Counting.{head_of, numbers_of};
    ghost use Rattle.snapshot_desk.specs.States.{Publishing};

    ghost Value = { Publishing };

    ghost view = { λ p. record { book = p.reached.book; published = p.reached.log; pending = p.pending.items } };

    ghost invariant = { λ p. (p.head ≡ head_of p.reached.book) × (p.count ≡ length p.reached.log) × ((arc_value p.board).tag ≡ numbers_of p.reached.book) };
}

/// Adds the entry to the log, whose entries so far are those that were reached. Nobody else adds to the log, so the first try gets in;
/// a step does not tell that, so it is tried until one does.
fn logged<R: Wait>(
    rt: &R,
    head: &Head,
    count: u64,
    before: &Reached,
    entry: &HistoryEntry,
) -> Reached
    requires head { head.now ≡ head_of before.now.book }
    requires count { count ≡ length before.now.log }
    requires few { count < 2 ^ 64 - 1 }
    ensures book { result.book ≡ before.now.book }
    ensures log { result.log ≡ before.now.log ++ entry.now ∷ [] }
{
    for _ in rt.forever() {
        let mut reached = before.again();
        let mut offer: Offer<HistoryEntry, u64, Law, Nothing> = reached.plain::<
            Nothing,
            HistoryEntry,
            Add,
        >(entry);
        let mut pen = reached.no_pen();
        let found = head.compare_exchange::<Add, Nothing>(
            count,
            count + 1,
            &mut reached,
            &mut offer,
            &mut pen,
        );
        if found == count {
            return reached;
        }
    }
    unreachable!()
}

/// All entries of the log, once there are `count` of them: at once, since nobody else adds to it. `before` has those reached so far.
/// A step names an entry, and a load adds none, so any will do.
fn whole<R: Wait>(
    rt: &R,
    head: &Head,
    count: u64,
    before: &Reached,
    entry: &HistoryEntry,
) -> Reached
    requires head { head.now ≡ head_of before.now.book }
    ensures log { IsPrefix before.now.log result.log }
    ensures count { length result.log ≡ count }
{
    for _ in rt.forever() {
        let mut reached = before.again();
        let mut offer: Offer<HistoryEntry, u64, Law, Nothing> = reached.plain::<
            Nothing,
            HistoryEntry,
            Add,
        >(entry);
        if head.load::<Look, Nothing>(&mut reached, &mut offer) == count {
            return reached;
        }
    }
    unreachable!()
}

impl Publisher {
    /// Appends an entry to those that are pending.
    ///
    /// Returns `Memory` if allocation fails; nothing is changed then.
    pub fn add(&mut self, entry: HistoryEntry) -> Result<(), Memory>
        ensures added { OnOk result (self.new ≡ record
            self.old { pending = self.old.pending ++ entry ∷ [] }) }
        ensures kept { OnErr result (self.new ≡ self.old) }
    {
        self.pending.push_back(entry)?;
        Ok(())
    }

    /// Publishes the first pending entry.
    ///
    /// Returns `Memory` if allocation fails; nothing is changed then.
    fn publish_next<R: Wait>(&mut self, rt: &R) -> Result<(), Memory>
        requires { 0 < length self.old.pending }
        ensures book { self.new.book ≡ self.old.book }
        ensures moved { OnOk result ((next : Entry) × (self.old.pending ≡ next ∷ self.new.pending)
            × (self.new.published ≡ self.old.published ++ next ∷ [])) }
        ensures kept { OnErr result (self.new ≡ self.old) }
    {
        if self.count == u64::MAX {
            return Err(Memory);
        }
        self.board.reserve(1)?;
        let entry = self.pending.pop_front().unwrap();
        let reached = logged(rt, &self.head, self.count, &self.reached, &entry);
        let posted = Posted {
            place: self.count,
            entry,
            reached: reached.again(),
        };
        post(rt, &self.board, posted);
        self.count += 1;
        self.reached = reached;
        Ok(())
    }

    /// Publishes what is pending, one entry after the other, and answers how many entries are published. It waits, in name: no other
    /// call keeps it from its next step.
    ///
    /// Returns `Memory` if allocation fails. The first of the pending entries are published then, maybe none of them, and the rest is
    /// pending.
    pub fn publish<R: Wait>(&mut self, rt: &R) -> Result<u64, Memory>
        ensures book { self.new.book ≡ self.old.book }
        ensures count { IfOk result (λ count. count ≡ length self.new.published) }
        ensures moved { (more : List Entry) × (self.new.published ≡ self.old.published ++ more)
            × (more ++ self.new.pending ≡ self.old.pending) }
        ensures all { OnOk result (self.new.pending ≡ []) }
    {
        while !self.pending.is_empty() {
            self.publish_next(rt)?;
        }
        Ok(self.count)
    }

    /// A note of the published list. Takes no memory.
    pub fn tell(&self) -> Told
        ensures { result ≡ record { book = self.now.book; published = self.now.published } }
    {
        Told {
            count: self.count,
            reached: self.reached.again(),
        }
    }

    /// Ends the publisher and its viewer: what the viewer has seen is a prefix of what was published. What is still pending is dropped.
    /// It waits, in name, as `publish` does.
    pub fn close<R: Wait>(self, rt: &R, viewer: Viewer)
        requires { viewer.book ≡ self.book }
        ensures { IsPrefix viewer.seen self.published }
    {
        let Publisher {
            head,
            reached,
            count,
            board: _,
            pending: _,
        } = self;
        let Viewer {
            reached: seen,
            owed: _,
            board: _,
            catalogue,
        } = viewer;
        if catalogue.turns() == 0 {
            return;
        }
        let mut both = reached.again();
        both.learn(&seen);
        let _all = whole(rt, &head, count, &both, catalogue.entry(0));
    }
}
