//! The parts of a call that take the turn, use the machine and give the turn up.
ghost use Rattle.std.specs.Prelude.{◌≡◌, IfOk, OnErr};
ghost use Rattle.catalogue_lock.specs.Steps.{Rests, Works, Waited};
ghost use Rattle.catalogue_lock.specs.Calls.{IsTurn, IsRefused, IsAnswer};

use super::{Desk, Turned};
use crate::board::Place;
use crate::machine::Machine;
use std::alloc::Global;
use std::hint::spin_loop;
use std::sync::Wait;
use union_base::memory::Memory;

/// Looks in vain before a waiting call sleeps. A turn may be shorter than it takes to sleep and wake.
const SPINS: u64 = 16;

impl<M: Machine> Desk<M> {
    /// Takes the turn. It tries again until it has it, and sleeps while another pass has it.
    pub(crate) fn win<R: Wait>(&self, rt: &R, place: &mut Place<M>)
        requires desk { place.old.table_id ≡ self.now.board.shared.table_id }
        requires rests { Rests place.old.me }
        ensures desk { place.new.table_id ≡ place.old.table_id }
        ensures waited { Waited place.old.me.0 place.new.me.0 }
        ensures works { (x : M) × Works M.setting M.entries place.new.me x }
    {
        let mut looks: u64 = 0;
        let mut slept = false;
        for _ in rt.forever() {
            let loaded = self.look(place);
            if loaded % 2 == 0 && self.claim(place, loaded) == loaded {
                if slept {
                    self.bell.announce();
                }
                return;
            }
            if looks < SPINS {
                spin_loop();
                looks += 1;
            } else {
                self.wait_for_end(rt, place);
                looks = 0;
                slept = true;
            }
        }
        unreachable!()
    }

    /// Sleeps while the turn is held, until it ends. It may end sooner.
    fn wait_for_end<R: Wait>(&self, rt: &R, place: &mut Place<M>)
        requires desk { place.old.table_id ≡ self.now.board.shared.table_id }
        requires rests { Rests place.old.me }
        ensures desk { place.new.table_id ≡ place.old.table_id }
        ensures rests { Rests place.new.me }
        ensures waited { Waited place.old.me.0 place.new.me.0 }
    {
        self.bell.announce();
        if self.look(place) % 2 == 1 {
            self.bell.sleep(rt);
        }
    }

    /// Applies the change in the turn that the pass holds, and ends the turn.
    pub(crate) fn run(
        &self,
        alloc: Global,
        place: &mut Place<M>,
        number: u32,
        change: M::Change,
    ) -> Result<Turned<M::Outcome>, Memory>
        requires desk { place.old.table_id ≡ self.now.board.shared.table_id }
        requires works { (x : M) × Works M.setting M.entries place.old.me x }
        requires number { number ≡ place.old.me.0.number }
        ensures desk { place.new.table_id ≡ place.old.table_id }
        ensures rests { Rests place.new.me }
        ensures kept { (place.new.me.0.number ≡ place.old.me.0.number)
            × (place.new.me.0.setting ≡ place.old.me.0.setting)
            × (place.new.me.0.looks ≡ place.old.me.0.looks)
            × (place.new.me.0.tries ≡ place.old.me.0.tries) }
        ensures ok { IfOk result (λ t. IsTurn M.yields place.old.me.0 place.new.me.0 change t.turn
            t.outcome) }
        ensures memory { OnErr result (IsRefused place.old.me.0 place.new.me.0) }
    {
        let mut machine = self.take_out(place);
        match machine.apply(alloc, number, change) {
            Ok(outcome) => {
                let turn = machine.turns();
                self.put_back(place, machine);
                self.finish(place);
                self.bell.ring();
                Ok(Turned { turn, outcome })
            }
            Err(refused) => {
                self.put_back(place, machine);
                self.cancel(place);
                self.bell.ring();
                Err(refused)
            }
        }
    }

    /// Asks the question in the turn that the pass holds, and ends the turn.
    pub(crate) fn reply(
        &self,
        alloc: Global,
        place: &mut Place<M>,
        question: &M::Question,
    ) -> Result<(u64, M::Answer), Memory>
        requires desk { place.old.table_id ≡ self.now.board.shared.table_id }
        requires works { (x : M) × Works M.setting M.entries place.old.me x }
        ensures desk { place.new.table_id ≡ place.old.table_id }
        ensures rests { Rests place.new.me }
        ensures kept { (place.new.me.0.number ≡ place.old.me.0.number)
            × (place.new.me.0.setting ≡ place.old.me.0.setting) }
        ensures ok { IfOk result (λ r. IsAnswer M.answers place.old.me.0 place.new.me.0 question.now
            r.0 r.1) }
        ensures memory { OnErr result (IsRefused place.old.me.0 place.new.me.0) }
    {
        let machine = self.take_out(place);
        let turns = machine.turns();
        let answer = machine.ask(alloc, question);
        self.put_back(place, machine);
        self.cancel(place);
        self.bell.ring();
        Ok((turns, answer?))
    }
}
