//! What a pass calls at its desk.
ghost use Rattle.std.specs.Prelude.{◌≡◌, ◌+◌, ◌/◌, ◌≤◌, IfOk, OnErr, MatchResult};
ghost use Rattle.catalogue_lock.specs.Views.{looked};
ghost use Rattle.catalogue_lock.specs.Calls.{IsTurn, IsRefused, IsAnswer, IsRefusal};

use super::{Desk, TryRefusal, Turned};
use crate::machine::Machine;
use crate::pass::Pass;
use std::alloc::Global;
use std::sync::Wait;
use union_base::memory::Memory;

impl<M: Machine> Desk<M> {
    ghost use Rattle.catalogue_lock.specs.Tokens.{view, IsPassOf, IsSamePass};

    /// Waits for the turn, and applies the change in it.
    ///
    /// The change becomes the last entry of the history, and what this pass had seen stands before it. The outcome is the
    /// machine's for its setting and exactly the entries before. The turn's number is above the pass's floor, so a turn that
    /// the pass knew to be finished comes first.
    ///
    /// # Errors
    ///
    /// `Memory`: the machine found none. No entry is appended, and the change is dropped.
    pub fn turn<R: Wait>(
        &self,
        alloc: Global,
        rt: &R,
        pass: &mut Pass<M>,
        change: M::Change,
    ) -> Result<Turned<M::Outcome>, Memory>
        requires { IsPassOf pass.old self.now }
        ensures desk { IsPassOf pass.new self.now }
        ensures same { IsSamePass pass.old pass.new }
        ensures ok { IfOk result (λ t. IsTurn M.yields (view pass.old) (view pass.new) change t.turn
            t.outcome) }
        ensures memory { OnErr result (IsRefused (view pass.old) (view pass.new)) }
    {
        self.win(rt, &mut pass.place);
        self.run(alloc, &mut pass.place, pass.number, change)
    }

    /// Waits for the turn, and asks the question in it.
    ///
    /// It answers a number of turns with the answer, which is the machine's for its setting and all entries of those turns:
    /// at least those that the pass had seen, or knew to be finished.
    ///
    /// # Errors
    ///
    /// `Memory`: the machine found none.
    pub fn ask<R: Wait>(
        &self,
        alloc: Global,
        rt: &R,
        pass: &mut Pass<M>,
        question: &M::Question,
    ) -> Result<(u64, M::Answer), Memory>
        requires { IsPassOf pass.old self.now }
        ensures desk { IsPassOf pass.new self.now }
        ensures same { IsSamePass pass.old pass.new }
        ensures ok { IfOk result (λ r. IsAnswer M.answers (view pass.old) (view pass.new)
            question.now r.0 r.1) }
        ensures memory { OnErr result (IsRefused (view pass.old) (view pass.new)) }
    {
        self.win(rt, &mut pass.place);
        self.reply(alloc, &mut pass.place, question)
    }

    /// Applies the change, as `turn` does, where no other pass holds the turn. It waits for nobody: it makes one load and at
    /// most one compare and exchange.
    ///
    /// # Errors
    ///
    /// - `Busy`: the word was odd, or the compare and exchange found another word than the load. The two words that it
    ///   carries are those of this call. The change comes back, and the pass has seen no more than before.
    /// - `Memory`: the machine found none, after the one compare and exchange. No entry is appended, and the change is dropped.
    pub fn try_turn(
        &self,
        alloc: Global,
        pass: &mut Pass<M>,
        change: M::Change,
    ) -> Result<Turned<M::Outcome>, TryRefusal<M::Change>>
        requires { IsPassOf pass.old self.now }
        ensures desk { IsPassOf pass.new self.now }
        ensures same { IsSamePass pass.old pass.new }
        ensures looks { (view pass.new).looks ≡ (view pass.old).looks + 1 }
        ensures tries { (view pass.new).tries ≤ (view pass.old).tries + 1 }
        ensures answer { MatchResult result (λ t. IsTurn M.yields (view pass.old) (view pass.new)
            change t.turn t.outcome) (IsRefusal (view pass.old) (view pass.new) change) }
    {
        let loaded = self.look(&mut pass.place);
        if loaded % 2 == 1 {
            return Err(TryRefusal::Busy {
                loaded,
                found: loaded,
                change,
            });
        }
        let found = self.claim(&mut pass.place, loaded);
        if found != loaded {
            return Err(TryRefusal::Busy {
                loaded,
                found,
                change,
            });
        }
        match self.run(alloc, &mut pass.place, pass.number, change) {
            Ok(turned) => Ok(turned),
            Err(Memory) => Err(TryRefusal::Memory),
        }
    }

    /// The number of finished turns, by one load: at least the pass's floor, which rises to it. It waits for nobody and takes
    /// no memory. Of what the pass knows nothing else changes but the count of its looks.
    pub fn glance(&self, pass: &mut Pass<M>) -> u64
        requires { IsPassOf pass.old self.now }
        ensures desk { IsPassOf pass.new self.now }
        ensures view { view pass.new ≡ looked (view pass.new).loaded (view pass.old) }
        ensures count { result ≡ (view pass.new).loaded / 2 }
        ensures floor { (view pass.old).floor ≤ result }
    {
        self.look(&mut pass.place) / 2
    }
}
