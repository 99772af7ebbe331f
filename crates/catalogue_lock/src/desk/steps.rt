//! The single steps of a call at the desk, each over the pass's seat.
ghost use Rattle.std.specs.Prelude.{◌≡◌, ◌≢◌, ◌+◌, ◌/◌, ◌%◌, ◌≤◌, [], ◌∷◌, ◌++◌, true, Some, None};
ghost use Rattle.catalogue_lock.specs.Ended.Role.{AsPass};
ghost use Rattle.catalogue_lock.specs.Views.{looked, released};
ghost use Rattle.catalogue_lock.specs.Steps.{Rests, Works, Waited};

use super::Desk;
use crate::board::{Claim, Look, Place, Release};
use crate::machine::Machine;

impl<M: Machine> Desk<M> {
    /// The load.
    pub(crate) fn look(&self, place: &mut Place<M>) -> u64
        requires desk { place.old.table_id ≡ self.now.board.shared.table_id }
        requires rests { Rests place.old.me }
        ensures desk { place.new.table_id ≡ place.old.table_id }
        ensures rests { Rests place.new.me }
        ensures view { place.new.me.0 ≡ looked result place.old.me.0 }
        ensures floor { place.old.me.0.floor ≤ result / 2 }
    {
        self.board.shared.load::<Look>(place, 0)
    }

    /// The compare and exchange of an even word. It wins where it answers `loaded`.
    pub(crate) fn claim(&self, place: &mut Place<M>, loaded: u64) -> u64
        requires desk { place.old.table_id ≡ self.now.board.shared.table_id }
        requires rests { Rests place.old.me }
        requires even { loaded % 2 ≡ 0 }
        ensures desk { place.new.table_id ≡ place.old.table_id }
        ensures waited { Waited place.old.me.0 place.new.me.0 }
        ensures words { (place.new.me.0.found ≡ result)
            × (place.new.me.0.tries ≡ place.old.me.0.tries + 1)
            × (place.new.me.0.loaded ≡ place.old.me.0.loaded)
            × (place.new.me.0.looks ≡ place.old.me.0.looks) }
        ensures won { result ≡ loaded → (x : M) × Works M.setting M.entries place.new.me x }
        ensures lost { result ≢ loaded → Rests place.new.me }
    {
        self.board
            .shared
            .compare_exchange::<Claim>(place, 0, loaded, loaded + 1)
    }

    /// The exchange of the machine out of the slot.
    pub(crate) fn take_out(&self, place: &mut Place<M>) -> M
        requires desk { place.old.table_id ≡ self.now.board.shared.table_id }
        requires hand { (x : M) × (place.old.me.1 ≡ (0, Some x) ∷ []) }
        ensures desk { place.new.table_id ≡ place.old.table_id }
        ensures machine { place.old.me.1 ≡ (0, Some result) ∷ [] }
        ensures empty { place.new.me ≡ (place.old.me.0, (0, None) ∷ []) }
    {
        self.board.shared.exchange(place, 0, None).unwrap()
    }

    /// The exchange of the machine back into the slot.
    pub(crate) fn put_back(&self, place: &mut Place<M>, machine: M)
        requires desk { place.old.table_id ≡ self.now.board.shared.table_id }
        requires empty { place.old.me.1 ≡ (0, None) ∷ [] }
        ensures desk { place.new.table_id ≡ place.old.table_id }
        ensures machine { place.new.me ≡ (place.old.me.0, (0, Some machine) ∷ []) }
    {
        self.board.shared.exchange(place, 0, Some(machine));
    }

    /// The fetch_add that ends a turn with one entry more.
    pub(crate) fn finish(&self, place: &mut Place<M>)
        requires desk { place.old.table_id ≡ self.now.board.shared.table_id }
        requires grown { let v = place.old.me.0 in (x : M) × (c : M.Change)
            × (place.old.me.1 ≡ (0, Some x) ∷ []) × (M.setting x ≡ v.setting)
            × (M.entries x ≡ v.base ++ (v.number, c) ∷ []) }
        requires holds { (place.old.me.0.role ≡ AsPass) × (place.old.me.0.holds ≡ true) }
        ensures desk { place.new.table_id ≡ place.old.table_id }
        ensures released { (x : M) → place.old.me.1 ≡ (0, Some x) ∷ []
            → place.new.me ≡ (released (M.entries x) place.old.me.0, []) }
    {
        self.board.shared.fetch_add::<Release>(place, 0, 1);
    }

    /// The fetch_sub that ends a turn without one.
    pub(crate) fn cancel(&self, place: &mut Place<M>)
        requires desk { place.old.table_id ≡ self.now.board.shared.table_id }
        requires same { let v = place.old.me.0 in (x : M) × (place.old.me.1 ≡ (0, Some x) ∷ [])
            × (M.setting x ≡ v.setting) × (M.entries x ≡ v.base) }
        requires holds { (place.old.me.0.role ≡ AsPass) × (place.old.me.0.holds ≡ true) }
        ensures desk { place.new.table_id ≡ place.old.table_id }
        ensures released { (x : M) → place.old.me.1 ≡ (0, Some x) ∷ []
            → place.new.me ≡ (released (M.entries x) place.old.me.0, []) }
    {
        self.board.shared.fetch_sub::<Release>(place, 0, 1);
    }
}
