//! Where in its history a catalogue finds its current records.
//!
//! The history is the one owner of the editions that were loaded: under the id of each current record the catalogue keeps the
//! place in the history at which it was loaded.
ghost use Rattle.std.specs.Prelude.{◌≡◌, ◌++◌, ◌∷◌, []};
ghost use Rattle.std.specs.Option.{option_copied};
ghost use Rattle.turn_plans.specs.Keeping.{batches, loaded, loaded_at};

use catalogue_editions::batch::Batch;
use catalogue_editions::edition::Edition;
use catalogue_editions::history_entry::HistoryEntry;
use catalogue_editions::op::Op;
use record_homes::place::Place;

/// The edition that the operation loads: None exactly where it is no load. Takes no memory.
fn loaded(op: &Op) -> Option<&Edition>
    ensures { option_copied result ≡ loaded op.now }
{
    match op {
        Op::Load(edition) => Some(edition),
        Op::Withdraw(_) => None,
    }
}

/// The edition that the operation at the place in the batches of the history loads: None exactly where there is none. Takes
/// no memory.
pub fn loaded_at(history: &[HistoryEntry], place: Place) -> Option<&Edition>
    ensures { option_copied result ≡ loaded_at (batches history.now) place }
{
    let turn = history.get(place.turn)?;
    let op = turn.batch.ops.as_slice().get(place.op)?;
    loaded(op)
}

/// The same of a history and one more batch. Takes no memory.
pub fn loaded_in<'a>(
    history: &'a [HistoryEntry],
    batch: &'a Batch,
    place: Place,
) -> Option<&'a Edition>
    ensures { option_copied result ≡ loaded_at (batches history.now ++ batch.now ∷ []) place }
{
    if place.turn == history.len() {
        let op = batch.ops.as_slice().get(place.op)?;
        loaded(op)
    } else {
        loaded_at(history, place)
    }
}
