//! Plans: what a turn makes of a catalogue, worked out before anything of the catalogue changes.
use catalogue_editions::edition::Edition;
use record_homes::touched::Touched;
use swoosh_resolver::change::Change;

/// What a turn makes of a catalogue, as far as it is worked out: the change of its blocks; and under each id that the turn
/// touched the place at which the record was loaded that is current by now, or none.
#[derive(Drop)]
pub struct Plan {
    pub change: Change<Edition>,
    pub touched: Touched,
}
