//! Where a catalogue finds one of its current records.
use crate::place::Place;

/// Where a catalogue finds one of its current records: the place in the history at which it was loaded, and the number of the
/// block that it is a contributor of.
#[derive(Clone, Copy, Debug)]
pub struct Home {
    pub place: Place,
    pub block: u64,
}
