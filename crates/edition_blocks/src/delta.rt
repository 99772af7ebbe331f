//! What a turn makes of the editions of a catalogue.
use catalogue_editions::edition::Edition;

/// The difference of two lists of editions, one before a turn and one after it. Each list is in order of the least contributors.
#[derive(Debug, Drop)]
pub struct Delta {
    /// The editions that stood before and do not stand after.
    pub closed: Vec<Edition>,
    /// The editions that stand after and did not stand before.
    pub opened: Vec<Edition>,
}
