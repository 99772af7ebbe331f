//! What is counted of a catalogue.

/// What is counted of a catalogue.
#[derive(Clone, Copy, Debug, PartialEq, Eq)]
pub struct Measures {
    /// The current records.
    pub records: u64,
    /// The editions.
    pub editions: u64,
    /// The works.
    pub works: u64,
    /// The bytes of the export. Each edition has 99,999 at most, so that 64 bits need not do for all.
    pub bytes: u128,
}
