//! What a run shows of the catalogue that it filled.
use union_words::form::Exporting;
use union_words::workers::Workers;

/// What a run shows of the catalogue that it filled.
#[derive(Clone, Copy, Debug, PartialEq, Eq)]
pub enum Shown {
    /// The records of its editions, in this way.
    Export(Exporting),
    /// The list of its works.
    Works,
}

/// What a run shows, and how many workers make it.
#[derive(Clone, Copy, Debug)]
pub struct ShownBy {
    pub shown: Shown,
    pub workers: Workers,
}
