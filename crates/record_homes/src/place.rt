//! Where in a history an edition was loaded.

/// The place of an operation in a history: the turn, counted from 0, and the operation of its batch, counted from 0.
#[derive(Clone, Copy, Debug)]
pub struct Place {
    pub turn: usize,
    pub op: usize,
}
