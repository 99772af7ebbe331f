//! The answer of a read or a write that failed.

/// The call failed, and the count of faults of its object rose.
#[derive(Clone, Copy, Debug, PartialEq, Eq)]
pub struct Failed;
