//! What came of an operation.

/// What came of an operation, by whether a record of its id was current just before.
#[derive(Clone, Copy, Debug, PartialEq, Eq)]
pub enum Outcome {
    /// A load: no record of its id was current.
    Added,
    /// A load: the record of its id that was current no longer is.
    Replaced,
    /// A withdrawal: the record under its control number was current, and no longer is.
    Removed,
    /// A withdrawal: no record under its control number was current.
    Absent,
}
