//! How a session or an asker ended.

/// How a session or an asker ended.
#[derive(Clone, Copy, Debug, PartialEq, Eq)]
pub enum End {
    /// It was not run.
    NotRun,
    /// The source was read to its end and each of its batches was turned, or each question was answered.
    Done,
    /// A read of the source failed. Operations of a block of frames that was not whole by then were dropped.
    ReadFault,
    /// The source has more bytes than are read. Operations of a block of frames that was not whole by then were dropped.
    TooLong,
    /// Memory ran out.
    Memory,
}
