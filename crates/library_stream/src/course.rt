//! How far a source was read.

/// How far a source was read, as it stands to the limit on its bytes.
#[derive(Clone, Copy, Debug, PartialEq, Eq)]
pub enum Course {
    /// This many bytes more are within the limit.
    Open(u64),
    /// It answered its end within the limit.
    Ended,
    /// It gave as many bytes as the limit allows and at least one more.
    Passed,
}
