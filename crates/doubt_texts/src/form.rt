//! The forms of the list.

/// How the list is written.
#[derive(Clone, Copy, Debug, PartialEq, Eq)]
pub enum Form {
    /// A line for each edition, and at the end a line for each reason.
    Lines,
    /// A table (RFC 4180), with a row for each edition.
    Table,
}
