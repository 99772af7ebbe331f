//! How a frame was cut from a stream.
use union_base::body;

/// The byte that ends a record (ISO 2709, 'Record terminator').
pub const RECORD_TERMINATOR: u8 = body::RECORD_TERMINATOR;

/// CR, which is skipped where it stands before a record. This project's own.
pub const CARRIAGE_RETURN: u8 = 0x0D;

/// LF, which is skipped where it stands before a record. This project's own.
pub const LINE_FEED: u8 = 0x0A;

/// How many bytes the largest frame has, since a leader gives its length in five digits (ISO 2709, 'Record length').
pub const LARGEST_FRAME: usize = 99_999;

/// How a frame was cut.
#[derive(Clone, Copy, Debug, PartialEq, Eq)]
pub enum Cut {
    /// It ends in a record terminator, and has at most `LARGEST_FRAME` bytes.
    Whole,
    /// It ends in a record terminator, and has more bytes.
    TooLong,
    /// The stream ends before its record terminator.
    Truncated,
}
