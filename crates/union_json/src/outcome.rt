//! What comes of a line.
use marc_fields::rules::Rule;

/// Why a line gives no frame.
#[derive(Clone, Copy, Debug, PartialEq, Eq)]
pub enum Reason {
    /// It has more than `LONGEST_LINE` bytes before its line feed.
    LineTooLong,
    /// It is no JSON.
    Json,
    /// Its value has not the form of a record; `at` is 0 for the top, the leader or the list of fields, else the number of the
    /// first wrong field, counted from 1.
    Shape { at: u64 },
    /// A field of its record has more bytes than a directory's entry can say.
    FieldTooLong,
    /// Its record has more bytes than a leader can say.
    RecordTooLong,
    /// The frame of its record breaks the rule, there.
    Breaks { rule: Rule, place: u32 },
}

/// What comes of a line.
#[derive(Clone, Copy, Debug, PartialEq, Eq)]
pub enum Outcome {
    /// It is empty.
    Skipped,
    /// The frame of its record breaks no rule.
    Written,
    /// It gives no frame.
    Refused(Reason),
}

/// A line that gives no frame.
#[derive(Clone, Copy, Debug, PartialEq, Eq)]
pub struct RefusedLine {
    /// The line's number in its text, counted from 1.
    pub line: u64,
    pub reason: Reason,
}
