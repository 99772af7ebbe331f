//! The frames of a stream that are refused.
use marc_fields::rules::Rule;

/// A frame that breaks a rule.
#[derive(Clone, Copy, Debug, PartialEq, Eq)]
pub struct RefusedFrame {
    /// The frame's number in its stream, counted from 1.
    pub frame: u64,
    /// The first rule that it breaks.
    pub rule: Rule,
    /// Where it breaks the rule (see `Rule`).
    pub place: u32,
}
