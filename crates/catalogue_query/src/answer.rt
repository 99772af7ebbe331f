//! The lines that answer a query.
use union_base::bytes::Bytes;
use union_base::sequence::Sequence;

/// What a catalogue answers: one line or more, each without a line feed.
#[derive(Debug)]
pub struct Answer {
    pub lines: Sequence<Bytes>,
}

/// A drop of its own, as that of `Bytes`.
impl Drop for Answer {
    fn drop(self) {
        let Answer { lines: _ } = self;
    }
}
