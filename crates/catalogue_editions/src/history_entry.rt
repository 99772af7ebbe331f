//! One turn of a catalogue's history.
use crate::batch::Batch;

/// One turn of a catalogue's history: a batch, and the number under which it was applied.
#[derive(Debug)]
pub struct HistoryEntry {
    pub pass: u32,
    pub batch: Batch,
}

/// A drop of its own, as that of `Bytes`.
impl Drop for HistoryEntry {
    fn drop(self) {
        let HistoryEntry { pass: _, batch: _ } = self;
    }
}
