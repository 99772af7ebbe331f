//! What a library does with one of its records.
use crate::edition::Edition;
use union_base::bytes::Bytes;

/// The most operations of a batch.
pub const LARGEST_BATCH: usize = 256;

/// What a library does with one of its records.
#[derive(Debug)]
pub enum Op {
    /// The record of this edition is current from now on, in place of an earlier one of its id.
    Load(Edition),
    /// The record under this control number is no longer current.
    Withdraw(Bytes),
}

/// A drop of its own, as that of `Bytes`.
impl Drop for Op {
    fn drop(self) {
        match self {
            Op::Load(_) => (),
            Op::Withdraw(_) => (),
        }
    }
}
