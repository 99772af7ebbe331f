//! The part of an edition that has a fixed length: the leader's codes and field 008.
use crate::rank::Rank;
use marc_leader::codes::LeaderCodes;
use std::alloc::Global;
use union_base::bytes::Bytes;
use union_base::copied::Copied;
use union_base::memory::Memory;

/// The nine codes of a leader and the text of field 008, with the rank of the record that they come from. Ordered by rank,
/// then by the codes, then by the text.
#[derive(Debug, PartialEq, Eq, PartialOrd, Ord)]
pub struct Fixed {
    pub rank: Rank,
    pub codes: LeaderCodes,
    pub text: Bytes,
}

/// A drop of its own, as that of `Bytes`.
impl Drop for Fixed {
    fn drop(self) {
        let Fixed {
            rank: _,
            codes: _,
            text: _,
        } = self;
    }
}

impl Copied for Fixed {
    fn copied(&self, alloc: Global) -> Result<Fixed, Memory> {
        Ok(Fixed {
            rank: self.rank.copied(alloc)?,
            codes: self.codes,
            text: self.text.copied(alloc)?,
        })
    }
}
