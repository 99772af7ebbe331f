//! A change of works.
use union_base::bytes::Bytes;
use union_base::record_id::RecordId;
use union_base::sequence::Sequence;

/// The pairs of work key and id that leave, and those that enter then.
#[derive(Drop)]
pub struct WorkChange {
    pub gone: Sequence<(Bytes, RecordId)>,
    pub come: Sequence<(Bytes, RecordId)>,
}
