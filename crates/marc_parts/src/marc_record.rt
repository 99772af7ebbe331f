//! A record.
use marc_leader::codes::LeaderCodes;
use std::alloc::Global;
use union_base::copied::Copied;
use union_base::field::Field;
use union_base::memory::Memory;
use union_base::sequence::Sequence;

/// A record (MARC 21): the codes of its leader, and its fields in the order of the directory.
#[derive(Debug, Drop)]
pub struct Record {
    pub leader: LeaderCodes,
    pub fields: Sequence<Field>,
}

impl Copied for Record {
    fn copied(&self, alloc: Global) -> Result<Record, Memory> {
        Ok(Record {
            leader: self.leader,
            fields: self.fields.copied(alloc)?,
        })
    }
}
