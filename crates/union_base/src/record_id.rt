//! The name under which a library keeps a record.
use crate::bytes::Bytes;
use crate::copied::Copied;
use crate::library_code::LibraryCode;
use crate::memory::Memory;
use crate::sorted_list::Element;
use std::alloc::Global;

/// A record's library and its control number there (MARC 21, field 001), ordered by the library's code, then by the bytes
/// of the control number.
#[derive(Debug, PartialEq, Eq, PartialOrd, Ord, Drop)]
pub struct RecordId {
    pub library: LibraryCode,
    pub control: Bytes,
}

impl Copied for RecordId {
    fn copied(&self, alloc: Global) -> Result<RecordId, Memory> {
        Ok(RecordId {
            library: self.library,
            control: self.control.copied(alloc)?,
        })
    }
}

impl Element for RecordId {
    ghost use Rattle.union_base.specs.IdLaws.{ids_apart};

    ghost ties = { ids_apart };
}
