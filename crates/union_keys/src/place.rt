//! Where a frame stands.
use union_base::library_code::LibraryCode;

/// Where a frame stands: its library, its number in the file, and how many bytes of the file are before it.
#[derive(Clone, Copy)]
pub(crate) struct Place<'a> {
    pub(crate) library: &'a LibraryCode,
    pub(crate) number: u64,
    pub(crate) first: u64,
}
