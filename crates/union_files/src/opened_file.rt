//! The file of a library that was opened.
use union_base::library_code::LibraryCode;

/// A library, and the source that was opened of its file.
#[derive(Drop)]
pub struct OpenedFile<S: Drop> {
    pub library: LibraryCode,
    pub source: S,
}
