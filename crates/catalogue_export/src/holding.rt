//! What a library's record brings to its edition.
use catalogue_editions::shared_content::SharedContent;
use union_base::library_code::LibraryCode;

/// What a library's current record says.
#[derive(Drop)]
pub struct Holding {
    pub(crate) library: LibraryCode,
    pub(crate) content: SharedContent,
}
