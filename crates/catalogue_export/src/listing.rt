//! What an export writes.
use crate::sources::Sources;
use catalogue_editions::edition::Edition;

/// Editions, in the order in which they are written, and what the export takes of their catalogue beside them.
#[derive(Clone, Copy)]
pub struct Listing<'a> {
    pub sources: &'a Sources<'a>,
    pub editions: &'a [&'a Edition],
}
