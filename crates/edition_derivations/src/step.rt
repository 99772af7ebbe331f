//! The merges by which records come together.
use catalogue_editions::edition::Edition;

/// A merge of two values that match, each a record or what an earlier step merges to.
#[derive(Debug, Drop)]
pub struct Step {
    pub left: Edition,
    pub right: Edition,
}
