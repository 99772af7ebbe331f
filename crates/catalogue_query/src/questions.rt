//! What is asked while libraries load, and after it.
ghost use Rattle.std.specs.Prelude.{◌≡◌, []};

use crate::query::Query;
use std::alloc::Global;

/// The questions that are asked while libraries load, and those that are asked when all is loaded.
#[derive(Drop)]
pub struct Questions {
    pub beside: Vec<Query>,
    pub late: Vec<Query>,
}

impl Questions {
    /// No question. Takes no memory.
    pub fn none(alloc: Global) -> Questions
        ensures beside { result.beside.items ≡ [] }
        ensures late { result.late.items ≡ [] }
    {
        Questions {
            beside: Vec::new(alloc),
            late: Vec::new(alloc),
        }
    }
}
