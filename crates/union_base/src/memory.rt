//! Want of memory, the one refusal that every call which allocates may answer.
use std::alloc::{AllocError, AllocFailed};

/// Memory ran out. What the call was lent stands as before, unless its documentation says otherwise.
#[derive(Clone, Copy, Debug, PartialEq, Eq)]
pub struct Memory;

impl From<AllocError> for Memory {
    fn from(_refused: AllocError) -> Memory {
        Memory
    }
}

impl<T: Drop> From<AllocFailed<T>> for Memory {
    fn from(_refused: AllocFailed<T>) -> Memory {
        Memory
    }
}
