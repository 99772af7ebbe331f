//! What is told of a library's source.
ghost use Rattle.library_batches.specs.Reports.{IsBlank};

use crate::refused::RefusedFrame;
use std::alloc::Global;

/// What is told of a library's source: how many frames it has, which of them are refused, and how many of its operations
/// had which outcome.
#[derive(Debug, Drop)]
pub struct Report {
    pub frames: u64,
    pub refused: Vec<RefusedFrame>,
    pub added: u64,
    pub replaced: u64,
    pub removed: u64,
    pub absent: u64,
}

impl Report {
    /// A report in which nothing is told yet. Takes no memory.
    pub fn blank(alloc: Global) -> Report
        ensures { IsBlank result }
    {
        Report {
            frames: 0,
            refused: Vec::new(alloc),
            added: 0,
            replaced: 0,
            removed: 0,
            absent: 0,
        }
    }
}
