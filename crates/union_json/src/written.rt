//! The lines of JSON that were made of frames.
ghost use Rattle.std.specs.Prelude.{◌≤◌};

use crate::gathered::Gathered;
use library_batches::refused::RefusedFrame;

/// The lines of the frames so far: how many frames there were, of how many a line is written, and which are refused.
#[derive(Drop)]
pub struct Written {
    pub lines: Gathered,
    pub frames: u64,
    pub written: u64,
    pub refused: Vec<RefusedFrame>,
    ghost few: { written ≤ frames },
}
