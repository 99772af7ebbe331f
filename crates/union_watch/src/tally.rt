//! The count of a stream's frames.
ghost use Rattle.std.specs.Prelude.{◌≤◌, ◌+◌};

use library_batches::refused::RefusedFrame;

/// How many frames there are, how many of them load or withdraw a record, and which are refused.
#[derive(Drop)]
pub struct Tally {
    pub frames: u64,
    pub loads: u64,
    pub withdrawals: u64,
    pub refused: Vec<RefusedFrame>,
    ghost few: { loads + withdrawals ≤ frames },
}
