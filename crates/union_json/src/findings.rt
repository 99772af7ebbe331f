//! The count of lines.
ghost use Rattle.std.specs.Prelude.{◌≤◌};

use crate::gathered::Gathered;
use crate::outcome::RefusedLine;

/// How many lines there are, how many of them are not empty, of how many a frame is written, which are refused, and the frames,
/// one after the other.
#[derive(Drop)]
pub struct Findings {
    pub lines: u64,
    pub read: u64,
    pub written: u64,
    pub refused: Vec<RefusedLine>,
    pub frames: Gathered,
    ghost few: { (read ≤ lines) × (written ≤ lines) },
}
