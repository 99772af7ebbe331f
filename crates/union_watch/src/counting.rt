//! The counting of a stream's frames.
ghost use Rattle.std.specs.Prelude.{◌≡◌, ◌<◌, ◌+◌, [], OnOk};
ghost use Rattle.iso2709_frame.specs.Frames.{IsWhole};
ghost use Rattle.library_batches.specs.Streams.{Frame};
ghost use Rattle.union_watch.specs.Tallies.{Breaks, Counts, HasStatus, IsTally};

use crate::tally::Tally;
use iso2709_frame::cut::Cut;
use library_batches::refused::RefusedFrame;
use marc_fields::rules::Rule;
use marc_parts::loads::is_deleted;
use marc_rules::check::{Refusal, accepted_status};
use std::alloc::{AllocError, Global};
use union_base::memory::Memory;

impl Tally {
    /// The count of no frames.
    pub fn new(alloc: Global) -> Tally
        ensures { IsTally [] result }
    {
        Tally {
            frames: 0,
            loads: 0,
            withdrawals: 0,
            refused: Vec::new(alloc),
        }
    }

    /// Counts an accepted frame with that status. Takes no memory.
    pub fn accept(&mut self, status: u8)
        requires { self.old.frames < u64.MAX }
        ensures counted { (frame : Frame) → HasStatus status frame
            → Counts self.old self.new frame }
        ensures frames { self.new.frames ≡ self.old.frames + 1 }
    {
        self.frames += 1;
        if is_deleted(status) {
            self.withdrawals += 1;
        } else {
            self.loads += 1;
        }
    }

    /// Counts a frame that breaks the rule there.
    pub fn refuse(&mut self, rule: Rule, place: u32) -> Result<(), AllocError>
        requires { self.old.frames < u64.MAX }
        ensures counted { OnOk result ((frame : Frame) → Breaks rule place frame
            → Counts self.old self.new frame) }
        ensures frames { OnOk result (self.new.frames ≡ self.old.frames + 1) }
    {
        self.frames += 1;
        self.refused.push(RefusedFrame {
            frame: self.frames,
            rule,
            place,
        })?;
        Ok(())
    }
}

/// Counts a frame by the first rule that it breaks, or by its status.
pub fn count_frame(alloc: Global, tally: &mut Tally, cut: Cut, frame: &[u8]) -> Result<(), Memory>
    requires whole { cut ≡ Cut.Whole → IsWhole frame.now }
    requires room { tally.old.frames < u64.MAX }
    ensures counted { OnOk result (Counts tally.old tally.new (cut, frame.now)) }
    ensures frames { OnOk result (tally.new.frames ≡ tally.old.frames + 1) }
{
    match accepted_status(alloc, cut, frame) {
        Ok(status) => {
            tally.accept(status);
            Ok(())
        }
        Err(Refusal::Rule { rule, place }) => {
            tally.refuse(rule, place)?;
            Ok(())
        }
        Err(Refusal::Memory) => Err(Memory),
    }
}
