//! How many frames of a stream the nineteen rules accept. `bench/rules.sh` times it.
ghost use Rattle.std.specs.Prelude.{◌≡◌};
ghost use Rattle.iso2709_frame.specs.Frames.{IsWhole};

use crate::stream::{Measure, take_all};
use iso2709_frame::cut::Cut;
use marc_rules::check::{Refusal, accepted_status, check_frame};
use std::alloc::Global;
use std::io;
use std::io::Read;

/// What is asked of a frame: its record, or its status alone, for which no record is made.
#[derive(Clone, Copy)]
pub enum Asked {
    Record,
    Status,
}

/// The refusal of the frame, if it is refused.
fn refusal_of(alloc: Global, asked: Asked, cut: Cut, frame: &[u8]) -> Option<Refusal>
    requires { cut ≡ Cut.Whole → IsWhole frame.now }
{
    match asked {
        Asked::Record => check_frame(alloc, cut, frame).err(),
        Asked::Status => accepted_status(alloc, cut, frame).err(),
    }
}

/// What is asked of the frames of a stream, and what became of them.
#[derive(Clone, Copy)]
struct Checking {
    asked: Asked,
    accepted: u64,
    refused: u64,
    unchecked: u64,
}

impl Measure for Checking {
    fn take(&mut self, alloc: Global, cut: Cut, frame: &[u8]) {
        let counted = match refusal_of(alloc, self.asked, cut, frame) {
            None => &mut self.accepted,
            Some(Refusal::Rule { .. }) => &mut self.refused,
            Some(Refusal::Memory) => &mut self.unchecked,
        };
        *counted = counted.saturating_add(1);
    }
}

/// Prints what became of the stream's frames.
pub fn measure<S: Read>(rt: &HostRuntime, asked: Asked, stream: &mut S) -> io::Result<()> {
    let mut checking = Checking {
        asked,
        accepted: 0,
        refused: 0,
        unchecked: 0,
    };
    take_all(rt.alloc(), stream, &mut checking)?;
    println!(rt;
        "accepted {} refused {} unchecked {}",
        checking.accepted, checking.refused, checking.unchecked
    )
}
