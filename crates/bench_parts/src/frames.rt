//! How many frames a stream has, by how they are cut. `bench/frames.sh` times it.
use crate::stream::{Measure, take_all};
use iso2709_frame::cut::Cut;
use std::alloc::Global;
use std::io;
use std::io::Read;

/// How the frames of a stream were cut.
#[derive(Clone, Copy, Default)]
struct Counts {
    whole: u64,
    too_long: u64,
    truncated: u64,
}

impl Measure for Counts {
    fn take(&mut self, _alloc: Global, cut: Cut, _frame: &[u8]) {
        let counted = match cut {
            Cut::Whole => &mut self.whole,
            Cut::TooLong => &mut self.too_long,
            Cut::Truncated => &mut self.truncated,
        };
        *counted = counted.saturating_add(1);
    }
}

/// Prints the counts of the stream.
pub fn measure<S: Read>(rt: &HostRuntime, stream: &mut S) -> io::Result<()> {
    let mut counts = Counts::default();
    take_all(rt.alloc(), stream, &mut counts)?;
    println!(rt;
        "whole {} too long {} truncated {}",
        counts.whole, counts.too_long, counts.truncated
    )
}
