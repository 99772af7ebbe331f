//! A block of frames as work for one of several workers.
ghost use Rattle.std.specs.Prelude.{◌≡◌, ◌≤◌, ◌<◌, ◌+◌, ◌^◌, length, All};
ghost use Rattle.library_batches.specs.Works.{IsDone, AreDone};

use crate::checking::Origin;
use crate::cut_frame::CutFrame;
use crate::shares::{Checked, check_share};
use std::alloc::Global;
use std::thread;
use std::thread::Threads;
use union_base::memory::Memory;

/// A block of frames that were cut, the number of the first one in the stream, and what their checking gave: `Memory` as long as they
/// are not checked.
#[derive(Drop)]
pub struct Work {
    pub first: u64,
    pub frames: Vec<CutFrame>,
    pub made: Result<Checked, Memory>,
}

/// Checks the frames of the block.
fn check_work(alloc: Global, origin: &Origin<'_>, work: &mut Work)
    requires { work.old.first + length work.old.frames.items < 2 ^ 64 }
    ensures { IsDone origin.now.prefer.now origin.now.library.now work.old work.new }
{
    let first = Origin {
        prefer: origin.prefer,
        library: origin.library,
        number: work.first,
    };
    work.made = check_share(alloc, &first, 0, work.frames.as_slice());
}

/// Checks the frames of each block, of the preference and the library of `origin`, by `workers` workers, each in a thread of its own where
/// one can be made.
pub fn check_works<R: Threads + Sync>(
    rt: &R,
    alloc: Global,
    origin: &Origin<'_>,
    works: &mut [Work],
    workers: u32,
)
    requires least { 1 ≤ workers }
    requires room { All (λ work. work.first + length work.frames.items < 2 ^ 64) works.old }
    ensures { AreDone origin.now.prefer.now origin.now.library.now works.old works.new }
{
    let check = |_place: usize, work: &mut Work|
        requires { work.now.first + length work.now.frames.items < 2 ^ 64 }
        ensures { IsDone origin.entry.now.prefer.now origin.entry.now.library.now work.entry.now
            work.exit.now }
    { check_work(alloc, origin, work) };
    thread::for_each_mut(rt, works, workers as usize, &check);
}
