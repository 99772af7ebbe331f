//! Asking without a pause.
ghost use Rattle.std.specs.Prelude.{◌≡◌};

use catalogue_query::query::Query;
use snapshot_desk::viewer::Viewer;
use std::alloc::Global;
use std::sync::atomic::{AtomicBool, Ordering};
use std::time::{Clock, Duration, Instant};
use union_base::memory::Memory;

/// A viewer, how many answers it gave, and how long the slowest took.
pub struct Asking {
    pub viewer: Viewer,
    pub answers: u64,
    pub slowest: Duration,
}

/// Asks for the counts once. Returns `Memory` if allocation fails or the clock can't be read.
fn ask<R: Clock>(rt: &R, alloc: Global, asking: &mut Asking) -> Result<(), Memory>
    ensures { asking.new.viewer.book ≡ asking.old.viewer.book }
{
    let Ok(start) = Instant::now(rt) else {
        return Err(Memory);
    };
    asking.viewer.view(alloc, &Query::Count)?;
    let Ok(spent) = start.elapsed(rt) else {
        return Err(Memory);
    };
    asking.answers = asking.answers.saturating_add(1);
    if asking.slowest < spent {
        asking.slowest = spent;
    }
    Ok(())
}

/// Asks again and again, until it is told that the load has ended.
pub fn ask_until<R: Clock>(
    rt: &R,
    alloc: Global,
    ended: &AtomicBool,
    asking: &mut Asking,
) -> Result<(), Memory>
    ensures { asking.new.viewer.book ≡ asking.old.viewer.book }
{
    for _ in 0..u64::MAX {
        if ended.load(Ordering::SeqCst) {
            return Ok(());
        }
        ask(rt, alloc, asking)?;
    }
    Ok(())
}
