//! The bell of a desk: calls that wait for the turn sleep by it, and the end of a turn rings it.
//!
//! A call that is to sleep announces itself, and then looks once more. The end of a turn makes the word even first, and
//! then asks whether a call has announced itself. So where it misses one, that call finds the turn free, or held by another
//! pass, which asks later. A ring wakes one call and forgets all announcements, so a call that has slept announces those
//! that still sleep as soon as it has the turn.
use std::sync::Wait;
use std::sync::atomic::{AtomicU64, Ordering};

/// No call has announced itself since the last ring.
const SILENT: u32 = 0;

/// A call has.
const ANNOUNCED: u32 = 1;

/// Where calls sleep.
#[derive(Drop)]
pub(crate) struct Bell {
    state: AtomicU64,
}

impl Bell {
    /// A bell by which no call sleeps.
    pub(crate) fn new() -> Bell {
        Bell {
            state: AtomicU64::new(SILENT as u64),
        }
    }

    /// Announces that a call is to sleep, or that one may sleep still.
    pub(crate) fn announce(&self) {
        self.state.store(ANNOUNCED as u64, Ordering::SeqCst);
    }

    /// Sleeps until a ring, unless one came since the last announcement. It may end sooner.
    pub(crate) fn sleep<R: Wait>(&self, rt: &R) {
        self.state.park(rt, ANNOUNCED);
    }

    /// Wakes one call that sleeps, where one was announced.
    pub(crate) fn ring(&self) {
        if self.state.load(Ordering::SeqCst) != SILENT as u64 {
            self.state.store(SILENT as u64, Ordering::SeqCst);
            self.state.wake_one();
        }
    }
}
