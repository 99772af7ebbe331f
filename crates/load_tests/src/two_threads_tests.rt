//! A publisher and its viewer in two threads at once, each of which waits at gates until the other has got so far.
ghost use Rattle.std.specs.Prelude.{◌≡◌};

use crate::one_record::{Seen, counts, entry_of};
use catalogue_core::history_entry::HistoryEntry;
use key_hashing::hashing::Hashing;
use snapshot_desk::opening::open;
use snapshot_desk::publisher::Publisher;
use snapshot_desk::viewer::Viewer;
use std::alloc::Global;
use std::hint::spin_loop;
use std::sync::Wait;
use std::sync::atomic::{AtomicBool, Ordering};
use std::test::Fail;
use std::thread::{Threads, join_mut};
use union_base::memory::Memory;

/// How often a thread looks at a gate before it gives up.
const LOOKS: u64 = 200_000_000;

/// A gate, which one thread opens and another waits for.
#[derive(Drop)]
struct Gate {
    is_open: AtomicBool,
}

impl Gate {
    fn shut() -> Gate {
        Gate {
            is_open: AtomicBool::new(false),
        }
    }

    fn open(&self) {
        self.is_open.store(true, Ordering::SeqCst);
    }

    /// Waits until the gate is open. Returns `Memory` where it was not opened before the looks ran out.
    fn wait(&self) -> Result<(), Memory> {
        for _ in 0..LOOKS {
            if self.is_open.load(Ordering::SeqCst) {
                return Ok(());
            }
            spin_loop();
        }
        Err(Memory)
    }
}

/// The gates between the two threads.
#[derive(Drop)]
struct Gates {
    /// The first entry is published.
    first: Gate,
    /// The viewer has answered over it, while more is pending.
    answered: Gate,
    /// All is published.
    all: Gate,
}

/// The publisher's thread: the publisher, and what it publishes.
struct Publishing {
    publisher: Publisher,
    first: Option<HistoryEntry>,
    more: Option<HistoryEntry>,
}

/// The viewer's thread: the viewer, and what its two answers tell.
struct Viewing {
    viewer: Viewer,
    early: Seen,
    late: Seen,
}

/// Adds an entry, if there is one.
fn add(publisher: &mut Publisher, entry: Option<HistoryEntry>) -> Result<(), Memory>
    ensures { publisher.new.book ≡ publisher.old.book }
{
    match entry {
        Some(entry) => publisher.add(entry),
        None => Err(Memory),
    }
}

/// Publishes the first entry. Then the other one is pending until the viewer has answered, and is published.
fn publish_both<R: Wait>(rt: &R, gates: &Gates, this: &mut Publishing) -> Result<u64, Memory>
    ensures { this.new.publisher.book ≡ this.old.publisher.book }
{
    add(&mut this.publisher, this.first.take())?;
    this.publisher.publish(rt)?;
    gates.first.open();
    add(&mut this.publisher, this.more.take())?;
    gates.answered.wait()?;
    let count = this.publisher.publish(rt)?;
    gates.all.open();
    Ok(count)
}

/// Answers while one entry is published and one is pending, and when both are published. Both threads borrow the handle: of two
/// closures that borrow different things beside their own the borrow checker proves nothing.
fn view_twice<R>(_rt: &R, alloc: Global, gates: &Gates, this: &mut Viewing) -> Result<(), Memory>
    ensures { this.new.viewer.book ≡ this.old.viewer.book }
{
    gates.first.wait()?;
    this.early = counts(alloc, &mut this.viewer, b"editions 1 works 1 records 1");
    gates.answered.open();
    gates.all.wait()?;
    this.late = counts(alloc, &mut this.viewer, b"editions 2 works 2 records 2");
    Ok(())
}

/// The two at once.
fn run<R: Threads + Wait + Sync>(
    rt: &R,
    alloc: Global,
    gates: &Gates,
    publishing: &mut Publishing,
    viewing: &mut Viewing,
) -> (Result<(), Memory>, Result<u64, Memory>)
    ensures publisher { publishing.new.publisher.book ≡ publishing.old.publisher.book }
    ensures viewer { viewing.new.viewer.book ≡ viewing.old.viewer.book }
{
    join_mut(
        rt,
        &mut || view_twice(rt, alloc, gates, viewing),
        &mut || publish_both(rt, gates, publishing),
    )
}

#[test]
fn a_view_sees_what_is_published_and_not_what_is_pending(rt: HostRuntime) -> Result<(), Fail> {
    let alloc = rt.alloc();
    let first = entry_of(alloc, b"LIBA")?;
    let more = entry_of(alloc, b"LIBB")?;
    let gates = Gates {
        first: Gate::shut(),
        answered: Gate::shut(),
        all: Gate::shut(),
    };
    let (publisher, viewer) = open(alloc, Hashing::fixed())?;
    let mut publishing = Publishing {
        publisher,
        first: Some(first),
        more: Some(more),
    };
    let mut viewing = Viewing {
        viewer,
        early: None,
        late: None,
    };
    let (viewed, published) = run(&rt, alloc, &gates, &mut publishing, &mut viewing);
    let Publishing {
        publisher,
        first: _,
        more: _,
    } = publishing;
    let Viewing {
        viewer,
        early,
        late,
    } = viewing;
    publisher.close(&rt, viewer);
    assert!(rt;
        viewed == Ok(()) && published == Ok(2),
        "both threads ended"
    );
    assert!(rt;
        early == Some((1, true)),
        "while the second entry is pending"
    );
    assert!(rt; late == Some((2, true)), "when both are published");
    Ok(())
}
