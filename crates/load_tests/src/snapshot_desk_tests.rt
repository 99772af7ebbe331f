//! A publisher and its viewer.
ghost use Rattle.std.specs.Prelude.{◌≡◌};

use crate::one_record::{Seen, counts, entry_of};
use catalogue_core::history_entry::HistoryEntry;
use key_hashing::hashing::Hashing;
use snapshot_desk::opening::open;
use snapshot_desk::publisher::Publisher;
use snapshot_desk::viewer::Viewer;
use std::alloc::Global;
use std::sync::Wait;
use std::test::Fail;

/// What is seen of an entry that is added, after it was published, and after that was told.
fn publish_one<R: Wait>(
    rt: &R,
    alloc: Global,
    entry: HistoryEntry,
    publisher: &mut Publisher,
    viewer: &mut Viewer,
) -> (Seen, Option<u64>, Seen)
    requires { viewer.old.book ≡ publisher.old.book }
    ensures publisher { publisher.new.book ≡ publisher.old.book }
    ensures viewer { viewer.new.book ≡ viewer.old.book }
{
    if publisher.add(entry).is_err() {
        return (None, None, None);
    }
    let before = counts(alloc, viewer, b"editions 0 works 0 records 0");
    let published = publisher.publish(rt).ok();
    viewer.learn(publisher.tell());
    let after = counts(alloc, viewer, b"editions 1 works 1 records 1");
    (before, published, after)
}

#[test]
fn an_entry_is_seen_once_it_is_published(rt: HostRuntime) -> Result<(), Fail> {
    let alloc = rt.alloc();
    let entry = entry_of(alloc, b"LIBA")?;
    let (mut publisher, mut viewer) = open(alloc, Hashing::fixed())?;
    let (before, published, after) = publish_one(&rt, alloc, entry, &mut publisher, &mut viewer);
    publisher.close(&rt, viewer);
    assert!(rt; before == Some((0, true)), "before it is published");
    assert!(rt; published == Some(1), "the published list");
    assert!(rt; after == Some((1, true)), "after that was told");
    Ok(())
}
