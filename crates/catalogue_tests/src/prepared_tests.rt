//! What a batch leaves of its loads, and prepared batches beside the same batches as they are.
ghost use Rattle.std.specs.Prelude.{◌≡◌, ◌<◌, ◌≤◌, length, IfOk};

use crate::comparing_tests::{Delivery, batch_of, op_of, same, same_works};
use crate::worked::library_of;
use catalogue_core::batch::Batch;
use catalogue_core::catalogue::Catalogue;
use catalogue_core::edition::Edition;
use catalogue_core::laws::sorted_resolution_is_ordered;
use catalogue_core::net::net;
use catalogue_core::ordering::sorted_by_least;
use catalogue_core::outcome::Outcome;
use catalogue_core::prepared::Prepared;
use key_hashing::hashing::Hashing;
use merge_laws::steps::Steps;
use merge_laws::swoosh::resolve_plain;
use std::alloc::Global;
use std::marker::Brand;
use std::sync::ledger::{Blank, Ledger};
use std::test::Fail;
use union_base::memory::Memory;

/// The load of a record with these two system numbers and the title of its number.
fn load(number: u64, first: u64, second: u64) -> Delivery {
    Delivery {
        number,
        first,
        second,
        title: number,
        withdrawn: false,
    }
}

/// The load of a record with that title.
fn load_titled(number: u64, title: u64) -> Delivery {
    Delivery {
        number,
        first: number,
        second: number,
        title,
        withdrawn: false,
    }
}

/// The withdrawal of a record.
fn withdrawal(number: u64) -> Delivery {
    Delivery {
        number,
        first: number,
        second: number,
        title: number,
        withdrawn: true,
    }
}

/// The batch of the library LIBA with operations for these deliveries.
fn batch_with(alloc: Global, deliveries: &[Delivery]) -> Result<Batch, Fail>
    requires some { 1 ≤ length deliveries.now }
    requires few { length deliveries.now ≤ 256 }
{
    let code = library_of("LIBA")?;
    let mut ops = Vec::new(alloc);
    for delivery in deliveries {
        ops.push(op_of(alloc, &code, *delivery)?)?;
    }
    Ok(Batch::of(code, ops))
}

/// Whether the editions are those of records of these control numbers and titles, in this order.
fn are_those_of(editions: &[Edition], records: &[(&[u8; 4], &[u8; 5])]) -> bool {
    if editions.len() != records.len() {
        return false;
    }
    for (edition, (control, title)) in editions.iter().zip(records) {
        if edition.least().control.bytes() != control.as_slice()
            || !has_title(edition, title.as_slice())
        {
            return false;
        }
    }
    true
}

/// Whether the edition has this title alone, in normal form.
fn has_title(edition: &Edition, title: &[u8]) -> bool {
    match edition.features().titles.as_slice() {
        [only] => only.bytes() == title,
        _ => false,
    }
}

/// Loaded once; loaded again; loaded and withdrawn; withdrawn and loaded; withdrawn alone.
#[test]
fn what_a_batch_leaves(rt: HostRuntime) -> Result<(), Fail> {
    let deliveries = [
        load_titled(4, 40),
        load_titled(3, 30),
        load_titled(2, 20),
        withdrawal(1),
        withdrawal(2),
        load_titled(3, 31),
        load_titled(1, 10),
        withdrawal(5),
    ];
    let batch = batch_with(rt.alloc(), &deliveries)?;
    let left = net(rt.alloc(), &batch)?;
    let records = [
        (b"0001", b"t0010"),
        (b"0003", b"t0031"),
        (b"0004", b"t0040"),
    ];
    assert!(rt; are_those_of(&left, &records));
    Ok(())
}

#[test]
fn batch_that_leaves_nothing(rt: HostRuntime) -> Result<(), Fail> {
    let batch = batch_with(rt.alloc(), &[load_titled(1, 10), withdrawal(1)])?;
    assert!(rt; net(rt.alloc(), &batch)?.is_empty());
    Ok(())
}

/// The batch, with what it leaves of its loads resolved among themselves.
fn prepared<L: Ledger>(
    alloc: Global,
    batch: Batch,
    steps: &mut Steps<L>,
) -> Result<Prepared, Memory>
    ensures { IfOk result (λ prepared. prepared ≡ batch) }
{
    sorted_resolution_is_ordered();
    let left = net(alloc, &batch)?;
    let resolved = resolve_plain(left, steps)?;
    let parts = sorted_by_least(resolved)?;
    Ok(Prepared::of(batch, parts))
}

/// Whether the editions are the same, place by place, and have as many records as `sizes` says.
fn same_editions(
    alloc: Global,
    one: &[&Edition],
    other: &[&Edition],
    sizes: &[usize],
) -> Result<bool, Memory> {
    for (place, edition) in one.iter().enumerate() {
        let beside = match other.get(place) {
            Some(beside) => Some(*beside),
            None => None,
        };
        if !same(alloc, Some(*edition), beside)? {
            return Ok(false);
        }
        if sizes.get(place) != Some(&edition.contributors().as_slice().len()) {
            return Ok(false);
        }
    }
    Ok(one.len() == other.len() && one.len() == sizes.len())
}

/// A turn of the library LIBA: its operations, what comes of them, and how many records each edition has then.
#[derive(Clone, Copy)]
struct Turn<'a> {
    deliveries: [Delivery; 3],
    outcomes: [Outcome; 3],
    sizes: &'a [usize],
}

/// Applies the turn's batch to the one, and prepared to the other. Whether the expected came of it in both.
fn apply_both<L: Ledger>(
    alloc: Global,
    one: &mut Catalogue,
    other: &mut Catalogue,
    turn: &Turn,
    steps: &mut Steps<L>,
) -> Result<bool, Fail> {
    let batch = prepared(alloc, batch_of(alloc, 0, &turn.deliveries)?, steps)?;
    let found = one.apply(alloc, 7, batch_of(alloc, 0, &turn.deliveries)?, steps)?;
    let beside = other.apply_prepared(alloc, 7, batch, steps)?;
    Ok(
        found.as_slice() == turn.outcomes.as_slice()
            && beside.as_slice() == turn.outcomes.as_slice()
            && same_editions(
                alloc,
                one.editions(alloc)?.as_slice(),
                other.editions(alloc)?.as_slice(),
                turn.sizes,
            )?
            && same_works(one.works(alloc)?.works(), other.works(alloc)?.works())
            && one.record_count() == other.record_count()
            && one.turns() == other.turns(),
    )
}

/// Whether what is expected of the two turns comes, of batches as they are and of prepared ones.
fn come_true<L: Ledger>(alloc: Global, turns: &[Turn; 2], blank: Blank) -> Result<bool, Fail>
    requires name { blank.name ≡ L.name }
    requires parts { blank.parts ≡ L.parts }
    requires some { 0 < L.parts }
{
    let mut steps: Steps<L> = Steps::open(blank);
    let mut one = Catalogue::empty(alloc, Hashing::fixed())?;
    let mut other = Catalogue::empty(alloc, Hashing::fixed())?;
    one.keep_works(alloc)?;
    for turn in turns {
        if !apply_both(alloc, &mut one, &mut other, turn, &mut steps)? {
            return Ok(false);
        }
    }
    Ok(one.turns() == 2)
}

/// Three records of which the middle one brings the others together.
fn chain() -> Turn<'static> {
    Turn {
        deliveries: [load(1, 10, 11), load(2, 11, 12), load(3, 12, 13)],
        outcomes: [Outcome::Added, Outcome::Added, Outcome::Added],
        sizes: &[3],
    }
}

/// Three records that share nothing.
fn strangers() -> Turn<'static> {
    Turn {
        deliveries: [load(1, 10, 11), load(2, 20, 21), load(3, 30, 31)],
        outcomes: [Outcome::Added, Outcome::Added, Outcome::Added],
        sizes: &[1, 1, 1],
    }
}

#[test]
fn prepared_batch_that_replaces(rt: HostRuntime) -> Result<(), Fail> {
    let replacing = Turn {
        deliveries: [load(2, 20, 21), load(4, 40, 21), withdrawal(9)],
        outcomes: [Outcome::Replaced, Outcome::Added, Outcome::Absent],
        sizes: &[1, 2, 1],
    };
    assert!(rt; come_true::<Brand>(rt.alloc(), &[chain(), replacing], Blank::new(1))?);
    Ok(())
}

#[test]
fn prepared_batch_that_removes(rt: HostRuntime) -> Result<(), Fail> {
    let removing = Turn {
        deliveries: [withdrawal(2), load(2, 11, 12), withdrawal(2)],
        outcomes: [Outcome::Removed, Outcome::Added, Outcome::Removed],
        sizes: &[1, 1],
    };
    assert!(rt; come_true::<Brand>(rt.alloc(), &[chain(), removing], Blank::new(1))?);
    Ok(())
}

#[test]
fn prepared_batch_that_merges(rt: HostRuntime) -> Result<(), Fail> {
    let merging = Turn {
        deliveries: [load(4, 11, 20), load(5, 21, 50), load(6, 50, 30)],
        outcomes: [Outcome::Added, Outcome::Added, Outcome::Added],
        sizes: &[6],
    };
    assert!(rt; come_true::<Brand>(rt.alloc(), &[strangers(), merging], Blank::new(1))?);
    Ok(())
}
