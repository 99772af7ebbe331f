//! The gathered catalogue over worked turns, and beside the catalogue over drawn ones.
ghost use Rattle.std.specs.Prelude.{◌≡◌, ◌<◌, ◌≤◌};

use crate::comparing_tests::{Delivery, Draws, batch_of, same};
use crate::edition_tests::resolved;
use crate::history_tests::{BLUE_WITHDRAWN, CORRECTED, WITHDRAWN};
use crate::worked::{ADDED, BLUE, BRIDGE, RED, batch_of_one};
use authority_names::name_table::NameTable;
use catalogue_core::catalogue::Catalogue;
use catalogue_core::edition::Edition;
use catalogue_core::outcome::Outcome;
use gathered_catalogue::gathered::Gathered;
use key_hashing::hashing::Hashing;
use merge_laws::steps::Steps;
use std::alloc::Global;
use std::marker::Brand;
use std::sync::ledger::{Blank, Ledger};
use std::test::Fail;
use std::thread::Threads;
use union_base::memory::Memory;

/// A gathered catalogue without history and without names.
fn nothing(alloc: Global) -> Gathered {
    Gathered::with_names(alloc, NameTable::empty(alloc, Hashing::fixed()))
}

/// Whether the editions are the same, place by place.
fn same_places(alloc: Global, one: &[Edition], other: &[Edition]) -> Result<bool, Memory> {
    for (place, edition) in one.iter().enumerate() {
        if !same(alloc, Some(edition), other.get(place))? {
            return Ok(false);
        }
    }
    Ok(one.len() == other.len())
}

/// A turn of one record: what comes of it, how many editions there are then, and which records are current.
#[derive(Clone, Copy)]
struct Turn<'a> {
    frame: &'a [u8],
    outcome: Outcome,
    editions: usize,
    current: &'a [&'a [u8]],
}

/// Whether what is expected of the turn comes, by so many workers.
fn comes_true<R: Threads + Sync>(
    rt: &R,
    alloc: Global,
    gathered: &mut Gathered,
    turn: &Turn,
    workers: u32,
) -> Result<bool, Fail>
    requires some { 1 ≤ workers }
    requires most { workers ≤ 64 }
{
    let found = gathered.apply(alloc, 7, batch_of_one(alloc, "LIBA", turn.frame)?)?;
    let editions = gathered.editions(rt, alloc, workers)?;
    let expected = resolved(alloc, "LIBA", turn.current)?;
    Ok(
        found.as_slice().first() == Some(&turn.outcome)
            && editions.len() == turn.editions
            && same_places(alloc, &editions, &expected)?,
    )
}

/// Whether what is expected of each turn comes: two records are one edition, a third one joins them, the middle one is loaded
/// again and goes, twice; and one record that has nothing in common with them comes, is corrected and goes.
fn turns_come_true<R: Threads + Sync>(rt: &R, alloc: Global, workers: u32) -> Result<bool, Fail>
    requires some { 1 ≤ workers }
    requires most { workers ≤ 64 }
{
    let turns: [(&[u8], Outcome, usize, &[&[u8]]); 9] = [
        (RED, Outcome::Added, 1, &[RED]),
        (BLUE, Outcome::Added, 1, &[RED, BLUE]),
        (BRIDGE, Outcome::Added, 1, &[RED, BLUE, BRIDGE]),
        (BLUE, Outcome::Replaced, 1, &[RED, BLUE, BRIDGE]),
        (BLUE_WITHDRAWN, Outcome::Removed, 2, &[RED, BRIDGE]),
        (BLUE_WITHDRAWN, Outcome::Absent, 2, &[RED, BRIDGE]),
        (ADDED, Outcome::Added, 3, &[RED, BRIDGE, ADDED]),
        (CORRECTED, Outcome::Replaced, 3, &[RED, BRIDGE, CORRECTED]),
        (WITHDRAWN, Outcome::Removed, 2, &[RED, BRIDGE]),
    ];
    let mut gathered = nothing(alloc);
    for (frame, outcome, editions, current) in turns {
        let turn = Turn {
            frame,
            outcome,
            editions,
            current,
        };
        if !comes_true(rt, alloc, &mut gathered, &turn, workers)? {
            return Ok(false);
        }
    }
    let turns = gathered.turns();
    let left = gathered.into_resolved(rt, alloc, workers)?;
    let expected = resolved(alloc, "LIBA", &[RED, BRIDGE])?;
    Ok(turns == 9 && same_places(alloc, left.editions(), &expected)?)
}

#[test]
fn gathered_turns_by_one_worker(rt: HostRuntime) -> Result<(), Fail> {
    assert!(rt; turns_come_true(&rt, rt.alloc(), 1)?);
    Ok(())
}

#[test]
fn gathered_turns_by_four_workers(rt: HostRuntime) -> Result<(), Fail> {
    assert!(rt; turns_come_true(&rt, rt.alloc(), 4)?);
    Ok(())
}

#[test]
fn nothing_gathered(rt: HostRuntime) -> Result<(), Fail> {
    let editions = nothing(rt.alloc()).editions(&rt, rt.alloc(), 2)?;
    assert!(rt; editions.is_empty());
    Ok(())
}

/// Whether the editions are those of the catalogue, place by place.
fn same_as_standing(
    alloc: Global,
    catalogue: &Catalogue,
    editions: &[Edition],
) -> Result<bool, Memory> {
    let standing = catalogue.editions(alloc)?;
    for (place, edition) in editions.iter().enumerate() {
        let beside = match standing.as_slice().get(place) {
            Some(beside) => Some(*beside),
            None => None,
        };
        if !same(alloc, Some(edition), beside)? {
            return Ok(false);
        }
    }
    Ok(editions.len() == standing.len())
}

/// Applies the batch to both. Whether the same came of it.
fn apply_both<L: Ledger>(
    alloc: Global,
    catalogue: &mut Catalogue,
    gathered: &mut Gathered,
    place: usize,
    deliveries: &[Delivery; 3],
    steps: &mut Steps<L>,
) -> Result<bool, Fail> {
    let one = catalogue.apply(alloc, 3, batch_of(alloc, place, deliveries)?, steps)?;
    let other = gathered.apply(alloc, 3, batch_of(alloc, place, deliveries)?)?;
    Ok(one.as_slice() == other.as_slice())
}

/// Whether the two agree after drawn batches of three libraries with `numbers` numbers and system numbers out of `keys`. The editions
/// are compared after every fourth turn, each time by another number of workers.
fn agree<R: Threads + Sync, L: Ledger>(
    rt: &R,
    alloc: Global,
    numbers: u64,
    keys: u64,
    blank: Blank,
) -> Result<bool, Fail>
    requires name { blank.name ≡ L.name }
    requires parts { blank.parts ≡ L.parts }
    requires some { 0 < L.parts }
    requires numbers { 0 < numbers }
    requires few { numbers < 1000 }
    requires keys { 0 < keys }
{
    let mut steps: Steps<L> = Steps::open(blank);
    let mut catalogue = Catalogue::empty(alloc, Hashing::fixed())?;
    let mut gathered = nothing(alloc);
    let mut draws = Draws { state: keys };
    for turn in 0..60 {
        let place = draws.below(3);
        let deliveries = [
            draws.delivery(place % 3, numbers, keys),
            draws.delivery(place % 3, numbers, keys),
            draws.delivery(place % 3, numbers, keys),
        ];
        let same = apply_both(
            alloc,
            &mut catalogue,
            &mut gathered,
            place as usize,
            &deliveries,
            &mut steps,
        )?;
        if !same {
            return Ok(false);
        }
        if turn % 4 == 0 {
            let editions = gathered.editions(rt, alloc, 1 + turn % 5)?;
            if !same_as_standing(alloc, &catalogue, &editions)? {
                return Ok(false);
            }
        }
    }
    Ok(catalogue.turns() == gathered.turns())
}

#[test]
fn gathered_beside_standing(rt: HostRuntime) -> Result<(), Fail> {
    // Few records with many keys in common, many with some, and large editions.
    for (numbers, keys) in [(4, 6), (20, 60), (20, 2)] {
        assert!(rt; agree::<HostRuntime, Brand>(&rt, rt.alloc(), numbers, keys, Blank::new(1))?);
    }
    Ok(())
}
