//! Small sets of numbers, resolved by one worker and by several, and two lists of them resolved together.
ghost use Rattle.std.specs.Prelude.{◌≡◌, ◌<◌, ◌≤◌};

use crate::counted_sets::CountedSet;
use crate::small_sets::SmallSet;
use key_hashing::hashing::Hashing;
use merge_laws::laws::resolution_is_apart;
use merge_laws::steps::Steps;
use merge_laws::swoosh::resolve_plain;
use std::alloc::Global;
use std::cell::Cell;
use std::marker::Brand;
use std::sync::ledger::{Blank, Ledger};
use std::test::Fail;
use std::thread::Threads;
use swoosh_halves::both::resolve_both;
use swoosh_halves::halves::resolve_halves;
use union_base::memory::Memory;

/// The sets of the masks.
fn sets_of(alloc: Global, masks: &[u64]) -> Result<Vec<SmallSet>, Memory> {
    let mut sets = Vec::new(alloc);
    for mask in masks {
        if let Some(set) = SmallSet::of(*mask) {
            sets.push(set)?;
        }
    }
    Ok(sets)
}

/// The masks of the sets, in ascending order.
fn masks_of(alloc: Global, sets: &[SmallSet]) -> Result<Vec<u64>, Memory> {
    let mut masks = Vec::new(alloc);
    for set in sets {
        masks.push(set.mask())?;
    }
    masks.sort()?;
    Ok(masks)
}

/// The masks that the masks resolve to by `workers` workers, in ascending order.
fn resolved<R: Threads + Sync>(
    rt: &R,
    alloc: Global,
    masks: &[u64],
    workers: u32,
) -> Result<Vec<u64>, Memory>
    requires some { 1 ≤ workers }
    requires most { workers ≤ 64 }
{
    let sets = sets_of(alloc, masks)?;
    masks_of(
        alloc,
        resolve_halves(rt, Hashing::fixed(), sets, workers)?.as_slice(),
    )
}

/// The masks that the masks resolve to by the plain resolver, in ascending order.
fn plainly_resolved<L: Ledger>(
    alloc: Global,
    masks: &[u64],
    blank: Blank,
) -> Result<Vec<u64>, Memory>
    requires name { blank.name ≡ L.name }
    requires parts { blank.parts ≡ L.parts }
    requires some { 0 < L.parts }
{
    let mut steps: Steps<L> = Steps::open(blank);
    let sets = sets_of(alloc, masks)?;
    masks_of(alloc, resolve_plain(sets, &mut steps)?.as_slice())
}

/// `count` masks of one or two numbers, drawn one after the other.
fn drawn(alloc: Global, seed: u64, count: u64) -> Result<Vec<u64>, Memory> {
    let mut state = seed;
    let mut masks = Vec::new(alloc);
    for _ in 0..count {
        state = state
            .wrapping_mul(6364136223846793005)
            .wrapping_add(1442695040888963407);
        let (one, other) = ((state >> 33) % 64, (state >> 41) % 64);
        masks.push((1u64 << one) | (1u64 << other))?;
    }
    Ok(masks)
}

#[test]
fn any_number_of_workers(rt: HostRuntime) -> Result<(), Fail> {
    // The digits say which numbers are in a set, from 0 at the right.
    let cases: [(&[u64], &[u64]); 6] = [
        (&[0b10, 0b100, 0b110], &[0b110]),
        (&[0b110, 0b10, 0b100], &[0b110]),
        (&[0b10, 0b110, 0b100], &[0b110]),
        // Each half has parts of both blocks.
        (
            &[0b1, 0b100000, 0b10, 0b110000, 0b11, 0b1010000],
            &[0b11, 0b1110000],
        ),
        (&[0b10], &[0b10]),
        (&[], &[]),
    ];
    for (masks, want) in cases {
        for workers in 1..5 {
            assert_eq!(rt; resolved(&rt, rt.alloc(), masks, workers)?.as_slice(), want);
        }
        assert_eq!(rt; resolved(&rt, rt.alloc(), masks, 64)?.as_slice(), want);
    }
    Ok(())
}

#[test]
fn drawn_lists(rt: HostRuntime) -> Result<(), Fail> {
    // From few that meet to one that is all.
    for (seed, count) in [(1, 8), (2, 20), (3, 40), (4, 200)] {
        let masks = drawn(rt.alloc(), seed, count)?;
        let want = plainly_resolved::<Brand>(rt.alloc(), masks.as_slice(), Blank::new(1))?;
        for workers in 1..5 {
            let found = resolved(&rt, rt.alloc(), masks.as_slice(), workers)?;
            assert_eq!(rt; found.as_slice(), want.as_slice());
        }
    }
    Ok(())
}

/// A stranger, a pair, a stranger and three sets of which the last joins the two before it, among 119 sets that are one group: twenty
/// groups of five, and then a set that joins each of these groups to the next.
fn mixed(alloc: Global) -> Result<Vec<u64>, Memory> {
    let mut masks = Vec::new(alloc);
    for place in 0u64..100 {
        masks.push(1u64 << (40 + place % 20))?;
    }
    for mask in [0b1, 0b10, 0b10000, 0b100000, 0b1000, 0b110, 0b110000] {
        masks.push(mask)?;
    }
    for place in 0u64..19 {
        masks.push(3u64 << (40 + place))?;
    }
    Ok(masks)
}

#[test]
fn groups_of_many_sizes(rt: HostRuntime) -> Result<(), Fail> {
    let masks = mixed(rt.alloc())?;
    for workers in 1..5 {
        let found = resolved(&rt, rt.alloc(), masks.as_slice(), workers)?;
        assert_eq!(rt;
            found.as_slice(),
            [0b1, 0b110, 0b1000, 0b110000, 0xF_FFFF_u64 << 40].as_slice()
        );
    }
    Ok(())
}

/// Adds `count` masks of two neighbours among the ten numbers from `first` on, each such pair in turn.
fn add_pairs(masks: &mut Vec<u64>, first: u64, count: u64) -> Result<(), Memory>
    requires { first ≤ 50 }
{
    for place in 0..count {
        masks.push(3u64 << (first + place % 9))?;
    }
    Ok(())
}

#[test]
fn groups_dealt_out_to_workers(rt: HostRuntime) -> Result<(), Fail> {
    // Six groups of 180 sets each, and a stranger.
    let mut masks = Vec::new(rt.alloc());
    for _ in 0..20 {
        for ten in 0u64..6 {
            add_pairs(&mut masks, ten * 10, 9)?;
        }
    }
    masks.push(1u64 << 63)?;
    let ten = 0x3FF_u64;
    let want = [
        ten,
        ten << 10,
        ten << 20,
        ten << 30,
        ten << 40,
        ten << 50,
        1 << 63,
    ];
    for workers in [1, 2, 4, 64] {
        let found = resolved(&rt, rt.alloc(), masks.as_slice(), workers)?;
        assert_eq!(rt; found.as_slice(), want.as_slice());
    }
    Ok(())
}

#[test]
fn one_giant_group(rt: HostRuntime) -> Result<(), Fail> {
    // So large that several workers take its halves, beside a group for one.
    let mut masks = Vec::new(rt.alloc());
    add_pairs(&mut masks, 0, 1500)?;
    add_pairs(&mut masks, 10, 300)?;
    masks.push(1u64 << 63)?;
    for workers in [1, 2, 4, 64] {
        let found = resolved(&rt, rt.alloc(), masks.as_slice(), workers)?;
        assert_eq!(rt;
            found.as_slice(),
            [0x3FF, 0x3FF_u64 << 10, 1u64 << 63].as_slice()
        );
    }
    Ok(())
}

#[test]
fn strangers_alone(rt: HostRuntime) -> Result<(), Fail> {
    let mut masks = Vec::new(rt.alloc());
    for place in 0u64..64 {
        masks.push(1u64 << place)?;
    }
    for workers in [1, 4, 64] {
        let found = resolved(&rt, rt.alloc(), masks.as_slice(), workers)?;
        assert_eq!(rt; found.as_slice(), masks.as_slice());
    }
    Ok(())
}

/// The sets of the masks, with the count.
fn counted<'a>(
    alloc: Global,
    masks: &[u64],
    tests: &'a Cell<u64>,
) -> Result<Vec<CountedSet<'a>>, Memory> {
    let mut sets = Vec::new(alloc);
    for set in sets_of(alloc, masks)? {
        sets.push(CountedSet { set, tests })?;
    }
    Ok(sets)
}

/// The masks that two lists resolve to together, each resolved by itself before, in ascending order, and how many tests that takes.
fn both_by<L: Ledger>(
    alloc: Global,
    one: &[u64],
    other: &[u64],
    blank: Blank,
) -> Result<(Vec<u64>, u64), Memory>
    requires name { blank.name ≡ L.name }
    requires parts { blank.parts ≡ L.parts }
    requires some { 0 < L.parts }
{
    let mut steps: Steps<L> = Steps::open(blank);
    let tests = Cell::new(0);
    resolution_is_apart::<CountedSet>();
    let one = resolve_plain(counted(alloc, one, &tests)?, &mut steps)?;
    let other = resolve_plain(counted(alloc, other, &tests)?, &mut steps)?;
    tests.set(0);
    let mut masks = Vec::new(alloc);
    for value in resolve_both(Hashing::fixed(), one, other, &mut steps)? {
        masks.push(value.set.mask())?;
    }
    masks.sort()?;
    Ok((masks, tests.get()))
}

/// The same, in a ledger of their own.
fn both(alloc: Global, one: &[u64], other: &[u64]) -> Result<(Vec<u64>, u64), Memory> {
    both_by::<Brand>(alloc, one, other, Blank::new(1))
}

#[test]
fn two_lists_by_one_key(rt: HostRuntime) -> Result<(), Fail> {
    // All sets share a key. Where none match, the tests are the pairs of one set of each list.
    let cases: [(&[u64], &[u64], &[u64], u64); 4] = [
        (&[1, 2, 4], &[8, 16], &[1, 2, 4, 8, 16], 6),
        (&[], &[1, 2, 4], &[1, 2, 4], 0),
        (&[1, 2, 4], &[], &[1, 2, 4], 0),
        // {1, 2} is tested against {2} and {1}, and what they merge to against no other; then {3} against {1, 2}.
        (&[2, 4], &[8, 6], &[6, 8], 3),
    ];
    for (one, other, want, tests) in cases {
        let (found, made) = both(rt.alloc(), one, other)?;
        assert_eq!(rt; found.as_slice(), want);
        assert_eq!(rt; made, tests);
    }
    Ok(())
}
