//! The plain resolver on small sets of numbers, in every order, and against closures computed by brute force.
ghost use Rattle.std.specs.Prelude.{◌≡◌, ◌<◌};

use crate::small_sets::SmallSet;
use merge_laws::join::Join;
use merge_laws::resolvable::Resolvable;
use merge_laws::steps::Steps;
use merge_laws::swoosh::resolve_plain;
use std::alloc::Global;
use std::marker::Brand;
use std::sync::ledger::{Blank, Ledger};
use std::test::Fail;
use union_base::memory::Memory;

/// What the sets resolve to, in a ledger of their own.
fn resolved_by<L: Ledger>(sets: Vec<SmallSet>, blank: Blank) -> Result<Vec<SmallSet>, Memory>
    requires name { blank.name ≡ L.name }
    requires parts { blank.parts ≡ L.parts }
    requires some { 0 < L.parts }
{
    let mut steps: Steps<L> = Steps::open(blank);
    resolve_plain(sets, &mut steps)
}

/// The masks that the masks resolve to, in ascending order.
fn resolved(alloc: Global, masks: &[u64]) -> Result<Vec<u64>, Memory> {
    let mut sets = Vec::new(alloc);
    for mask in masks {
        if let Some(set) = SmallSet::of(*mask) {
            sets.push(set)?;
        }
    }
    let mut found = Vec::new(alloc);
    for set in resolved_by::<Brand>(sets, Blank::new(1))? {
        found.push(set.mask())?;
    }
    found.sort()?;
    Ok(found)
}

#[test]
fn resolves_in_every_order(rt: HostRuntime) -> Result<(), Fail> {
    // The digits 1 and 2 stand for the numbers 1 and 2.
    let cases: [(&[u64], &[u64]); 8] = [
        (&[2, 4], &[2, 4]),
        (&[4, 2], &[2, 4]),
        (&[2, 4, 6], &[6]),
        (&[2, 6, 4], &[6]),
        (&[4, 2, 6], &[6]),
        (&[4, 6, 2], &[6]),
        (&[6, 2, 4], &[6]),
        (&[6, 4, 2], &[6]),
    ];
    for (masks, want) in cases {
        assert_eq!(rt; resolved(rt.alloc(), masks)?.as_slice(), want);
    }
    Ok(())
}

/// A list has at most this many sets.
const MOST_SETS: u64 = 6;

/// Fewer than this many values derive from a list of `MOST_SETS` sets: each is the union of some of them, and not of
/// none.
const MOST_DERIVED: usize = 64;

/// All that derives from the masks: the closure under the union of two that meet.
fn derived(alloc: Global, masks: &[u64]) -> Result<Vec<u64>, Memory> {
    let mut values = Vec::new(alloc);
    for mask in masks {
        values.push(*mask)?;
    }
    // Each pair has its turn with its later value, and new values come last.
    for later in 0..MOST_DERIVED {
        for earlier in 0..later {
            if let (Some(a), Some(b)) = (values.get(later).copied(), values.get(earlier).copied()) {
                if a & b != 0 && !values.as_slice().contains(&(a | b)) {
                    values.push(a | b)?;
                }
            }
        }
    }
    Ok(values)
}

/// The values that no other value dominates, each once, in ascending order.
fn greatest(alloc: Global, values: &[u64]) -> Result<Vec<u64>, Memory> {
    let mut found = Vec::new(alloc);
    for r in values {
        let below = values
            .iter()
            .any(|s| s != r && *s & *r != 0 && *s | *r == *s);
        if !below && !found.as_slice().contains(r) {
            found.push(*r)?;
        }
    }
    found.sort()?;
    Ok(found)
}

/// A number below the limit, drawn by a linear congruential generator (Knuth's MMIX).
fn draw(state: &mut u64, limit: u64) -> u64
    requires { 0 < limit }
    ensures { result < limit }
{
    *state = state
        .wrapping_mul(6364136223846793005)
        .wrapping_add(1442695040888963407);
    (*state >> 33) % limit
}

#[test]
fn resolves_as_the_closure_does(rt: HostRuntime) -> Result<(), Fail> {
    let alloc = rt.alloc();
    let mut state = 28;
    for _ in 0..100 {
        let mut masks = Vec::new(alloc);
        for _ in 0..draw(&mut state, MOST_SETS + 1) {
            let one = draw(&mut state, 12);
            let other = draw(&mut state, 12);
            masks.push((1u64 << one) | (1u64 << other))?;
        }
        let values = derived(alloc, &masks)?;
        assert_eq!(rt; resolved(alloc, &masks)?, greatest(alloc, &values)?);
    }
    Ok(())
}

#[test]
fn copies_and_keys(rt: HostRuntime) -> Result<(), Fail> {
    let set = SmallSet::of(0b110).ok_or("no set")?;
    assert_eq!(rt; set.copied(rt.alloc())?.mask(), 0b110);
    let keys = set.index_keys(rt.alloc())?;
    assert_eq!(rt; keys.as_slice(), [1, 2].as_slice());
    assert!(rt; SmallSet::of(0).is_none());
    Ok(())
}
