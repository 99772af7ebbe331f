//! Blocks of small sets of numbers from which one set went.
ghost use Rattle.std.specs.Prelude.{◌≡◌, ◌<◌};

use crate::small_sets::SmallSet;
use cluster_reopen::laws::{resolution_in_any_order, rest_is_resolved, split_view_is_resolved};
use cluster_reopen::parts::reopen;
use merge_laws::steps::Steps;
use std::alloc::Global;
use std::marker::Brand;
use std::sync::ledger::{Blank, Ledger};
use std::test::Fail;
use union_base::memory::Memory;

/// The parts of what is left, in a ledger of their own.
fn reopened_by<L: Ledger>(left: Vec<SmallSet>, blank: Blank) -> Result<Vec<SmallSet>, Memory>
    requires name { blank.name ≡ L.name }
    requires parts { blank.parts ≡ L.parts }
    requires some { 0 < L.parts }
{
    let mut steps: Steps<L> = Steps::open(blank);
    reopen(left, &mut steps)
}

/// The masks of the parts of the sets with these masks, in ascending order.
fn reopened(alloc: Global, masks: &[u64]) -> Result<Vec<u64>, Memory> {
    let mut left = Vec::new(alloc);
    for mask in masks {
        if let Some(set) = SmallSet::of(*mask) {
            left.push(set)?;
        }
    }
    let mut parts = Vec::new(alloc);
    for part in reopened_by::<Brand>(left, Blank::new(1))? {
        parts.push(part.mask())?;
    }
    parts.sort()?;
    Ok(parts)
}

#[test]
fn what_is_left(rt: HostRuntime) -> Result<(), Fail> {
    // The digits say which numbers are in a set, from 0 at the right.
    let cases: [(&[u64], &[u64]); 5] = [
        // {1, 2} went, and held {1} and {2} together.
        (&[0b10, 0b100], &[0b10, 0b100]),
        // {3, 4} went, the middle of a chain from {1, 2} to {5, 6}.
        (&[0b110, 0b1100, 0b110000, 0b1100000], &[0b1110, 0b1110000]),
        // {1, 2} went, the end of a chain, and one block is left.
        (&[0b1100, 0b11000], &[0b11100]),
        (&[0b110], &[0b110]),
        (&[], &[]),
    ];
    for (left, parts) in cases {
        assert_eq!(rt; reopened(rt.alloc(), left)?.as_slice(), parts);
    }
    Ok(())
}

#[test]
fn laws_are_called(_rt: HostRuntime) -> Result<(), Fail> {
    rest_is_resolved::<SmallSet>();
    split_view_is_resolved::<SmallSet>();
    resolution_in_any_order::<SmallSet>();
    Ok(())
}
