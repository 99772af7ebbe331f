//! Small sets of numbers, inserted and taken apart.
ghost use Rattle.std.specs.Prelude.{◌≡◌, ◌<◌};

use crate::small_sets::SmallSet;
use key_hashing::hashing::Hashing;
use merge_laws::laws::resolution_is_apart;
use merge_laws::steps::Steps;
use merge_laws::swoosh::resolve_plain;
use std::alloc::Global;
use std::marker::Brand;
use std::sync::ledger::{Blank, Ledger};
use std::test::Fail;
use swoosh_resolver::blocks::Blocks;
use swoosh_resolver::change::Place;
use union_base::memory::Memory;

/// The sets of the masks. A mask of no number has none.
fn sets_of(alloc: Global, masks: &[u64]) -> Result<Vec<SmallSet>, Memory> {
    let mut sets = Vec::new(alloc);
    for mask in masks {
        if let Some(set) = SmallSet::of(*mask) {
            sets.push(set)?;
        }
    }
    Ok(sets)
}

/// The masks of the blocks under the first numbers, in ascending order.
fn masks_of(alloc: Global, blocks: &Blocks<SmallSet>) -> Result<Vec<u64>, Memory> {
    let mut found = Vec::new(alloc);
    for number in 0..8 {
        if let Some(set) = blocks.block(number) {
            found.push(set.mask())?;
        }
    }
    found.sort()?;
    Ok(found)
}

/// Inserts the sets of the masks, each by a change of its own.
fn insert<L: Ledger>(
    alloc: Global,
    blocks: &mut Blocks<SmallSet>,
    masks: &[u64],
    steps: &mut Steps<L>,
) -> Result<(), Memory> {
    for set in sets_of(alloc, masks)? {
        let change = blocks.plan_insert(alloc, blocks.start(), set, steps)?;
        let ready = blocks.make_room(alloc, change)?;
        blocks.install(ready);
    }
    Ok(())
}

/// Takes the block under the number apart, where there is no other, into what the sets of the masks resolve to.
fn split_alone<L: Ledger>(
    alloc: Global,
    blocks: &mut Blocks<SmallSet>,
    number: u64,
    masks: &[u64],
    steps: &mut Steps<L>,
) -> Result<(), Memory> {
    resolution_is_apart::<SmallSet>();
    let parts = resolve_plain(sets_of(alloc, masks)?, steps)?;
    if blocks.count() == 1 && blocks.block(number).is_some() {
        let change = blocks.plan_split(alloc, blocks.start(), Place::Kept(number), parts)?;
        let ready = blocks.make_room(alloc, change)?;
        blocks.install(ready);
    }
    Ok(())
}

/// The masks of the blocks that the sets come to, when the one block under number 0 is taken apart, and more sets inserted.
fn changed_by<L: Ledger>(
    alloc: Global,
    first: &[u64],
    parts: &[u64],
    more: &[u64],
    blank: Blank,
) -> Result<Vec<u64>, Memory>
    requires name { blank.name ≡ L.name }
    requires parts { blank.parts ≡ L.parts }
    requires some { 0 < L.parts }
{
    let mut steps: Steps<L> = Steps::open(blank);
    let mut blocks = Blocks::empty(alloc, Hashing::fixed());
    insert(alloc, &mut blocks, first, &mut steps)?;
    if !parts.is_empty() {
        split_alone(alloc, &mut blocks, 0, parts, &mut steps)?;
    }
    insert(alloc, &mut blocks, more, &mut steps)?;
    masks_of(alloc, &blocks)
}

/// The same, in a ledger of their own.
fn changed(alloc: Global, first: &[u64], parts: &[u64], more: &[u64]) -> Result<Vec<u64>, Memory> {
    changed_by::<Brand>(alloc, first, parts, more, Blank::new(1))
}

#[test]
fn inserts_in_every_order(rt: HostRuntime) -> Result<(), Fail> {
    // The digits 1 and 2 stand for the numbers 1 and 2.
    let cases: [(&[u64], &[u64]); 9] = [
        (&[2, 4], &[2, 4]),
        (&[4, 2], &[2, 4]),
        (&[2, 4, 6], &[6]),
        (&[2, 6, 4], &[6]),
        (&[4, 2, 6], &[6]),
        (&[4, 6, 2], &[6]),
        (&[6, 2, 4], &[6]),
        (&[6, 4, 2], &[6]),
        (&[2, 8, 32, 10, 64], &[10, 32, 64]),
    ];
    for (masks, want) in cases {
        assert_eq!(rt; changed(rt.alloc(), masks, &[], &[])?.as_slice(), want);
    }
    Ok(())
}

#[test]
fn splits_and_inserts_more(rt: HostRuntime) -> Result<(), Fail> {
    // {1} grows to {1, 2} under 0, which goes: it held {1} and {2} together. Then sets come that have a number of one part, of each,
    // or of none.
    let cases: [(&[u64], &[u64]); 5] = [
        (&[], &[2, 4]),
        (&[8], &[2, 4, 8]),
        (&[10], &[4, 10]),
        (&[12], &[2, 12]),
        (&[10, 12], &[14]),
    ];
    for (more, want) in cases {
        assert_eq!(rt;
            changed(rt.alloc(), &[2, 6, 4], &[2, 4], more)?.as_slice(),
            want
        );
    }
    Ok(())
}

/// Inserts three sets by one change, the last of which has a number of each of the others, and answers the number that the
/// one block gets, with its mask, as it stands in the change and as it stands in the blocks.
fn inserted_together<L: Ledger>(
    alloc: Global,
    blank: Blank,
) -> Result<Option<(u64, u64, u64)>, Fail>
    requires name { blank.name ≡ L.name }
    requires parts { blank.parts ≡ L.parts }
    requires some { 0 < L.parts }
{
    let mut steps: Steps<L> = Steps::open(blank);
    let mut blocks: Blocks<SmallSet> = Blocks::empty(alloc, Hashing::fixed());
    let mut change = blocks.start();
    for mask in [2, 4, 6] {
        let set = SmallSet::of(mask).ok_or("no set")?;
        change = blocks.plan_insert(alloc, change, set, &mut steps)?;
    }
    let planned = blocks
        .member(&change, Place::Fresh(0))
        .ok_or("no member")?
        .mask();
    let ready = blocks.make_room(alloc, change)?;
    let numbers = ready.numbers.as_slice().to_vec(alloc)?;
    blocks.install(ready);
    match blocks.with_key(&1).first() {
        Some(number) if numbers.as_slice() == [*number].as_slice() => Ok(
            blocks
                .block(*number)
                .map(|set: &SmallSet| (*number, planned, set.mask())),
        ),
        _ => Ok(None),
    }
}

/// The same, in a ledger of its own.
fn together(alloc: Global) -> Result<Option<(u64, u64, u64)>, Fail> {
    inserted_together::<Brand>(alloc, Blank::new(1))
}

#[test]
fn inserts_together(rt: HostRuntime) -> Result<(), Fail> {
    assert_eq!(rt; together(rt.alloc())?, Some((0, 6, 6)));
    Ok(())
}

/// The masks of the blocks under the first numbers, in the order of these: 0 where no block stands.
fn masks_by_number(alloc: Global, blocks: &Blocks<SmallSet>) -> Result<Vec<u64>, Memory> {
    let mut masks = Vec::new(alloc);
    for number in 0..3 {
        match blocks.block(number) {
            Some(set) => masks.push(set.mask())?,
            None => masks.push(0)?,
        }
    }
    Ok(masks)
}

/// The numbers of the blocks that are found by each of the keys, one key after the other.
fn found_by(alloc: Global, blocks: &Blocks<SmallSet>, keys: &[u32]) -> Result<Vec<u64>, Memory> {
    let mut found = Vec::new(alloc);
    for key in keys {
        found.extend_from_slice(blocks.with_key(key))?;
    }
    Ok(found)
}

/// Inserts the sets of the masks by one change.
fn insert_together<L: Ledger>(
    alloc: Global,
    blocks: &mut Blocks<SmallSet>,
    masks: &[u64],
    steps: &mut Steps<L>,
) -> Result<(), Memory> {
    let mut change = blocks.start();
    for set in sets_of(alloc, masks)? {
        change = blocks.plan_insert(alloc, change, set, steps)?;
    }
    let ready = blocks.make_room(alloc, change)?;
    blocks.install(ready);
    Ok(())
}

/// The masks under the first numbers, once sets are inserted, each by a change of its own, and then more by one change; and the
/// numbers that are found by the keys.
fn grown_by<L: Ledger>(
    alloc: Global,
    masks: &[u64],
    together: &[u64],
    keys: &[u32],
    blank: Blank,
) -> Result<(Vec<u64>, Vec<u64>), Memory>
    requires name { blank.name ≡ L.name }
    requires parts { blank.parts ≡ L.parts }
    requires some { 0 < L.parts }
{
    let mut steps: Steps<L> = Steps::open(blank);
    let mut blocks = Blocks::empty(alloc, Hashing::fixed());
    insert(alloc, &mut blocks, masks, &mut steps)?;
    insert_together(alloc, &mut blocks, together, &mut steps)?;
    let stand = masks_by_number(alloc, &blocks)?;
    let found = found_by(alloc, &blocks, keys)?;
    Ok((stand, found))
}

/// The same, in a ledger of their own.
fn grown(
    alloc: Global,
    masks: &[u64],
    together: &[u64],
    keys: &[u32],
) -> Result<(Vec<u64>, Vec<u64>), Memory> {
    grown_by::<Brand>(alloc, masks, together, keys, Blank::new(1))
}

#[test]
fn block_grows_under_its_number(rt: HostRuntime) -> Result<(), Fail> {
    // A case has the sets that come, what stands under 0, 1 and 2 then, and the numbers that are found by keys. {5} and {1, 2} come
    // first. Then {2, 3} and {3, 4} grow the block under 1, and {6, 7} comes between them. The block is found by its oldest number, 1,
    // and by its newest.
    let cases: [(&[u64], &[u64], &[u32], &[u64]); 5] = [
        (&[32, 6], &[32, 6, 0], &[1, 2, 3], &[1, 1]),
        (&[32, 6, 12], &[32, 14, 0], &[1, 3, 4], &[1, 1]),
        (&[32, 6, 12, 192], &[32, 14, 192], &[1, 3, 6], &[1, 1, 2]),
        (
            &[32, 6, 12, 192, 24],
            &[32, 30, 192],
            &[1, 2, 3, 4],
            &[1, 1, 1, 1],
        ),
        // What it has already adds nothing to it.
        (
            &[32, 6, 12, 192, 24, 10],
            &[32, 30, 192],
            &[1, 3, 4, 5],
            &[1, 1, 1, 0],
        ),
    ];
    for (masks, want, keys, numbers) in cases {
        let (stand, found) = grown(rt.alloc(), masks, &[], keys)?;
        assert_eq!(rt; stand.as_slice(), want);
        assert_eq!(rt; found.as_slice(), numbers);
    }
    Ok(())
}

#[test]
fn larger_block_keeps_its_number(rt: HostRuntime) -> Result<(), Fail> {
    // {1} and {2, 3, 4} stand under 0 and 1, or the other way round, and {1, 2} joins them: {2, 3, 4} keeps its number.
    let cases: [(&[u64], &[u64], &[u64], &[u32], &[u64]); 7] = [
        (&[2, 28, 6], &[], &[0, 30, 0], &[1, 4], &[1, 1]),
        (&[28, 2, 6], &[], &[30, 0, 0], &[1, 4], &[0, 0]),
        // A later change does not give the number again that went to nobody.
        (&[2, 28, 6, 32], &[], &[0, 30, 32], &[1, 4, 5], &[1, 1, 2]),
        // The change that takes the number from its block gives it to {5}.
        (&[2, 28], &[6, 32], &[32, 30, 0], &[1, 4, 5], &[1, 1, 0]),
        (&[28, 2], &[32, 6], &[30, 32, 0], &[1, 4, 5], &[0, 0, 1]),
        // {1, 5} finds what {1, 2} has joined by the number of the block that went.
        (&[2, 28], &[6, 34], &[0, 62, 0], &[1, 4, 5], &[1, 1, 1]),
        // {1, 5} and {4, 6} grow both blocks, and then {5, 6} joins what they have grown to.
        (
            &[2, 28],
            &[34, 80, 96],
            &[0, 126, 0],
            &[1, 4, 5, 6],
            &[1, 1, 1, 1],
        ),
    ];
    for (masks, together, want, keys, numbers) in cases {
        let (stand, found) = grown(rt.alloc(), masks, together, keys)?;
        assert_eq!(rt; stand.as_slice(), want);
        assert_eq!(rt; found.as_slice(), numbers);
    }
    Ok(())
}

#[test]
fn block_grows_twice_in_a_change(rt: HostRuntime) -> Result<(), Fail> {
    // {1, 2} stands under 1, and {2, 3} grows it. Then a set finds what it has grown to by a number of the block, by one that the
    // change adds, by both, or does not find it.
    let cases: [(&[u64], &[u64], &[u32], &[u64]); 4] = [
        (&[12, 18], &[32, 30, 0], &[1, 3, 4], &[1, 1, 1]),
        (&[12, 24], &[32, 30, 0], &[1, 3, 4], &[1, 1, 1]),
        (&[12, 26], &[32, 30, 0], &[1, 3, 4], &[1, 1, 1]),
        (&[12, 16], &[32, 14, 16], &[1, 3, 4], &[1, 1, 2]),
    ];
    for (together, want, keys, numbers) in cases {
        let (stand, found) = grown(rt.alloc(), &[32, 6], together, keys)?;
        assert_eq!(rt; stand.as_slice(), want);
        assert_eq!(rt; found.as_slice(), numbers);
    }
    Ok(())
}
