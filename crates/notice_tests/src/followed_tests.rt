//! Followers of drawn histories hold the catalogue's editions after each turn: one that takes the deltas, and one that reads the
//! text of the notices.
ghost use Rattle.std.specs.Prelude.{◌≡◌, ◌<◌};

use crate::drawing::{Draws, batch_of};
use crate::text_follower::{TextFollower, records_of};
use catalogue_core::batch::Batch;
use catalogue_core::catalogue::Catalogue;
use catalogue_core::edition::Edition;
use change_notices::follower::Follower;
use change_notices::notice::notice;
use edition_blocks::same::is_same;
use key_hashing::hashing::Hashing;
use merge_laws::steps::Steps;
use std::alloc::Global;
use std::marker::Brand;
use std::sync::ledger::{Blank, Ledger};
use std::test::Fail;
use union_base::bytes::Bytes;

/// Whether the catalogue's editions are those of the follower, place by place.
fn holds(alloc: Global, catalogue: &Catalogue, follower: &Follower) -> Result<bool, Fail> {
    let found = catalogue.editions(alloc)?;
    let editions = follower.editions();
    for (place, edition) in editions.iter().enumerate() {
        match found.as_slice().get(place) {
            Some(beside) => {
                if !is_same(alloc, beside, edition)? {
                    return Ok(false);
                }
            }
            None => return Ok(false),
        }
    }
    Ok(found.len() == editions.len())
}

/// The name of an edition: that of its first record.
fn name_of(alloc: Global, records: &[u8]) -> Result<Bytes, Fail> {
    let mut name = Vec::new(alloc);
    for byte in records {
        if *byte == b' ' {
            break;
        }
        name.push(*byte)?;
    }
    Ok(Bytes::from(name))
}

/// Whether the reader of notices holds the edition.
fn has_edition(alloc: Global, edition: &Edition, reader: &TextFollower) -> Result<bool, Fail> {
    let records = records_of(alloc, edition)?;
    let name = name_of(alloc, records.as_slice())?;
    Ok(reader.has(&name, records.as_slice()))
}

/// Whether the reader of notices holds these editions and no others.
fn reads(alloc: Global, editions: &[Edition], reader: &TextFollower) -> Result<bool, Fail> {
    for edition in editions {
        if !has_edition(alloc, edition, reader)? {
            return Ok(false);
        }
    }
    Ok(reader.count() == editions.len())
}

/// Applies a batch, and answers whether both followers hold the catalogue's editions then.
fn turn_is_followed<L: Ledger>(
    alloc: Global,
    batch: Batch,
    catalogue: &mut Catalogue,
    steps: &mut Steps<L>,
    follower: &mut Follower,
    reader: &mut TextFollower,
) -> Result<bool, Fail> {
    let (_, delta) = catalogue.apply_told(alloc, 0, batch, steps)?;
    let lines = notice(alloc, &delta)?;
    for line in lines.as_slice() {
        reader.read(alloc, line.bytes())?;
    }
    Ok(
        follower.take(alloc, delta).is_ok()
            && holds(alloc, catalogue, follower)?
            && reads(alloc, follower.editions(), reader)?,
    )
}

/// Whether both followers hold the catalogue's editions after each of the batches, which are drawn from the seed.
fn follows<L: Ledger>(
    alloc: Global,
    seed: u64,
    numbers: u64,
    keys: u64,
    blank: Blank,
) -> Result<bool, Fail>
    requires name { blank.name ≡ L.name }
    requires parts { blank.parts ≡ L.parts }
    requires some { 0 < L.parts }
    requires numbers { 0 < numbers }
    requires few { numbers < 1000 }
    requires keys { 0 < keys }
{
    let mut steps: Steps<L> = Steps::open(blank);
    let mut catalogue = Catalogue::empty(alloc, Hashing::fixed())?;
    let mut follower = Follower::empty(alloc);
    let mut reader = TextFollower::empty(alloc);
    let mut draws = Draws { state: seed };
    for _ in 0..10 {
        let place = draws.below(3);
        let deliveries = draws.deliveries(place, numbers, keys);
        let batch = batch_of(alloc, place as usize, &deliveries)?;
        if !turn_is_followed(
            alloc,
            batch,
            &mut catalogue,
            &mut steps,
            &mut follower,
            &mut reader,
        )? {
            return Ok(false);
        }
    }
    Ok(true)
}

/// Whether both followers follow 50 histories, of which the first is drawn from that seed: from few records with many keys in common
/// to many with some.
fn follow_fifty(alloc: Global, first: u64) -> Result<bool, Fail>
    requires { first < 1000 }
{
    for seed in first..first + 50 {
        let numbers = 2 + seed % 10;
        let keys = 2 + seed % 23;
        if !follows::<Brand>(alloc, seed, numbers, keys, Blank::new(1))? {
            return Ok(false);
        }
    }
    Ok(true)
}

#[test]
fn drawn_histories(rt: HostRuntime) -> Result<(), Fail> {
    assert!(rt; follow_fifty(rt.alloc(), 0)?);
    Ok(())
}

#[test]
fn more_drawn_histories(rt: HostRuntime) -> Result<(), Fail> {
    assert!(rt; follow_fifty(rt.alloc(), 50)?);
    Ok(())
}

#[test]
fn still_more_drawn_histories(rt: HostRuntime) -> Result<(), Fail> {
    assert!(rt; follow_fifty(rt.alloc(), 100)?);
    Ok(())
}

#[test]
fn the_last_drawn_histories(rt: HostRuntime) -> Result<(), Fail> {
    assert!(rt; follow_fifty(rt.alloc(), 150)?);
    Ok(())
}
