//! A catalogue over some turns of one record each.
ghost use Rattle.std.specs.Prelude.{◌≡◌, ◌<◌};

use crate::edition_tests::{is_named, resolved};
use crate::worked::{ADDED, BLUE, BRIDGE, RED, batch_of_one, library_of};
use catalogue_core::catalogue::Catalogue;
use catalogue_core::edition::Edition;
use catalogue_core::op::Op;
use catalogue_core::outcome::Outcome;
use key_hashing::hashing::Hashing;
use merge_laws::steps::Steps;
use std::alloc::Global;
use std::marker::Brand;
use std::sync::ledger::{Blank, Ledger};
use std::test::Fail;
use union_base::bytes::Bytes;
use union_base::record_id::RecordId;

/// The record `id` again: corrected, and withdrawn.
pub const CORRECTED: &[u8] =
    b"00187cam a2200097 a 4500001000600000008004100006245000800047700001300055710000900068711001200077\x1E  id \x1E240101s1999    xx                  eng d\x1E00\x1FaCat\x1E1 \x1FaZed, Zoe\x1E2 \x1FaAcme\x1E2 \x1FaMeeting\x1E\x1D";

pub const WITHDRAWN: &[u8] =
    b"00187dam a2200097 a 4500001000600000008004100006245000800047700001300055710000900068711001200077\x1E  id \x1E240101s1999    xx                  eng d\x1E00\x1FaCat\x1E1 \x1FaZed, Zoe\x1E2 \x1FaAcme\x1E2 \x1FaMeeting\x1E\x1D";

/// The record `b1` withdrawn.
pub const BLUE_WITHDRAWN: &[u8] =
    b"00181dam a2200085 a 4500001000300000008004100003020002200044100001400066245001500080\x1Eb1\x1E240101s1991    xx                  eng d\x1E  \x1Fa978-0-306-40615-7\x1E1 \x1FaHill, Ann\x1E00\x1FaBlue ships\x1E\x1D";

/// Applies the turn of one record, and answers what came of it.
fn apply_one<L: Ledger>(
    alloc: Global,
    catalogue: &mut Catalogue,
    frame: &[u8],
    steps: &mut Steps<L>,
) -> Result<Outcome, Fail> {
    let batch = batch_of_one(alloc, "LIBA", frame)?;
    let found = catalogue.apply(alloc, 7, batch, steps)?;
    Ok(*found.as_slice().first().ok_or("an outcome")?)
}

/// The id of that record of LIBA.
fn id_of(alloc: Global, control: &[u8]) -> Result<RecordId, Fail> {
    Ok(RecordId {
        library: library_of("LIBA")?,
        control: Bytes::of(alloc, control)?,
    })
}

/// Whether the catalogue's editions are these, by their contributors.
fn meets(alloc: Global, catalogue: &Catalogue, editions: &[Edition]) -> Result<bool, Fail> {
    let found = catalogue.editions(alloc)?;
    for (place, edition) in editions.iter().enumerate() {
        match found.as_slice().get(place) {
            Some(beside) => {
                let same = beside.contributors().as_slice() == edition.contributors().as_slice();
                if !same {
                    return Ok(false);
                }
            }
            None => return Ok(false),
        }
    }
    Ok(found.len() == editions.len())
}

/// What comes of a load, a correction and a withdrawal of one record, and of a second withdrawal.
fn load_correct_withdraw<L: Ledger>(alloc: Global, blank: Blank) -> Result<bool, Fail>
    requires name { blank.name ≡ L.name }
    requires parts { blank.parts ≡ L.parts }
    requires some { 0 < L.parts }
{
    let mut steps: Steps<L> = Steps::open(blank);
    let mut catalogue = Catalogue::empty(alloc, Hashing::fixed())?;
    let turns: [(&[u8], Outcome, u64); 4] = [
        (ADDED, Outcome::Added, 1),
        (CORRECTED, Outcome::Replaced, 1),
        (WITHDRAWN, Outcome::Removed, 0),
        (WITHDRAWN, Outcome::Absent, 0),
    ];
    for (frame, outcome, records) in turns {
        let found = apply_one(alloc, &mut catalogue, frame, &mut steps)?;
        if found != outcome
            || catalogue.record_count() != records
            || catalogue.edition_count() != records
        {
            return Ok(false);
        }
    }
    Ok(catalogue.turns() == 4)
}

#[test]
fn one_record_over_its_life(rt: HostRuntime) -> Result<(), Fail> {
    assert!(rt; load_correct_withdraw::<Brand>(rt.alloc(), Blank::new(1))?);
    Ok(())
}

/// Three records that are one edition, of which the middle one goes: after each turn the editions are those to which the
/// current records resolve.
fn bridge_goes<L: Ledger>(alloc: Global, blank: Blank) -> Result<Catalogue, Fail>
    requires name { blank.name ≡ L.name }
    requires parts { blank.parts ≡ L.parts }
    requires some { 0 < L.parts }
{
    let mut steps: Steps<L> = Steps::open(blank);
    let mut catalogue = Catalogue::empty(alloc, Hashing::fixed())?;
    let turns: [(&[u8], u64, &[&[u8]]); 4] = [
        (RED, 1, &[RED]),
        (BLUE, 1, &[RED, BLUE]),
        (BRIDGE, 1, &[RED, BLUE, BRIDGE]),
        (BLUE_WITHDRAWN, 2, &[RED, BRIDGE]),
    ];
    for (frame, count, current) in turns {
        apply_one(alloc, &mut catalogue, frame, &mut steps)?;
        let editions = resolved(alloc, "LIBA", current)?;
        if catalogue.edition_count() != count || !meets(alloc, &catalogue, &editions)? {
            let wrong: Result<Catalogue, &str> = Err("other editions");
            return Ok(wrong?);
        }
    }
    Ok(catalogue)
}

#[test]
fn bridge_that_goes(rt: HostRuntime) -> Result<(), Fail> {
    let catalogue = bridge_goes::<Brand>(rt.alloc(), Blank::new(1))?;
    let gone = id_of(rt.alloc(), b"b1")?;
    assert!(rt; catalogue.holder(&gone).is_none() && catalogue.base(&gone).is_none());
    let left = id_of(rt.alloc(), b"c1")?;
    let holder = catalogue.holder(&left).ok_or("an edition")?;
    let base = catalogue.base(&left).ok_or("a record")?;
    assert!(rt; is_named(holder, b"c1") && is_named(base, b"c1"));
    Ok(())
}

#[test]
fn last_turn(rt: HostRuntime) -> Result<(), Fail> {
    let catalogue = bridge_goes::<Brand>(rt.alloc(), Blank::new(1))?;
    let turns = catalogue.turns();
    assert!(rt; turns == 4);
    let entry = catalogue.entry(3);
    assert!(rt;
        entry.pass == 7 && matches!(entry.batch.ops.as_slice().first(), Some(Op::Withdraw(_)))
    );
    Ok(())
}
