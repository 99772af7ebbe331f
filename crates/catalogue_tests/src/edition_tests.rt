//! Editions of worked records, alone and resolved.
ghost use Rattle.std.specs.Prelude.{◌≡◌, ◌<◌};

use crate::worked::{ADDED, BLUE, BRIDGE, RED, edition_in, record_in};
use authority_names::name_table::NameTable;
use catalogue_core::edition::Edition;
use catalogue_core::ordering::sorted_by_least;
use catalogue_core::records::control_of;
use catalogue_core::work_key::work_key_of;
use field_merge::content::Content;
use key_hashing::hashing::Hashing;
use match_features::keys::FeatureKey;
use merge_laws::join::Join;
use merge_laws::resolvable::Resolvable;
use merge_laws::steps::Steps;
use merge_laws::swoosh::resolve_plain;
use std::alloc::Global;
use std::marker::Brand;
use std::sync::ledger::{Blank, Ledger};
use std::test::Fail;
use union_base::memory::Memory;

/// Records without names, with one ISBN in its two forms; the last is of another type.
const TEN: &[u8] =
    b"00141nam a2200073 a 4500001000300000008004100003020001500044245000800059\x1Er1\x1E240101s1999    xx                  eng d\x1E  \x1Fa0306406152\x1E00\x1FaCat\x1E\x1D";

const THIRTEEN: &[u8] =
    b"00148nam a2200073 a 4500001000300000008004100003020002200044245000800066\x1Er2\x1E240101s1999    xx                  eng d\x1E  \x1Fa978-0-306-40615-7\x1E00\x1FaCat\x1E\x1D";

const OTHER_TYPE: &[u8] =
    b"00148nim a2200073 a 4500001000300000008004100003020002200044245000800066\x1Er2\x1E240101s1999    xx                  eng d\x1E  \x1Fa978-0-306-40615-7\x1E00\x1FaCat\x1E\x1D";

/// A full record, and a later one that is less full and has a 240.
pub const FULL: &[u8] =
    b"00170nam a2200085 a 4500001000300000005001700003008004100020020001500061245000800076\x1Ex1\x1E20200101000000.0\x1E240101s1999    xx                  eng d\x1E  \x1Fa0306406152\x1E00\x1FaCat\x1E\x1D";

pub const LATER: &[u8] =
    b"00195nam a22000977a 4500001000300000005001700003008004100020020001500061240000900076245001200085\x1Ey1\x1E20240101000000.0\x1E240101s2001    xx                  eng d\x1E  \x1Fa0306406152\x1E10\x1FaCats\x1E04\x1FaThe cat\x1E\x1D";

/// What the editions resolve to, in order, in a ledger of their own.
fn resolved_by<L: Ledger>(editions: Vec<Edition>, blank: Blank) -> Result<Vec<Edition>, Memory>
    requires name { blank.name ≡ L.name }
    requires parts { blank.parts ≡ L.parts }
    requires some { 0 < L.parts }
{
    let mut steps: Steps<L> = Steps::open(blank);
    sorted_by_least(resolve_plain(editions, &mut steps)?)
}

/// What the library's records resolve to, in order.
pub fn resolved(alloc: Global, library: &str, frames: &[&[u8]]) -> Result<Vec<Edition>, Fail> {
    let mut editions = Vec::new(alloc);
    for frame in frames {
        editions.push(edition_in(alloc, library, frame)?)?;
    }
    Ok(resolved_by::<Brand>(editions, Blank::new(1))?)
}

/// Whether the edition's least contributor is that record of the library LIBA.
pub fn is_named(edition: &Edition, control: &[u8]) -> bool {
    let id = edition.least();
    id.library.bytes() == b"LIBA".as_slice() && id.control.bytes() == control
}

/// Whether the edition has that work key.
fn has_key(alloc: Global, edition: &Edition, key: &[u8]) -> Result<bool, Fail> {
    let names = NameTable::empty(alloc, Hashing::fixed());
    Ok(work_key_of(alloc, &names, edition)?.bytes() == key)
}

/// Whether the content is made of `records` records, with `united` united fields, and has the fixed part of the record `best`.
fn is_made_of(content: &Content, records: usize, united: usize, best: &[u8]) -> bool {
    content.contributors.as_slice().len() == records
        && content.united.as_slice().len() == united
        && content.fixed.rank.parts().control.bytes() == best
}

/// Whether the three records come to one edition, which is named by the first of them and shows the last.
fn bridges(alloc: Global, order: &[&[u8]]) -> Result<bool, Fail> {
    let found = resolved(alloc, "LIBA", order)?;
    let edition = found.as_slice().first().ok_or("an edition")?;
    let shown = edition.content(alloc)?;
    Ok(
        found.len() == 1
            && is_named(edition, b"a1")
            && is_made_of(shown.content(), 3, 2, b"c1")
            && has_key(alloc, edition, b"hill, ann/red ships")?,
    )
}

#[test]
fn bridge_in_every_order(rt: HostRuntime) -> Result<(), Fail> {
    let orders: [[&[u8]; 3]; 6] = [
        [RED, BLUE, BRIDGE],
        [RED, BRIDGE, BLUE],
        [BLUE, RED, BRIDGE],
        [BLUE, BRIDGE, RED],
        [BRIDGE, RED, BLUE],
        [BRIDGE, BLUE, RED],
    ];
    for order in orders {
        assert!(rt; bridges(rt.alloc(), &order)?);
    }
    Ok(())
}

/// How many editions the records of LIBA come to.
fn count_of(alloc: Global, frames: &[&[u8]]) -> Result<usize, Fail> {
    Ok(resolved(alloc, "LIBA", frames)?.len())
}

#[test]
fn matching_records(rt: HostRuntime) -> Result<(), Fail> {
    assert_eq!(rt; count_of(rt.alloc(), &[RED, BRIDGE])?, 2);
    assert_eq!(rt; count_of(rt.alloc(), &[TEN, THIRTEEN])?, 1);
    assert_eq!(rt; count_of(rt.alloc(), &[TEN, OTHER_TYPE])?, 2);
    Ok(())
}

#[test]
fn least_first(rt: HostRuntime) -> Result<(), Fail> {
    let found = resolved(rt.alloc(), "LIBA", &[BRIDGE, RED])?;
    let first = found.as_slice().first().ok_or("an edition")?;
    assert!(rt; is_named(first, b"a1"));
    Ok(())
}

/// What a full record and a later one that is less full merge to.
fn full_and_later(alloc: Global) -> Result<Edition, Fail> {
    let full = edition_in(alloc, "LIBA", FULL)?;
    merged_with_later(alloc, &full)
}

fn merged_with_later(alloc: Global, full: &Edition) -> Result<Edition, Fail> {
    let later = edition_in(alloc, "LIBB", LATER)?;
    Ok(later.joined(alloc, full)?)
}

#[test]
fn better_rank(rt: HostRuntime) -> Result<(), Fail> {
    let merge = full_and_later(rt.alloc())?;
    assert!(rt; is_named(&merge, b"x1"));
    let shown = merge.content(rt.alloc())?;
    assert!(rt; is_made_of(shown.content(), 2, 1, b"x1"));
    assert!(rt; shown.content().f240.is_some());
    assert!(rt; has_key(rt.alloc(), &merge, b"cat///LIBA.x1")?);
    Ok(())
}

#[test]
fn keys_of_a_record(rt: HostRuntime) -> Result<(), Fail> {
    let edition = edition_in(rt.alloc(), "LIBA", TEN)?;
    let keys = edition.index_keys(rt.alloc())?;
    let isbn = FeatureKey::Isbn(*b"9780306406157");
    assert!(rt; keys.len() == 3 && keys.as_slice().contains(&isbn));
    Ok(())
}

#[test]
fn copy_of_an_edition(rt: HostRuntime) -> Result<(), Fail> {
    let edition = edition_in(rt.alloc(), "LIBA", TEN)?;
    let copy = edition.copied(rt.alloc())?;
    let shown = copy.content(rt.alloc())?;
    assert!(rt; is_named(&copy, b"r1") && is_made_of(shown.content(), 1, 1, b"r1"));
    Ok(())
}

#[test]
fn added_entries(rt: HostRuntime) -> Result<(), Fail> {
    let edition = edition_in(rt.alloc(), "LIBA", ADDED)?;
    assert!(rt; has_key(rt.alloc(), &edition, b"cat//acme")?);
    assert!(rt; is_named(&edition, b"id"));
    Ok(())
}

#[test]
fn number_between_blanks(rt: HostRuntime) -> Result<(), Fail> {
    let rec = record_in(rt.alloc(), ADDED)?;
    assert_eq!(rt; control_of(rt.alloc(), &rec)?.bytes(), b"id".as_slice());
    Ok(())
}
