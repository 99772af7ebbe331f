//! The keys of an index, for features with as many triples of a title, a date and a name as have a key each, and with more.
ghost use Rattle.std.specs.Prelude.{◌+◌, ◌≤◌, length};

use crate::frames::record_in;
use match_features::features::Features;
use match_features::keys::{FeatureKey, posted_beside, posted_keys, sought_beside, sought_keys};
use merge_laws::join::Join;
use record_features::of_record::features_of;
use std::alloc::Global;
use std::test::Fail;
use union_base::library_code::LibraryCode;
use union_base::memory::Memory;

/// A record of one name, one title and one year of the twentieth century, and the places of the digits of its year, its name
/// and its title.
const FRAME: [u8; 140] =
    *b"00140nam a2200073 a 4500001000500000008004100005100001000046245001000056\x1E0000\x1E240101s1999    xx                  eng d\x1E1 \x1FaN0000\x1E00\x1FaT0000\x1E\x1D";

const YEAR: usize = 87;

const NAME: usize = 124;

const TITLE: usize = 134;

/// Writes two digits.
fn put_digits(frame: &mut [u8], at: usize, number: u64)
    requires { at + 2 ≤ length frame.old }
{
    frame[at] = b'0' + (number / 10 % 10) as u8;
    frame[at + 1] = b'0' + (number % 10) as u8;
}

/// How many titles, dates and names features have in all; or which of each a record has.
type Sizes = (u64, u64, u64);

/// The features of the record that a library's frame spells.
fn features_in(alloc: Global, code: &str, frame: &[u8]) -> Result<Features, Fail> {
    let library = LibraryCode::read(code.as_bytes()).ok_or("a library code")?;
    let rec = record_in(alloc, frame)?;
    Ok(features_of(alloc, &library, &rec)?)
}

/// The features of a library's record of that title, that date and that name.
fn features_with(alloc: Global, code: &str, which: Sizes) -> Result<Features, Fail> {
    let (title, date, name) = which;
    let mut frame = FRAME;
    put_digits(&mut frame, YEAR, date);
    put_digits(&mut frame, NAME, name);
    put_digits(&mut frame, TITLE, title);
    features_in(alloc, code, &frame)
}

/// What records of one library merge to that have these numbers of titles, dates and names in all.
fn merged(alloc: Global, code: &str, sizes: Sizes) -> Result<Features, Fail> {
    let (titles, dates, names) = sizes;
    let mut all = features_with(alloc, code, (0, 0, 0))?;
    for place in 1..titles.max(dates).max(names) {
        let which = (
            place % titles.max(1),
            place % dates.max(1),
            place % names.max(1),
        );
        let more = features_with(alloc, code, which)?;
        all = Join::joined(&all, alloc, &more)?;
    }
    Ok(all)
}

/// How many of the keys are titles, titles with a date and a name, and titles of many.
fn kinds(keys: &[FeatureKey]) -> (usize, usize, usize) {
    let titles = keys.iter().filter(|key| is_title(key)).count();
    let triples = keys.iter().filter(|key| is_description(key)).count();
    let many = keys.iter().filter(|key| is_title_of_many(key)).count();
    (titles, triples, many)
}

/// How many of the keys are control pairs.
fn pairs(keys: &[FeatureKey]) -> usize {
    keys.iter().filter(|key| is_control(key)).count()
}

fn is_control(key: &FeatureKey) -> bool {
    matches!(key, FeatureKey::Control(_))
}

fn is_title(key: &FeatureKey) -> bool {
    matches!(key, FeatureKey::Title(_))
}

fn is_description(key: &FeatureKey) -> bool {
    matches!(key, FeatureKey::Description(_))
}

fn is_title_of_many(key: &FeatureKey) -> bool {
    matches!(key, FeatureKey::TitleOfMany(_))
}

/// Whether an index that has the one is found to have it by a key that the other seeks.
fn finds(alloc: Global, other: &Features, one: &Features) -> Result<bool, Memory> {
    let posted = posted_keys(alloc, one)?;
    let sought = sought_keys(alloc, other)?;
    Ok(sought.iter().any(|key| posted.as_slice().contains(key)))
}

/// Whether features of those sizes have a key for each of `triples` triples, in the index and to seek by.
fn have_few(alloc: Global, sizes: Sizes, triples: usize) -> Result<bool, Fail> {
    let few = merged(alloc, "LIBA", sizes)?;
    let own = sizes.0 as usize;
    let posted = kinds(posted_keys(alloc, &few)?.as_slice());
    let sought = kinds(sought_keys(alloc, &few)?.as_slice());
    Ok(posted == (own, triples, 0) && sought == (0, triples, own))
}

/// Whether features of those sizes are in the index under their titles as those of many, and seek by their titles alone.
fn have_many(alloc: Global, sizes: Sizes) -> Result<bool, Fail> {
    let many = merged(alloc, "LIBA", sizes)?;
    let own = sizes.0 as usize;
    let posted = kinds(posted_keys(alloc, &many)?.as_slice());
    let sought = kinds(sought_keys(alloc, &many)?.as_slice());
    Ok(posted == (own, 0, own) && sought == (own, 0, 0))
}

#[test]
fn keys_under_the_bound(rt: HostRuntime) -> Result<(), Fail> {
    assert!(rt; have_few(rt.alloc(), (1, 1, 1), 1)?);
    for sizes in [
        (7, 3, 3),
        (3, 7, 3),
        (3, 3, 7),
        (63, 1, 1),
        (1, 63, 1),
        (1, 1, 63),
    ] {
        assert!(rt; have_few(rt.alloc(), sizes, 63)?);
    }
    Ok(())
}

#[test]
fn keys_at_the_bound(rt: HostRuntime) -> Result<(), Fail> {
    for sizes in [
        (4, 4, 4),
        (8, 1, 8),
        (2, 32, 1),
        (64, 1, 1),
        (1, 64, 1),
        (1, 1, 64),
    ] {
        assert!(rt; have_few(rt.alloc(), sizes, 64)?);
    }
    Ok(())
}

#[test]
fn keys_over_the_bound(rt: HostRuntime) -> Result<(), Fail> {
    for sizes in [
        (5, 13, 1),
        (13, 1, 5),
        (1, 5, 13),
        (65, 1, 1),
        (1, 65, 1),
        (1, 1, 65),
    ] {
        assert!(rt; have_many(rt.alloc(), sizes)?);
    }
    Ok(())
}

#[test]
fn keys_without_a_date(rt: HostRuntime) -> Result<(), Fail> {
    // Of the year `19uu`.
    let mut frame = FRAME;
    frame[YEAR] = b'u';
    frame[YEAR + 1] = b'u';
    let without = features_in(rt.alloc(), "LIBA", &frame)?;
    assert!(rt; kinds(posted_keys(rt.alloc(), &without)?.as_slice()) == (1, 0, 0));
    assert!(rt; kinds(sought_keys(rt.alloc(), &without)?.as_slice()) == (0, 0, 1));
    Ok(())
}

#[test]
fn found_at_the_bound(rt: HostRuntime) -> Result<(), Fail> {
    // All have the title 0, the date 0 and the name 0, and no number in common.
    let sizes = [
        (1, 1, 1),
        (7, 3, 3),
        (4, 4, 4),
        (5, 13, 1),
        (1, 5, 13),
        (65, 1, 1),
    ];
    for size in sizes {
        let one = merged(rt.alloc(), "LIBA", size)?;
        for more in sizes {
            let other = merged(rt.alloc(), "LIBB", more)?;
            assert!(rt; one.meets(&other) && finds(rt.alloc(), &one, &other)?);
        }
    }
    Ok(())
}

/// Whether the records of two libraries neither meet nor find one another.
fn are_apart(alloc: Global, one: Sizes, other: Sizes) -> Result<bool, Fail> {
    let one = features_with(alloc, "LIBA", one)?;
    let other = features_with(alloc, "LIBB", other)?;
    Ok(!one.meets(&other) && !finds(alloc, &one, &other)? && !finds(alloc, &other, &one)?)
}

#[test]
fn others_of_a_title_are_not_found(rt: HostRuntime) -> Result<(), Fail> {
    assert!(rt; are_apart(rt.alloc(), (1, 1, 1), (1, 1, 2))?);
    Ok(())
}

#[test]
fn other_dates_of_a_title_and_name_are_not_found(rt: HostRuntime) -> Result<(), Fail> {
    assert!(rt; are_apart(rt.alloc(), (1, 1, 1), (1, 2, 1))?);
    Ok(())
}

/// The kinds of the keys under which features of those sizes are posted beside others. None where these have what the first have not.
fn kinds_beside(
    alloc: Global,
    sizes: Sizes,
    base: Sizes,
) -> Result<Option<(usize, usize, usize)>, Fail> {
    let all = merged(alloc, "LIBA", sizes)?;
    let base = merged(alloc, "LIBA", base)?;
    match posted_beside(alloc, &all, &base)? {
        Some(keys) => Ok(Some(kinds(keys.as_slice()))),
        None => Ok(None),
    }
}

#[test]
fn keys_beside_those_of_others(rt: HostRuntime) -> Result<(), Fail> {
    let cases: [(Sizes, Sizes, Option<(usize, usize, usize)>); 9] = [
        ((1, 1, 1), (1, 1, 1), Some((0, 0, 0))),
        ((2, 1, 1), (1, 1, 1), Some((1, 1, 0))),
        ((1, 2, 1), (1, 1, 1), Some((0, 1, 0))),
        ((1, 1, 2), (1, 1, 1), Some((0, 1, 0))),
        ((4, 4, 4), (2, 2, 2), Some((2, 56, 0))),
        ((65, 13, 1), (5, 13, 1), Some((60, 0, 60))),
        // The others have a title or a date more.
        ((1, 1, 1), (2, 1, 1), None),
        ((65, 1, 1), (5, 13, 1), None),
        // Few triples there and many here.
        ((5, 13, 1), (1, 1, 1), None),
    ];
    for (sizes, base, want) in cases {
        assert_eq!(rt; kinds_beside(rt.alloc(), sizes, base)?, want);
    }
    Ok(())
}

#[test]
fn control_pairs_beside_those_of_others(rt: HostRuntime) -> Result<(), Fail> {
    let base = features_with(rt.alloc(), "LIBA", (0, 0, 0))?;
    let more = features_with(rt.alloc(), "LIBB", (0, 0, 0))?;
    let both = Join::joined(&base, rt.alloc(), &more)?;
    let posted = posted_beside(rt.alloc(), &both, &base)?.ok_or("no keys")?;
    assert!(rt; pairs(posted.as_slice()) == 1 && posted.len() == 1);
    assert_eq!(rt; pairs(sought_keys(rt.alloc(), &both)?.as_slice()), 2);
    let sought = sought_beside(rt.alloc(), &both, &base)?;
    assert!(rt; pairs(sought.as_slice()) == 1 && kinds(sought.as_slice()) == (0, 1, 1));
    Ok(())
}
