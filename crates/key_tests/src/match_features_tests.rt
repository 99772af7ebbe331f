//! Features whose expected values another program made, and worked records.
use crate::frames::{next_library, next_record};
use crate::made::{Made, is_written, makes, merge_is, merges, next_pair};
use crate::tables::{CELL_END, assert_cases, next_cell};
use match_features::control_pair::ControlPair;
use match_features::description_key::DescriptionKey;
use match_features::features::Features;
use match_features::keys::{FeatureKey, feature_keys};
use merge_laws::join::Join;
use record_features::of_record::features_of;
use std::alloc::Global;
use std::mem::size_of;
use std::str::Split;
use std::test::Fail;
use union_base::bytes::Bytes;
use union_base::copied::Copied;
use union_base::memory::Memory;

mod merged;
mod pairs;
mod records;
mod serials;
mod worked;

/// Parts the sides of a case.
const SIDE_END: char = '§';

/// Parts the records of a side.
const RECORD_END: char = '¶';

#[test]
fn features_of_records(rt: HostRuntime) -> Result<(), Fail> {
    assert_cases(&rt, rt.alloc(), records::RECORDS, 87, makes::<Features>)
}

#[test]
fn matches_of_pairs(rt: HostRuntime) -> Result<(), Fail> {
    assert_cases(&rt, rt.alloc(), pairs::PAIRS, 89, meet_or_not)
}

#[test]
fn features_of_merges(rt: HostRuntime) -> Result<(), Fail> {
    assert_cases(&rt, rt.alloc(), merged::MERGED, 64, merges::<Features>)
}

/// The number before a text is its ISBN, and a text without one gives none.
#[test]
fn isbn_in_a_text(rt: HostRuntime) -> Result<(), Fail> {
    assert_cases(&rt, rt.alloc(), worked::ISBNS, 5, makes::<Features>)
}

/// One ISBN in its two forms makes one edition of two records of one type, and of no others.
#[test]
fn isbn_with_type(rt: HostRuntime) -> Result<(), Fail> {
    assert_cases(&rt, rt.alloc(), worked::TYPES, 2, meet_or_not)
}

/// Serials, and what else has an ISSN: their lists, and the keys by which they are found.
#[test]
fn features_of_serials(rt: HostRuntime) -> Result<(), Fail> {
    assert_cases(&rt, rt.alloc(), serials::SERIALS, 48, makes::<Features>)?;
    assert_cases(&rt, rt.alloc(), serials::SERIALS, 48, has_keys)
}

/// Serials meet by ISSN and by numbers and never by title alone, and so do editions of several records.
#[test]
fn matches_of_serials(rt: HostRuntime) -> Result<(), Fail> {
    assert_cases(&rt, rt.alloc(), serials::SIDES, 61, sides_meet_or_not)
}

/// A copy has the same lists, and meets what it was copied from.
#[test]
fn copy_of_features(rt: HostRuntime) -> Result<(), Fail> {
    assert_cases(&rt, rt.alloc(), worked::OWN, 1, copy_makes)
}

/// A library's own record is found by each of its numbers, its ISBN and its title.
#[test]
fn keys_of_a_record(rt: HostRuntime) -> Result<(), Fail> {
    assert_cases(&rt, rt.alloc(), worked::OWN, 1, has_keys)
}

/// A pair has the two texts that it was made of, in its place or in a block, and is another where it is cut elsewhere.
#[test]
fn control_pairs(rt: HostRuntime) -> Result<(), Fail> {
    let alloc = rt.alloc();
    let short = ControlPair::of(alloc, b"DLC", b"75425165")?;
    assert!(rt; is_pair(&short, b"DLC", b"75425165"));
    let long = ControlPair::of(alloc, b"=LIBRARYLIBRARY7", b"123456789012345")?;
    assert!(rt; is_pair(&long, b"=LIBRARYLIBRARY7", b"123456789012345"));
    assert!(rt; short != ControlPair::of(alloc, b"DLC7", b"5425165")?);
    Ok(())
}

fn is_pair(pair: &ControlPair, source: &[u8], number: &[u8]) -> bool {
    pair.source() == source && pair.number() == number
}

/// A description has the three texts that it was made of, in its place or in a block, and is another where it is cut elsewhere
/// or has another date. It takes no more room than a pair.
#[test]
fn description_keys(rt: HostRuntime) -> Result<(), Fail> {
    let alloc = rt.alloc();
    let short = DescriptionKey::of(alloc, b"red ships", b"1990", b"hill ann")?;
    assert!(rt; is_description(&short, b"red ships", b"1990", b"hill ann"));
    let long = DescriptionKey::of(alloc, b"red ships of the sea", b"1990", b"hill ann")?;
    assert!(rt; is_description(&long, b"red ships of the sea", b"1990", b"hill ann"));
    assert!(rt; short != DescriptionKey::of(alloc, b"red ships", b"1991", b"hill ann")?);
    assert!(rt; short != DescriptionKey::of(alloc, b"red ships1", b"990h", b"ill ann")?);
    assert!(rt; size_of::<DescriptionKey>() == size_of::<ControlPair>());
    Ok(())
}

fn is_description(key: &DescriptionKey, title: &[u8], date: &[u8], name: &[u8]) -> bool {
    key.title() == title && key.date() == date && key.name() == name
}

/// Whether the two records of a case meet where that is expected, in both orders, and nowhere else.
fn meet_or_not(alloc: Global, case: &str) -> Result<bool, Fail> {
    let mut cells = case.split(CELL_END);
    let (left, right) = next_pair::<Features>(alloc, &mut cells)?;
    let met = cells.next() == Some("yes");
    Ok(left.meets(&right) == met && right.meets(&left) == met)
}

/// Whether the two sides of a case meet where that is expected, in both orders, and merge to what is expected.
fn sides_meet_or_not(alloc: Global, case: &str) -> Result<bool, Fail> {
    let mut parts = case.split(SIDE_END);
    let left = merged_side(alloc, next_cell(&mut parts)?)?;
    let right = merged_side(alloc, next_cell(&mut parts)?)?;
    let met = parts.next() == Some("yes");
    Ok(
        left.meets(&right) == met
            && right.meets(&left) == met
            && merge_is(alloc, &left, &right, parts.next())?,
    )
}

/// What the records of a side merge to.
fn merged_side(alloc: Global, side: &str) -> Result<Features, Fail> {
    let mut merged = None;
    for text in side.split(RECORD_END) {
        let made = Features::next_made(alloc, &mut text.split(CELL_END))?;
        merged = match merged {
            Some(before) => Some(Join::joined(&before, alloc, &made)?),
            None => Some(made),
        };
    }
    Ok(merged.ok_or("a side without records")?)
}

/// Whether a copy of the features of a case's record is as expected, and meets what it was copied from.
fn copy_makes(alloc: Global, case: &str) -> Result<bool, Fail> {
    let mut cells = case.split(CELL_END);
    let made = Features::next_made(alloc, &mut cells)?;
    copy_is(alloc, &made, cells.next())
}

fn copy_is(alloc: Global, made: &Features, expected: Option<&str>) -> Result<bool, Fail> {
    let copy = Join::copied(made, alloc)?;
    Ok(copy.meets(made) && is_written(alloc, &copy, expected)?)
}

/// Whether the record of a case has the keys that are expected, by copies of them.
fn has_keys(alloc: Global, case: &str) -> Result<bool, Fail> {
    let mut cells = case.split(CELL_END);
    let made = Features::next_made(alloc, &mut cells)?;
    let _lists = cells.next();
    keys_are(alloc, &made, cells.next())
}

fn keys_are(alloc: Global, made: &Features, expected: Option<&str>) -> Result<bool, Fail> {
    let mut text = Vec::new(alloc);
    push_keys(alloc, &mut text, &feature_keys(alloc, made)?)?;
    Ok(expected.is_some_and(|expected| text.as_slice() == expected.as_bytes()))
}

impl Made for Features {
    fn next_made(alloc: Global, cells: &mut Split<'_, char>) -> Result<Features, Fail> {
        let library = next_library(cells)?;
        let rec = next_record(alloc, cells)?;
        Ok(features_of(alloc, &library, &rec)?)
    }

    /// The seven lists parted by ` | `, their values by `; `, and a source in parentheses.
    fn push_to(&self, text: &mut Vec<u8>) -> Result<(), Memory> {
        push_pairs(text, self.control.as_slice())?;
        push_arrays(text, self.types.as_slice())?;
        push_arrays(text, self.isbns.as_slice())?;
        push_arrays(text, self.issns.as_slice())?;
        push_texts(text, self.titles.as_slice())?;
        push_arrays(text, self.dates.as_slice())?;
        push_texts(text, self.names.as_slice())
    }
}

fn push_pairs(text: &mut Vec<u8>, pairs: &[(Bytes, Bytes)]) -> Result<(), Memory> {
    for (place, (source, number)) in pairs.iter().enumerate() {
        push_gap(text, place)?;
        push_pair(text, source.bytes(), number.bytes())?;
    }
    Ok(())
}

fn push_arrays<const N: usize>(text: &mut Vec<u8>, values: &[[u8; N]]) -> Result<(), Memory> {
    text.extend_from_slice(b" | ")?;
    for (place, value) in values.iter().enumerate() {
        push_gap(text, place)?;
        text.extend_from_slice(value)?;
    }
    Ok(())
}

fn push_texts(text: &mut Vec<u8>, values: &[Bytes]) -> Result<(), Memory> {
    text.extend_from_slice(b" | ")?;
    for (place, value) in values.iter().enumerate() {
        push_gap(text, place)?;
        text.extend_from_slice(value.bytes())?;
    }
    Ok(())
}

/// Pushes copies of the keys.
fn push_keys(alloc: Global, text: &mut Vec<u8>, keys: &[FeatureKey]) -> Result<(), Memory> {
    for (place, key) in keys.iter().enumerate() {
        push_gap(text, place)?;
        push_key(text, &key.copied(alloc)?)?;
    }
    Ok(())
}

fn push_key(text: &mut Vec<u8>, key: &FeatureKey) -> Result<(), Memory> {
    match key {
        FeatureKey::Control(pair) => push_pair(text, pair.source(), pair.number()),
        FeatureKey::Isbn(isbn) => Ok(text.extend_from_slice(isbn)?),
        FeatureKey::Issn(issn) => Ok(text.extend_from_slice(issn)?),
        FeatureKey::Title(title) => Ok(text.extend_from_slice(title.bytes())?),
        // None of the keys that features have is one for an index alone.
        FeatureKey::Description(_) | FeatureKey::TitleOfMany(_) => Ok(()),
    }
}

fn push_pair(text: &mut Vec<u8>, source: &[u8], number: &[u8]) -> Result<(), Memory> {
    text.push(b'(')?;
    text.extend_from_slice(source)?;
    text.push(b')')?;
    text.extend_from_slice(number)?;
    Ok(())
}

/// Pushes what stands before the value at the place of a list.
fn push_gap(text: &mut Vec<u8>, place: usize) -> Result<(), Memory> {
    text.extend_from_slice(if place == 0 { b"" } else { b"; " })?;
    Ok(())
}
