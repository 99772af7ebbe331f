//! Preferences, contents and merges whose expected values another program made, and classes.

use crate::frames::{next_library, next_preference, next_record};
use crate::made::{Made, makes, merges, merges_three};
use crate::tables::{CELL_END, assert_cases, next_cell};
use field_merge::content::Content;
use field_merge::fixed::Fixed;
use field_merge::making::content_of;
use field_merge::preference::Preference;
use field_merge::rank::{Rank, RankParts, STAMP_SIZE, class_of};
use field_merge::slot::Slot;
use marc_leader::codes::LeaderCodes;
use std::alloc::Global;
use std::mem::size_of;
use std::str::Split;
use std::test::Fail;
use union_base::bytes::Bytes;
use union_base::field::Field;
use union_base::library_code::LibraryCode;
use union_base::memory::Memory;

mod cases;
mod preferences;

#[test]
fn contents_of_records(rt: HostRuntime) -> Result<(), Fail> {
    assert_cases(&rt, rt.alloc(), cases::RECORDS, 121, makes::<Content>)
}

#[test]
fn merges_of_contents(rt: HostRuntime) -> Result<(), Fail> {
    assert_cases(&rt, rt.alloc(), cases::MERGES, 65, merges::<Content>)
}

#[test]
fn texts_of_preferences(rt: HostRuntime) -> Result<(), Fail> {
    assert!(rt; Preference::read(b"LIBA,\xFF").is_none());
    assert_cases(&rt, rt.alloc(), preferences::TEXTS, 48, reads_preference)
}

#[test]
fn contents_by_preference(rt: HostRuntime) -> Result<(), Fail> {
    assert_cases(&rt, rt.alloc(), preferences::RECORDS, 10, makes::<Content>)
}

#[test]
fn merges_by_preference(rt: HostRuntime) -> Result<(), Fail> {
    assert_cases(&rt, rt.alloc(), preferences::PAIRS, 45, merges::<Content>)?;
    assert_cases(
        &rt,
        rt.alloc(),
        preferences::TRIPLES,
        30,
        merges_three::<Content>,
    )
}

/// Whether the text of a case is read as a preference in which the libraries have these levels, or as none where `-` stands.
fn reads_preference(_alloc: Global, case: &str) -> Result<bool, Fail> {
    let mut cells = case.split(CELL_END);
    let read = Preference::read(next_cell(&mut cells)?.as_bytes());
    match read {
        Some(preference) => has_levels(&preference, &mut cells),
        None => Ok(next_cell(&mut cells)? == "-"),
    }
}

/// Whether the libraries of the cells have the levels in the cells after them, one at least.
fn has_levels(preference: &Preference, cells: &mut Split<'_, char>) -> Result<bool, Fail> {
    let mut agrees = false;
    for _ in 0..u64::MAX {
        match cells.next() {
            Some(text) => {
                let library = LibraryCode::read(text.as_bytes()).ok_or("a library code")?;
                let level: u8 = next_cell(cells)?.parse()?;
                if preference.level(&library) != level {
                    return Ok(false);
                }
                agrees = true;
            }
            None => return Ok(agrees),
        }
    }
    Ok(false)
}

/// The level takes a byte that the other parts leave free.
#[test]
fn level_takes_no_room(rt: HostRuntime) {
    let without = size_of::<(u8, [u8; STAMP_SIZE], LibraryCode, Bytes)>();
    assert_eq!(rt; size_of::<RankParts>(), without);
}

#[test]
fn classes_of_encoding_levels(rt: HostRuntime) {
    let classes = [
        (b' ', 9),
        (b'1', 8),
        (b'I', 8),
        (b'4', 7),
        (b'2', 6),
        (b'7', 5),
        (b'K', 5),
        (b'3', 4),
        (b'5', 3),
        (b'8', 2),
        (b'M', 2),
        (b'u', 1),
        (b'z', 0),
        (b'0', 0),
        (b'i', 0),
    ];
    for (level, class) in classes {
        assert_eq!(rt; class_of(level), class);
    }
}

impl Made for Content {
    fn next_made(alloc: Global, cells: &mut Split<'_, char>) -> Result<Content, Fail> {
        let prefer = next_preference(cells)?;
        let library = next_library(cells)?;
        let rec = next_record(alloc, cells)?;
        Ok(content_of(alloc, &prefer, &library, rec)?)
    }

    /// Line by line.
    fn push_to(&self, text: &mut Vec<u8>) -> Result<(), Memory> {
        for id in self.contributors.as_slice() {
            push_id(text, id.library.bytes(), id.control.bytes())?;
            text.push(b'\n')?;
        }
        push_fixed(text, &self.fixed)?;
        for slot in [&self.f005, &self.f010, &self.f040, &self.f1xx, &self.f240] {
            push_slot(text, &self.fixed.rank, slot.as_ref())?;
        }
        push_slot(text, &self.fixed.rank, Some(&self.f245))?;
        for field in self.united.as_slice() {
            push_field(text, field)?;
            text.push(b'\n')?;
        }
        Ok(())
    }
}

fn push_fixed(text: &mut Vec<u8>, fixed: &Fixed) -> Result<(), Memory> {
    push_rank(text, &fixed.rank)?;
    text.push(b'\n')?;
    push_codes(text, &fixed.codes)?;
    text.extend_from_slice(fixed.text.bytes())?;
    text.push(b'\n')?;
    Ok(())
}

fn push_slot(text: &mut Vec<u8>, rank: &Rank, slot: Option<&Slot>) -> Result<(), Memory> {
    match slot {
        Some(slot) => {
            push_field(text, &slot.field)?;
            if slot.rank != *rank {
                text.push(b'\x1E')?;
                push_rank(text, &slot.rank)?;
            }
        }
        None => text.push(b'-')?,
    }
    text.push(b'\n')?;
    Ok(())
}

fn push_field(text: &mut Vec<u8>, field: &Field) -> Result<(), Memory> {
    text.extend_from_slice(&field.tag)?;
    text.extend_from_slice(field.body.spelling())?;
    Ok(())
}

fn push_rank(text: &mut Vec<u8>, rank: &Rank) -> Result<(), Memory> {
    let parts = rank.parts();
    push_level(text, parts.level)?;
    text.push(parts.class.saturating_add(b'0'))?;
    text.push(b' ')?;
    text.extend_from_slice(&parts.stamp)?;
    text.push(b' ')?;
    push_id(text, parts.library.bytes(), parts.control.bytes())
}

/// In two digits, and nothing for 0.
fn push_level(text: &mut Vec<u8>, level: u8) -> Result<(), Memory> {
    if level > 0 {
        text.push(level / 10 + b'0')?;
        text.push(level % 10 + b'0')?;
        text.push(b' ')?;
    }
    Ok(())
}

fn push_id(text: &mut Vec<u8>, library: &[u8], control: &[u8]) -> Result<(), Memory> {
    text.extend_from_slice(library)?;
    text.push(b'.')?;
    text.extend_from_slice(control)?;
    Ok(())
}

fn push_codes(text: &mut Vec<u8>, codes: &LeaderCodes) -> Result<(), Memory> {
    let bytes = [
        codes.status,
        codes.kind,
        codes.level,
        codes.control,
        codes.coding,
        codes.encoding,
        codes.form,
        codes.part,
        codes.last,
        b'\n',
    ];
    text.extend_from_slice(&bytes)?;
    Ok(())
}
