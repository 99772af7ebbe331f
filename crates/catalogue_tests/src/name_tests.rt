//! Work keys by tables of names, whose expected values another program made.
use crate::worked::edition_in;
use authority_names::name_table::NameTable;
use authority_names::refusal::NameRefusal;
use catalogue_core::catalogue::Catalogue;
use key_hashing::hashing::Hashing;
use marc_fields::decoding::{decode, is_frame};
use std::alloc::Global;
use std::str::Split;
use std::test::Fail;

mod cases;

/// Parts the cells of a case.
const CELL_END: char = '¦';

/// Ends the frame of an authority record.
const FRAME_END: char = '¶';

/// Ends a case.
const CASE_END: char = '‡';

#[test]
fn keys_by_names(rt: HostRuntime) -> Result<(), Fail> {
    let mut found: u32 = 0;
    for case in cases::KEYS.split(CASE_END) {
        if !case.is_empty() {
            assert!(rt; is_right(rt.alloc(), case)?, "{case}");
            found = found.saturating_add(1);
        }
    }
    assert_eq!(rt; found, 26);
    Ok(())
}

/// Whether the catalogue that has the names of the case gives its record the key that is expected.
fn is_right(alloc: Global, case: &str) -> Result<bool, Fail> {
    let mut cells = case.split(CELL_END);
    let key = next_cell(&mut cells)?;
    let library = next_cell(&mut cells)?;
    let edition = edition_in(alloc, library, next_cell(&mut cells)?.as_bytes())?;
    let catalogue = Catalogue::with_names(alloc, table_of(alloc, next_cell(&mut cells)?)?)?;
    Ok(catalogue.key_of(alloc, &edition)?.bytes() == key.as_bytes())
}

fn next_cell<'a>(cells: &mut Split<'a, char>) -> Result<&'a str, Fail> {
    Ok(cells.next().ok_or("a cell")?)
}

/// The table of the records in these frames, without those that it refuses.
fn table_of(alloc: Global, frames: &str) -> Result<NameTable, Fail> {
    let mut table = NameTable::empty(alloc, Hashing::fixed());
    for frame in frames.split(FRAME_END) {
        if !frame.is_empty() {
            add(alloc, &mut table, frame.as_bytes())?;
        }
    }
    Ok(table)
}

fn add(alloc: Global, table: &mut NameTable, frame: &[u8]) -> Result<(), Fail> {
    if !is_frame(frame) {
        return Err(Fail::new("no frame"));
    }
    let rec = decode(alloc, frame)?;
    match table.add(alloc, &rec) {
        Err(NameRefusal::Memory) => Err(Fail::new("no memory")),
        _ => Ok(()),
    }
}
