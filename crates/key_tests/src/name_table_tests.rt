//! Tables of names whose expected values another program made, and the laws.
use authority_names::laws::{any_order, least_used_is_least, one_size, seen_once};
use authority_names::name_table::NameTable;
use authority_names::refusal::NameRefusal;
use key_hashing::hashing::Hashing;
use marc_fields::decoding::{decode, is_frame};
use marc_parts::marc_record::Record;
use std::alloc::Global;
use std::str::Split;
use std::test::Fail;
use union_base::bytes::Bytes;

mod cases;

/// Parts the cells of a case.
const CELL_END: char = '¦';

/// Parts the items of a cell.
const ITEM_END: char = '¶';

/// Parts the two sides of an item.
const SIDE_END: char = '§';

/// Ends a case.
const CASE_END: char = '‡';

/// Stands before a frame in hex.
const HEX: &str = "#";

#[test]
fn tables_of_records(rt: HostRuntime) -> Result<(), Fail> {
    let mut found: u32 = 0;
    for case in cases::NAMES.split(CASE_END) {
        if !case.is_empty() {
            assert!(rt; is_right(rt.alloc(), case)?, "{case}");
            found = found.saturating_add(1);
        }
    }
    assert_eq!(rt; found, 79);
    Ok(())
}

#[test]
fn laws(_rt: HostRuntime) -> Result<(), Fail> {
    seen_once();
    any_order();
    one_size();
    least_used_is_least();
    Ok(())
}

/// Whether the table of a case answers its records as expected, has that many headings, and shows what is expected.
fn is_right(alloc: Global, case: &str) -> Result<bool, Fail> {
    let mut cells = case.split(CELL_END);
    let mut table = NameTable::empty(alloc, Hashing::fixed());
    if !adds(alloc, &mut table, next_cell(&mut cells)?)? {
        return Ok(false);
    }
    let pairs = next_cell(&mut cells)?.parse::<u64>().ok();
    Ok(pairs == Some(table.pairs()) && shows(alloc, &table, next_cell(&mut cells)?)?)
}

fn next_cell<'a>(cells: &mut Split<'a, char>) -> Result<&'a str, Fail> {
    Ok(cells.next().ok_or("a cell")?)
}

/// Adds the records, and answers whether each is answered as expected.
fn adds(alloc: Global, table: &mut NameTable, records: &str) -> Result<bool, Fail> {
    for item in records.split(ITEM_END) {
        if !item.is_empty() {
            let (expected, frame) = item.split_once(SIDE_END).ok_or("a frame")?;
            let rec = record_of(alloc, frame)?;
            if answer_name(table.add(alloc, &rec)) != expected {
                return Ok(false);
            }
        }
    }
    Ok(true)
}

/// The record that the frame spells.
fn record_of(alloc: Global, cell: &str) -> Result<Record, Fail> {
    match cell.strip_prefix(HEX) {
        Some(digits) => {
            let Ok(frame) = hex::decode(alloc, digits) else {
                return Err(Fail::new("no digits"));
            };
            read(alloc, frame.as_slice())
        }
        None => read(alloc, cell.as_bytes()),
    }
}

fn read(alloc: Global, frame: &[u8]) -> Result<Record, Fail> {
    if is_frame(frame) {
        return Ok(decode(alloc, frame)?);
    }
    Err(Fail::new("no frame"))
}

fn answer_name(answer: Result<(), NameRefusal>) -> &'static str {
    match answer {
        Ok(()) => "ok",
        Err(NameRefusal::Kind) => "Kind",
        Err(NameRefusal::Coding) => "Coding",
        Err(NameRefusal::NotUtf8) => "NotUtf8",
        Err(NameRefusal::Heading) => "Heading",
        Err(NameRefusal::Memory) => "Memory",
    }
}

/// Whether the table shows what is expected from each heading.
fn shows(alloc: Global, table: &NameTable, headings: &str) -> Result<bool, Fail> {
    for item in headings.split(ITEM_END) {
        if !item.is_empty() {
            let (name, expected) = item.split_once(SIDE_END).ok_or("a heading")?;
            let name = Bytes::of(alloc, name.as_bytes())?;
            if table.see(&name) != expected.as_bytes() {
                return Ok(false);
            }
        }
    }
    Ok(true)
}
