//! Keys whose expected values another program made.
use isbn_keys::control::{pair, system_number};
use isbn_keys::isbn::isbn;
use isbn_keys::issn::issn;
use isbn_keys::lccn::lccn;
use std::alloc::Global;
use std::process::Abort;
use std::test::Fail;
use union_base::bytes::Bytes;
use union_base::memory::Memory;

mod cases;

const LINE_END: u8 = b'\n';

const CELL_END: u8 = b'|';

#[test]
fn isbns(rt: HostRuntime) -> Result<(), Fail> {
    assert_lines(&rt, rt.alloc(), cases::ISBNS, 69, has_isbn)
}

#[test]
fn issns(rt: HostRuntime) -> Result<(), Fail> {
    assert_lines(&rt, rt.alloc(), cases::ISSNS, 41, has_issn)
}

#[test]
fn lccns(rt: HostRuntime) -> Result<(), Fail> {
    assert_lines(&rt, rt.alloc(), cases::LCCNS, 48, has_lccn)
}

#[test]
fn pairs(rt: HostRuntime) -> Result<(), Fail> {
    assert_lines(&rt, rt.alloc(), cases::PAIRS, 64, makes_pair)
}

#[test]
fn system_numbers(rt: HostRuntime) -> Result<(), Fail> {
    assert_lines(&rt, rt.alloc(), cases::SYSTEM_NUMBERS, 54, has_pair)
}

/// Asserts that the table has `count` lines, and that each is right, by its first cell and what stands after it.
fn assert_lines<F: Fn(Global, &[u8], &[u8]) -> Result<bool, Memory>>(
    rt: &impl Abort,
    alloc: Global,
    table: &[u8],
    count: u32,
    is_right: F,
) -> Result<(), Fail>
    requires { F.IsAlwaysCallable is_right }
{
    let mut found: u32 = 0;
    for line in table.split(|b| *b == LINE_END) {
        if let Some((cell, rest)) = cut(line) {
            assert!(rt; is_right(alloc, cell, rest)?, "{found}");
            found = found.saturating_add(1);
        }
    }
    assert_eq!(rt; found, count);
    Ok(())
}

/// What stands before the first end of a cell, and what stands after it.
fn cut(line: &[u8]) -> Option<(&[u8], &[u8])> {
    let mut cells = line.splitn(2, |b| *b == CELL_END);
    Some((cells.next()?, cells.next()?))
}

fn has_isbn(_alloc: Global, text: &[u8], key: &[u8]) -> Result<bool, Memory> {
    Ok(match isbn(text) {
        Some(digits) => digits.as_slice() == key,
        None => key.is_empty(),
    })
}

fn has_issn(_alloc: Global, text: &[u8], key: &[u8]) -> Result<bool, Memory> {
    Ok(match issn(text) {
        Some(characters) => characters.as_slice() == key,
        None => key.is_empty(),
    })
}

fn has_lccn(alloc: Global, text: &[u8], key: &[u8]) -> Result<bool, Memory> {
    Ok(match lccn(alloc, text)? {
        Some(made) => made.bytes() == key,
        None => key.is_empty(),
    })
}

fn makes_pair(alloc: Global, source: &[u8], cells: &[u8]) -> Result<bool, Memory> {
    let Some((number, key)) = cut(cells) else {
        return Ok(false);
    };
    Ok(is_pair(&pair(alloc, source, number)?, key))
}

fn has_pair(alloc: Global, text: &[u8], key: &[u8]) -> Result<bool, Memory> {
    Ok(is_pair(&system_number(alloc, text)?, key))
}

/// Whether the key has the two cells, or is none where both are empty.
fn is_pair(key: &Option<(Bytes, Bytes)>, cells: &[u8]) -> bool {
    let Some((source, number)) = cut(cells) else {
        return false;
    };
    match key {
        Some((made, rest)) => made.bytes() == source && rest.bytes() == number,
        None => source.is_empty() && number.is_empty(),
    }
}
