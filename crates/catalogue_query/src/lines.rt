//! The lines of answers, each a text without a line feed. The texts are those of `specs/Lines.antt`.
ghost use Rattle.std.specs.Prelude.{◌≡◌, ◌++◌, IfOk, OnOk};
ghost use Rattle.workset_keys.specs.WorkKeys.{own_name};
ghost use Rattle.catalogue_query.specs.Lines.{plain_byte, cell, counted, edition_line, by_line, work_line, hold_line, count_line};

use holdings_book::holdings::Holding;
use itoa::Buffer;
use std::alloc::Global;
use union_base::bytes::Bytes;
use union_base::memory::Memory;
use union_base::record_id::RecordId;

/// What parts the texts of a holding.
const CELL_BEGIN: u8 = b'|';

/// What stands for a byte that would spoil a line or its cells.
const BLANK: u8 = b' ';

/// How much room a record's name mostly needs.
const NAME_ROOM: usize = 32;

/// How much room a line with three counts needs at most: three words and three numbers of twenty digits.
const COUNT_ROOM: usize = 90;

/// `edition LIB.CTL`, of the least contributor.
pub(crate) fn edition_line(alloc: Global, least: &RecordId) -> Result<Bytes, Memory>
    ensures { IfOk result (λ line. line ≡ edition_line least.now) }
{
    named_line(alloc, b"edition ", least)
}

/// `by LIB.CTL`.
pub(crate) fn by_line(alloc: Global, contributor: &RecordId) -> Result<Bytes, Memory>
    ensures { IfOk result (λ line. line ≡ by_line contributor.now) }
{
    named_line(alloc, b"by ", contributor)
}

/// `work KEY`.
pub(crate) fn work_line(alloc: Global, key: &[u8]) -> Result<Bytes, Memory>
    ensures { IfOk result (λ line. line ≡ work_line key.now) }
{
    let word = b"work ".as_slice();
    let mut line = Vec::with_capacity(alloc, word.len().saturating_add(key.len()))?;
    line.extend_from_slice(word)?;
    line.extend_from_slice(key)?;
    Ok(Bytes::from(line))
}

/// `hold LIB.CTL|location|sublocation|classification`.
pub(crate) fn hold_line(alloc: Global, holding: &Holding) -> Result<Bytes, Memory>
    ensures { IfOk result (λ line. line ≡ hold_line holding.now) }
{
    let mut line = Vec::with_capacity(alloc, hold_room(holding))?;
    line.extend_from_slice(b"hold ")?;
    add_name(&mut line, &holding.id)?;
    add_cell(&mut line, holding.location.bytes())?;
    add_cell(&mut line, holding.sublocation.bytes())?;
    add_cell(&mut line, holding.classification.bytes())?;
    Ok(Bytes::from(line))
}

/// `editions E works W records R`.
pub(crate) fn count_line(
    alloc: Global,
    editions: u64,
    works: u64,
    records: u64,
) -> Result<Bytes, Memory>
    ensures { IfOk result (λ line. line ≡ count_line editions works records) }
{
    let mut line = Vec::with_capacity(alloc, COUNT_ROOM)?;
    add_counted(&mut line, b"editions ", editions)?;
    add_counted(&mut line, b" works ", works)?;
    add_counted(&mut line, b" records ", records)?;
    Ok(Bytes::from(line))
}

/// The word and the record's name.
fn named_line(alloc: Global, word: &[u8], id: &RecordId) -> Result<Bytes, Memory>
    ensures { IfOk result (λ line. line ≡ word.now ++ own_name id.now) }
{
    let mut line = Vec::with_capacity(alloc, word.len().saturating_add(NAME_ROOM))?;
    line.extend_from_slice(word)?;
    add_name(&mut line, id)?;
    Ok(Bytes::from(line))
}

/// Adds `LIB.CTL`.
fn add_name(line: &mut Vec<u8>, id: &RecordId) -> Result<(), Memory>
    ensures { OnOk result (line.new.items ≡ line.old.items ++ own_name id.now) }
{
    line.extend_from_slice(id.library.bytes())?;
    line.extend_from_slice(b".")?;
    line.extend_from_slice(id.control.bytes())?;
    Ok(())
}

/// Adds the text after `|`, with a blank for each byte that would spoil the line or its cells.
fn add_cell(line: &mut Vec<u8>, text: &[u8]) -> Result<(), Memory>
    ensures { OnOk result (line.new.items ≡ line.old.items ++ cell text.now) }
{
    line.push(CELL_BEGIN)?;
    for byte in text {
        line.push(plain_byte(*byte))?;
    }
    Ok(())
}

/// The byte, or a blank for a control character and for `|`.
fn plain_byte(byte: u8) -> u8
    ensures { result ≡ plain_byte byte }
{
    if byte < 0x20 || byte == 0x7F || byte == CELL_BEGIN {
        BLANK
    } else {
        byte
    }
}

/// Adds the word and the number.
fn add_counted(line: &mut Vec<u8>, word: &[u8], number: u64) -> Result<(), Memory>
    ensures { OnOk result (line.new.items ≡ line.old.items ++ counted word.now number) }
{
    let mut digits = Buffer::new();
    line.extend_from_slice(word)?;
    line.extend_from_slice(digits.format(number).as_bytes())?;
    Ok(())
}

/// How much room a holding's line mostly needs.
fn hold_room(holding: &Holding) -> usize {
    NAME_ROOM
        .saturating_add(holding.location.bytes().len())
        .saturating_add(holding.sublocation.bytes().len())
        .saturating_add(holding.classification.bytes().len())
}
