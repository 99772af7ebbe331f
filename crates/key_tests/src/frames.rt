//! Records that frames spell, and by whom they are judged.
ghost use Rattle.std.specs.Prelude.{IfOk, IsTrue};
ghost use Rattle.marc_parts.specs.Loads.{is_loadable};

use crate::tables::next_cell;
use field_merge::preference::Preference;
use marc_fields::decoding::{decode, is_frame};
use marc_parts::loads::is_loadable;
use marc_parts::marc_record::Record;
use std::alloc::Global;
use std::str::Split;
use std::test::Fail;
use union_base::library_code::LibraryCode;

/// The library of the next cell.
pub(crate) fn next_library(cells: &mut Split<'_, char>) -> Result<LibraryCode, Fail> {
    Ok(LibraryCode::read(next_cell(cells)?.as_bytes()).ok_or("a library code")?)
}

/// The preference of the next cell, which is empty for none.
pub(crate) fn next_preference(cells: &mut Split<'_, char>) -> Result<Preference, Fail> {
    let text = next_cell(cells)?;
    if text.is_empty() {
        return Ok(Preference::none());
    }
    Ok(Preference::read(text.as_bytes()).ok_or("a preference")?)
}

/// The record that the next cell spells.
pub(crate) fn next_record(alloc: Global, cells: &mut Split<'_, char>) -> Result<Record, Fail>
    ensures { IfOk result (λ rec. IsTrue (is_loadable rec)) }
{
    record_in(alloc, next_cell(cells)?.as_bytes())
}

/// The record that the frame spells.
pub(crate) fn record_in(alloc: Global, frame: &[u8]) -> Result<Record, Fail>
    ensures { IfOk result (λ rec. IsTrue (is_loadable rec)) }
{
    if is_frame(frame) {
        let rec = decode(alloc, frame)?;
        if is_loadable(&rec) {
            return Ok(rec);
        }
    }
    Err(Fail::new("no record that is loaded"))
}
