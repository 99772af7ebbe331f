//! The records, editions and batches of worked cases.
ghost use Rattle.std.specs.Prelude.{IfOk, IsTrue};
ghost use Rattle.std.specs.List.{list_all};
ghost use Rattle.catalogue_core.specs.Batches.{is_own_op};
ghost use Rattle.marc_rules.specs.Accepted.{IsAccepted};

use catalogue_core::batch::Batch;
use catalogue_core::edition::Edition;
use catalogue_core::laws::accepted_can_be_loaded;
use catalogue_core::op::Op;
use catalogue_core::records::{edition_of, op_of};
use field_merge::preference::Preference;
use iso2709_frame::cut::Cut;
use marc_fields::decoding::is_frame;
use marc_parts::loads::is_deleted;
use marc_parts::marc_record::Record;
use marc_rules::check::check_frame;
use std::alloc::Global;
use std::test::Fail;
use union_base::bytes::Bytes;
use union_base::library_code::LibraryCode;

/// The library of that code.
pub fn library_of(code: &str) -> Result<LibraryCode, Fail> {
    Ok(LibraryCode::read(code.as_bytes()).ok_or("a library code")?)
}

/// The record that the frame spells.
pub fn record_in(alloc: Global, frame: &[u8]) -> Result<Record, Fail>
    ensures { IfOk result (λ rec. IsAccepted rec) }
{
    if is_frame(frame) {
        Ok(check_frame(alloc, Cut::Whole, frame)?)
    } else {
        Err("a frame")?
    }
}

/// The operation that the library's record asks for.
pub fn op_in(alloc: Global, library: &LibraryCode, frame: &[u8]) -> Result<Op, Fail>
    ensures { IfOk result (λ op. IsTrue (is_own_op library.now op)) }
{
    let rec = record_in(alloc, frame)?;
    Ok(op_of(alloc, &Preference::none(), library, rec)?)
}

/// The edition of the library's record, which is no withdrawal.
pub fn edition_in(alloc: Global, library: &str, frame: &[u8]) -> Result<Edition, Fail> {
    let library = library_of(library)?;
    let rec = record_in(alloc, frame)?;
    if is_deleted(rec.leader.status) {
        return Err("a record that is loaded")?;
    }
    accepted_can_be_loaded();
    Ok(edition_of(alloc, &Preference::none(), &library, rec)?)
}

/// The batch of these operations, of which there must be 1 to 256.
pub fn whole_batch(library: LibraryCode, ops: Vec<Op>) -> Result<Batch, Fail>
    requires { IsTrue (list_all (is_own_op library) ops.items) }
{
    let count = ops.len();
    if count < 1 || 256 < count {
        return Err("1 to 256 operations")?;
    }
    Ok(Batch::of(library, ops))
}

/// The lines, with a line feed after each.
pub fn text_of(alloc: Global, lines: &[Bytes]) -> Result<Vec<u8>, Fail> {
    let mut text = Vec::new(alloc);
    for line in lines {
        text.extend_from_slice(line.bytes())?;
        text.push(b'\n')?;
    }
    Ok(text)
}
