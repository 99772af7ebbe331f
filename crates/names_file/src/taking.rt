//! What a table of names takes of a frame.
ghost use Rattle.std.specs.Prelude.{◌≡◌, IfOk};
ghost use Rattle.authority_names.specs.Records.{refusal_of};
ghost use Rattle.iso2709_frame.specs.Frames.{IsWhole};
ghost use Rattle.marc_fields.specs.Rules.{IsFrame, first_failure};
ghost use Rattle.names_file.specs.Judging.{IsJudged, IsReadJudged, IsRecordJudged, TakesAs};

use crate::fault::NameFault;
use authority_names::name_table::NameTable;
use authority_names::refusal::NameRefusal;
use iso2709_frame::cut::Cut;
use marc_fields::decoding::{DecodeRefusal, decode};
use marc_fields::rules::Rule;
use marc_parts::marc_record::Record;
use std::alloc::Global;
use union_base::memory::Memory;

/// Takes a record into the table; answers why it is refused, if it is.
fn take_record(
    alloc: Global,
    table: &mut NameTable,
    rec: &Record,
) -> Result<Option<NameFault>, Memory>
    ensures { IfOk result
        (TakesAs (IsRecordJudged (refusal_of rec.now) rec.now) table.old table.new) }
{
    match table.add(alloc, rec) {
        Ok(()) => Ok(None),
        Err(NameRefusal::Kind) => Ok(Some(NameFault::Kind)),
        Err(NameRefusal::Coding) => Ok(Some(NameFault::Coding)),
        Err(NameRefusal::NotUtf8) => Ok(Some(NameFault::NotUtf8)),
        Err(NameRefusal::Heading) => Ok(Some(NameFault::Heading)),
        Err(NameRefusal::Memory) => Err(Memory),
    }
}

/// Takes the record of a frame that was cut whole.
fn take_whole(
    alloc: Global,
    table: &mut NameTable,
    frame: &[u8],
) -> Result<Option<NameFault>, Memory>
    requires { IsFrame frame.now }
    ensures { IfOk result
        (TakesAs (IsReadJudged (first_failure frame.now) frame.now) table.old table.new) }
{
    match decode(alloc, frame) {
        Ok(rec) => take_record(alloc, table, &rec),
        Err(DecodeRefusal::Rule { rule, place }) => Ok(Some(NameFault::Rule { rule, place })),
        Err(DecodeRefusal::Memory) => Err(Memory),
    }
}

/// Takes the record of a frame into the table; answers why the frame is refused, if it is. The bytes of a frame that was not cut
/// whole are not looked at. Returns `Memory` if allocation fails.
pub(crate) fn take_frame(
    alloc: Global,
    table: &mut NameTable,
    cut: Cut,
    frame: &[u8],
) -> Result<Option<NameFault>, Memory>
    requires { cut ≡ Cut.Whole → IsWhole frame.now }
    ensures { IfOk result (TakesAs (IsJudged (cut, frame.now)) table.old table.new) }
{
    match cut {
        Cut::Truncated => Ok(Some(NameFault::Rule {
            rule: Rule::Truncated,
            place: 0,
        })),
        Cut::TooLong => Ok(Some(NameFault::Rule {
            rule: Rule::TooLong,
            place: 0,
        })),
        Cut::Whole => take_whole(alloc, table, frame),
    }
}
