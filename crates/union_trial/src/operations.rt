//! What the frame of some draws asks for.
ghost use Rattle.std.specs.Prelude.{◌≡◌, [], IfOk, IsTrue, OnOk, Some};
ghost use Rattle.marc_fields.specs.Spelling.{spelling};
ghost use Rattle.catalogue_core.specs.Batches.{is_own_op};
ghost use Rattle.catalogue_core.specs.Ops.{op};
ghost use Rattle.union_trial.specs.TrialRecords.{record_of};

use crate::draws::Draws;
use crate::records::record_of;
use catalogue_core::op::Op;
use catalogue_core::records::op_of;
use field_merge::preference::Preference;
use iso2709_frame::cut::Cut;
use marc_fields::encoding::{EncodeRefusal, encode};
use marc_rules::check::{Refusal, check_frame};
use std::alloc::Global;
use union_base::library_code::LibraryCode;
use union_base::memory::Memory;

/// Writes the frame of the draws in place of what the buffer holds.
///
/// Returns `Memory` if allocation fails.
pub(crate) fn write_frame(alloc: Global, draws: &Draws, frame: &mut Vec<u8>) -> Result<(), Memory>
    ensures { OnOk result (frame.new.items ≡ spelling (record_of draws.now)) }
{
    let made = record_of(alloc, draws)?;
    frame.clear();
    match encode(&made, frame) {
        Ok(()) => Ok(()),
        Err(EncodeRefusal::Memory) => Err(Memory),
        Err(EncodeRefusal::FieldTooLong) => unreachable!(),
        Err(EncodeRefusal::RecordTooLong) => unreachable!(),
    }
}

/// The operation that the frame of the draws asks for, as a record of that library, with no library preferred to another. The frame is written into the buffer,
/// and checked as one that is read.
///
/// Returns `Memory` if allocation fails. No frame of the generator is refused.
pub fn operation(
    alloc: Global,
    library: &LibraryCode,
    draws: &Draws,
    frame: &mut Vec<u8>,
) -> Result<Op, Memory>
    ensures value { IfOk result (λ done. op [] library.now (record_of draws.now) ≡ Some done) }
    ensures own { IfOk result (λ done. IsTrue (is_own_op library.now done)) }
{
    write_frame(alloc, draws, frame)?;
    match check_frame(alloc, Cut::Whole, frame.as_slice()) {
        Ok(rec) => op_of(alloc, &Preference::none(), library, rec),
        Err(Refusal::Memory) => Err(Memory),
        Err(Refusal::Rule { rule: _, place: _ }) => unreachable!(),
    }
}
