//! The edition of one record, as `specs/Records.antt` has it.
ghost use Rattle.std.specs.Prelude.{◌≡◌, Some, IfOk, IsTrue};
ghost use Rattle.marc_rules.specs.Accepted.{IsAccepted};
ghost use Rattle.catalogue_editions.specs.Batches.{is_own_op};
ghost use Rattle.record_editions.specs.Ops.{op};
ghost use Rattle.std.specs.List.{list_all};
ghost use Rattle.marc_fields.specs.Spelling.{is_short};
ghost use Rattle.marc_parts.specs.Parts.{control_number};
ghost use Rattle.marc_parts.specs.Loads.{is_loadable};
ghost use Rattle.record_editions.specs.Records.{IsEditionOf, edition};

use crate::laws::accepted_can_be_loaded;
use catalogue_editions::edition::{Edition, EditionParts};
use catalogue_editions::op::Op;
use field_merge::making::content_of;
use field_merge::preference::Preference;
use marc_parts::loads::is_deleted;
use marc_parts::marc_record::Record;
use marc_parts::parts::control_number;
use record_features::of_record::features_of;
use std::alloc::Global;
use union_base::bytes::Bytes;
use union_base::library_code::LibraryCode;
use union_base::memory::Memory;

/// The edition of a record that the library loads: the features of that record and, by the preference, its content. Each accepted record that
/// is no withdrawal can be loaded, and a frame can store its fields (`laws::accepted_can_be_loaded`).
///
/// Returns `Memory` if allocation fails.
pub fn edition_of(
    alloc: Global,
    prefer: &Preference,
    library: &LibraryCode,
    rec: Record,
) -> Result<Edition, Memory>
    requires loadable { IsTrue (is_loadable rec) }
    requires short { IsTrue (list_all is_short rec.fields) }
    ensures parts { IfOk result (λ e. IsEditionOf prefer.now library.now rec e) }
    ensures value { IfOk result (λ e. edition prefer.now library.now rec ≡ Some e) }
{
    rec.leader.prints();
    let _code = library.bytes();
    let parts = EditionParts {
        features: features_of(alloc, library, &rec)?,
        content: content_of(alloc, prefer, library, rec)?,
    };
    Edition::of(alloc, parts)
}

/// The record's control number: its field 001 without the blanks at its ends (MARC 21, 001), empty where there is none.
///
/// Returns `Memory` if allocation fails.
pub fn control_of(alloc: Global, rec: &Record) -> Result<Bytes, Memory>
    ensures { IfOk result (λ number. number ≡ control_number rec.now) }
{
    Bytes::of(alloc, control_number(rec))
}

/// What the library's record asks for: the withdrawal of the record under its control number where its status is `d`, and
/// else the load of its edition by the preference.
///
/// Returns `Memory` if allocation fails.
pub fn op_of(
    alloc: Global,
    prefer: &Preference,
    library: &LibraryCode,
    rec: Record,
) -> Result<Op, Memory>
    requires { IsAccepted rec }
    ensures value { IfOk result (λ done. op prefer.now library.now rec ≡ Some done) }
    ensures own { IfOk result (λ done. IsTrue (is_own_op library.now done)) }
{
    if is_deleted(rec.leader.status) {
        let number = control_of(alloc, &rec)?;
        Ok(Op::Withdraw(number))
    } else {
        accepted_can_be_loaded();
        let edition = edition_of(alloc, prefer, library, rec)?;
        Ok(Op::Load(edition))
    }
}
