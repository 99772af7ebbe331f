//! The content of one record.
//!
//! Guarantee: `content_of` answers what specs/Contents.antt defines. Cost: one walk over the fields, in which each is moved or
//! dropped, then one sort of the united fields. Besides, the look-ups of 001, 005 and 008 end at those fields, which come first.
ghost use Rattle.std.specs.Prelude.{◌≡◌, ◌∷◌, [], IfOk, IsTrue};
ghost use Rattle.marc_parts.specs.Loads.{is_loadable};
ghost use Rattle.field_merge.specs.Contents.{codes_of, contributor, fixed_part, content};

use crate::content::Content;
use crate::fixed::Fixed;
use crate::parts::parts_of;
use crate::preference::Preference;
use crate::rank::{Rank, rank_of};
use marc_leader::codes::LeaderCodes;
use marc_parts::marc_record::Record;
use marc_parts::parts::{control_number, text_under};
use std::alloc::Global;
use union_base::bytes::Bytes;
use union_base::library_code::LibraryCode;
use union_base::memory::Memory;
use union_base::record_id::RecordId;
use union_base::sorted_list::SortedList;

/// The content of a library's record, by the preference. Returns `Memory` if allocation fails.
pub fn content_of(
    alloc: Global,
    prefer: &Preference,
    library: &LibraryCode,
    rec: Record,
) -> Result<Content, Memory>
    requires { IsTrue (is_loadable rec) }
    ensures { IfOk result (λ c. c ≡ content prefer.now library.now rec) }
{
    let contributors = contributors_of(alloc, library, &rec)?;
    let fixed = fixed_of(alloc, rank_of(alloc, prefer, library, &rec)?, &rec)?;
    let parts = parts_of(alloc, &fixed.rank, rec.fields.into_vec())?;
    Ok(Content {
        contributors,
        fixed,
        f005: parts.f005,
        f010: parts.f010,
        f040: parts.f040,
        f1xx: parts.f1xx,
        f240: parts.f240,
        f245: parts.f245.unwrap(),
        united: SortedList::of(parts.united)?,
    })
}

/// The record's one contributor.
fn contributors_of(
    alloc: Global,
    library: &LibraryCode,
    rec: &Record,
) -> Result<SortedList<RecordId>, Memory>
    ensures { IfOk result (λ ids. ids ≡ contributor library.now rec.now ∷ []) }
{
    let control = Bytes::of(alloc, control_number(rec))?;
    let mut ids = Vec::with_capacity(alloc, 1)?;
    ids.push(RecordId {
        library: *library,
        control,
    })?;
    SortedList::of(ids)
}

/// The record's fixed part.
fn fixed_of(alloc: Global, rank: Rank, rec: &Record) -> Result<Fixed, Memory>
    ensures { IfOk result (λ f. f ≡ fixed_part rank rec.now) }
{
    Ok(Fixed {
        rank,
        codes: codes_of(&rec.leader),
        text: Bytes::of(alloc, text_under(b"008", rec.fields.as_slice()))?,
    })
}

/// The codes as those of a new record in UTF-8 (MARC 21, leader/05, 09 and 23).
fn codes_of(codes: &LeaderCodes) -> LeaderCodes
    ensures { result ≡ codes_of codes.now }
{
    LeaderCodes {
        status: b'n',
        kind: codes.kind,
        level: codes.level,
        control: codes.control,
        coding: b'a',
        encoding: codes.encoding,
        form: codes.form,
        part: codes.part,
        last: b'0',
    }
}
