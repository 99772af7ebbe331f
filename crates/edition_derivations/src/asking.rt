//! What is to be told of two records: how they come together, or which editions have them.
ghost use Rattle.std.specs.Prelude.{IfOk};
ghost use Rattle.merge_laws.specs.Resolution.{IsResolution};
ghost use Rattle.catalogue_editions.specs.Joining.{join};
ghost use Rattle.catalogue_editions.specs.Matching.{match as edition_match};
ghost use Rattle.edition_derivations.specs.Answers.{Answers};

use crate::holding::{holder, holds};
use crate::shortening::{Derivation, bringing};
use catalogue_editions::edition::Edition;
use std::alloc::Global;
use union_base::memory::Memory;
use union_base::record_id::RecordId;

/// What is told of two records.
#[derive(Debug, Drop)]
pub enum Answer {
    /// Both are of the edition, and come together by these steps.
    Same(Edition, Derivation),
    /// Each is of another edition.
    Apart(Edition, Edition),
}

/// What is to be told of two of the records, which resolve to the editions: None where one of them is none of the records'.
///
/// Returns `Memory` if allocation fails.
pub fn answer_of(
    alloc: Global,
    records: &[Edition],
    editions: &[Edition],
    one: &RecordId,
    other: &RecordId,
) -> Result<Option<Answer>, Memory>
    requires { IsResolution edition_match join records.now editions.now }
    ensures { IfOk result (λ told. Answers records.now editions.now one.now other.now told) }
{
    let (Some(first), Some(second)) = (holder(editions, one), holder(editions, other)) else {
        return Ok(None);
    };
    if holds(first, other) {
        let derivation = bringing(alloc, records, first, one, other)?;
        Ok(Some(Answer::Same(first.shared()?, derivation)))
    } else {
        Ok(Some(Answer::Apart(first.shared()?, second.shared()?)))
    }
}
