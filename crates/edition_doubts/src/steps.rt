//! The step by which the records of a doubtful edition came together.
ghost use Rattle.std.specs.Prelude.{◌≡◌, find, IfOk};
ghost use Rattle.std.specs.Option.{option_copied};
ghost use Rattle.match_features.specs.Kept.{has_some};
ghost use Rattle.edition_doubts.specs.DoubtfulSteps.{is_brought, brought, is_doubtful_step};

use crate::doubts::{Doubt, doubts_of};
use catalogue_editions::edition::Edition;
use edition_derivations::holding::holds;
use edition_derivations::step::Step;
use std::alloc::Global;
use union_base::memory::Memory;

/// Whether the step merges what has the record.
fn is_brought(step: &Step, rec: &Edition) -> bool
    ensures { result ≡ is_brought step.now rec.now }
{
    holds(&step.left, rec.least()) || holds(&step.right, rec.least())
}

/// One more owner of each of the records that the step brings together.
fn brought(alloc: Global, records: &[Edition], step: &Step) -> Result<Vec<Edition>, Memory>
    ensures { IfOk result (λ part. part.items ≡ brought step.now records.now) }
{
    let mut part = Vec::new(alloc);
    for rec in records {
        if is_brought(step, rec) {
            part.push(rec.shared()?)?;
        }
    }
    Ok(part)
}

fn has_some(doubts: &[Doubt]) -> bool
    ensures { result ≡ has_some doubts.now }
{
    !doubts.is_empty()
}

/// Whether a reason stands of the records that the step brings together.
fn is_doubtful_step(alloc: Global, records: &[Edition], step: &Step) -> Result<bool, Memory>
    ensures { IfOk result (λ is. is ≡ is_doubtful_step records.now step.now) }
{
    let part = brought(alloc, records, step)?;
    let doubts = doubts_of(alloc, part.as_slice())?;
    Ok(has_some(doubts.as_slice()))
}

/// The first of the steps that brings records together of which a reason stands: None where there is no such step. Each step looks at
/// all records.
///
/// Returns `Memory` if allocation fails.
pub fn doubtful_step<'a>(
    alloc: Global,
    records: &[Edition],
    steps: &'a [Step],
) -> Result<Option<&'a Step>, Memory>
    ensures { IfOk result (λ found.
        option_copied found ≡ find (is_doubtful_step records.now) steps.now) }
{
    let mut left = steps;
    while let Some((step, rest)) = left.split_first() {
        if is_doubtful_step(alloc, records, step)? {
            return Ok(Some(step));
        }
        left = rest;
    }
    Ok(None)
}
