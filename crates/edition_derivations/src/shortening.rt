//! The steps that bring two records together, without the records that they do not need.
//!
//! Records are left out by halves, by quarters and so on, as long as the two still come together. At last no record can be left
//! out. Cost: each try derives anew from the records that are left.
ghost use Rattle.std.specs.Prelude.{◌≡◌, ◌≤◌, ◌<◌, ◌++◌, IsTrue, IfOk, IfSome, OnOk, List, length, take, drop, slice_index_or};
ghost use Rattle.catalogue_editions.specs.declared.edition.Edition.{Edition};
ghost use Rattle.edition_derivations.specs.declared.step.Step.{Step};
ghost use Rattle.edition_derivations.specs.Steps.{merged, holds, AreSteps, IsEditionOf};
ghost use Rattle.edition_derivations.specs.Shortened.{IsShortened, Brings};

use crate::holding::merges;
use crate::merging::{derivation, derived, members_of};
use crate::step::Step;
use catalogue_editions::edition::Edition;
use merge_laws::join::Join;
use std::alloc::Global;
use union_base::memory::Memory;
use union_base::record_id::RecordId;

/// The steps by which records come to an edition.
#[derive(Debug, Drop)]
pub struct Derivation {
    pub steps: Vec<Step>,
    /// What the last step merges to; where there is no step, a record.
    pub edition: Edition,
}

/// What is left of the records of an edition, and the steps by which the two that are asked for come together.
#[derive(Drop)]
struct Short {
    kept: Vec<Edition>,
    derivation: Derivation,
}

/// Whether what the step merges to has both records.
fn merges_both(step: &Step, one: &RecordId, other: &RecordId) -> bool
    ensures one { IsTrue result → IsTrue (holds (merged step.now) one.now) }
    ensures other { IsTrue result → IsTrue (holds (merged step.now) other.now) }
{
    merges(step, one) && merges(step, other)
}

/// The first of the steps whose merge has both records.
fn first_with(steps: &[Step], one: &RecordId, other: &RecordId) -> Option<usize>
    ensures within { IfSome result (λ i. i < length steps.now) }
    ensures one { IfSome result (λ i. (d : Step)
        → IsTrue (holds (merged (slice_index_or steps.now i d)) one.now)) }
    ensures other { IfSome result (λ i. (d : Step)
        → IsTrue (holds (merged (slice_index_or steps.now i d)) other.now)) }
{
    for (i, step) in steps.iter().enumerate() {
        if merges_both(step, one, other) {
            return Some(i);
        }
    }
    None
}

/// What the step merges to. Returns `Memory` if allocation fails.
fn merge_of(alloc: Global, step: &Step) -> Result<Edition, Memory>
    ensures { IfOk result (λ e. e ≡ merged step.now) }
{
    step.left.joined(alloc, &step.right)
}

/// The steps up to the first whose merge has both records. Returns `Memory` if allocation fails.
fn cut_at(
    alloc: Global,
    steps: Vec<Step>,
    one: &RecordId,
    other: &RecordId,
) -> Result<Option<Derivation>, Memory>
    ensures { IfOk result (λ o. IfSome o (λ d. (records : List Edition)
        → AreSteps records steps.items
        → Brings records one.now other.now d.steps.items d.edition)) }
{
    let mut steps = steps;
    match first_with(steps.as_slice(), one, other) {
        Some(at) => {
            let edition = merge_of(alloc, &steps[at])?;
            steps.truncate(at + 1);
            Ok(Some(Derivation { steps, edition }))
        }
        None => Ok(None),
    }
}

/// The steps by which the records come to an edition that has both: None where they do not. Returns `Memory` if allocation
/// fails.
fn joining(
    alloc: Global,
    records: Vec<Edition>,
    one: &RecordId,
    other: &RecordId,
) -> Result<Option<Derivation>, Memory>
    ensures { IfOk result (λ o. IfSome o (λ d.
        Brings records.items one.now other.now d.steps.items d.edition)) }
{
    let merging = derived(alloc, records)?;
    cut_at(alloc, merging.into_steps(), one, other)
}

/// One more owner of each of the records, pushed in their order. Returns `Memory` if allocation fails.
fn push_shared(into: &mut Vec<Edition>, records: &[Edition]) -> Result<(), Memory>
    ensures { OnOk result (into.new.items ≡ into.old.items ++ records.now) }
{
    for rec in records {
        into.push(rec.shared()?)?;
    }
    Ok(())
}

/// One more owner of each of the records before the first place and from the second on. Returns `Memory` if allocation fails.
fn without(
    alloc: Global,
    records: &[Edition],
    start: usize,
    end: usize,
) -> Result<Vec<Edition>, Memory>
    requires order { start ≤ end }
    requires within { end ≤ length records.now }
    ensures { IfOk result (λ rest. rest.items ≡ take start records.now ++ drop end records.now) }
{
    let mut rest = Vec::new(alloc);
    push_shared(&mut rest, records.split_at(start).0)?;
    push_shared(&mut rest, records.split_at(end).1)?;
    Ok(rest)
}

impl Short {
    /// The steps. Takes no memory.
    fn into_derivation(self) -> Derivation
        ensures { result ≡ self.derivation }
    {
        let Short {
            kept: _,
            derivation,
        } = self;
        derivation
    }

    /// Leaves out the records from the first place up to the second, where the two come together without them. Returns `Memory` if
    /// allocation fails.
    fn leave_out(
        &mut self,
        alloc: Global,
        start: usize,
        end: usize,
        one: &RecordId,
        other: &RecordId,
    ) -> Result<(), Memory>
        requires order { start ≤ end }
        requires within { end ≤ length self.old.kept.items }
        ensures kept { OnOk result ((records : List Edition)
            → IsShortened records one.now other.now self.old.kept.items
            self.old.derivation.steps.items self.old.derivation.edition
            → IsShortened records one.now other.now self.new.kept.items
            self.new.derivation.steps.items self.new.derivation.edition) }
        ensures front { OnOk result (start ≤ length self.new.kept.items) }
    {
        let fewer = without(alloc, self.kept.as_slice(), start, end)?;
        let tried = without(alloc, self.kept.as_slice(), start, end)?;
        if let Some(derivation) = joining(alloc, tried, one, other)? {
            self.kept = fewer;
            self.derivation = derivation;
        }
        Ok(())
    }

    /// Leaves out records, each time so many beside one another, where the two come together without them. Returns `Memory` if
    /// allocation fails.
    fn leave_out_each(
        &mut self,
        alloc: Global,
        size: usize,
        one: &RecordId,
        other: &RecordId,
    ) -> Result<(), Memory>
        requires { 1 ≤ size }
        ensures { OnOk result ((records : List Edition)
            → IsShortened records one.now other.now self.old.kept.items
            self.old.derivation.steps.items self.old.derivation.edition
            → IsShortened records one.now other.now self.new.kept.items
            self.new.derivation.steps.items self.new.derivation.edition) }
    {
        let mut end = self.kept.len();
        while end > 0 {
            let start = end.saturating_sub(size);
            self.leave_out(alloc, start, end, one, other)?;
            end = start;
        }
        Ok(())
    }
}

/// The steps by which two records of an edition come together, of as few records as needed. Returns `Memory` if allocation fails.
pub fn bringing(
    alloc: Global,
    records: &[Edition],
    edition: &Edition,
    one: &RecordId,
    other: &RecordId,
) -> Result<Derivation, Memory>
    requires edition { IsEditionOf records.now edition.now }
    requires one { IsTrue (holds edition.now one.now) }
    requires other { IsTrue (holds edition.now other.now) }
    ensures { IfOk result (λ d. Brings records.now one.now other.now d.steps.items d.edition) }
{
    let kept = members_of(alloc, records, edition)?;
    let steps = derivation(alloc, records, edition)?;
    let whole = Derivation {
        steps,
        edition: edition.shared()?,
    };
    let mut size = kept.len();
    let mut short = Short {
        kept,
        derivation: whole,
    };
    while size > 1 {
        size /= 2;
        short.leave_out_each(alloc, size, one, other)?;
    }
    Ok(short.into_derivation())
}
