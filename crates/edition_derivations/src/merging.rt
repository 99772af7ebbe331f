//! How the records of an edition come together.
//!
//! Cost: for m records at most m * m match tests and fewer than m merges; of each merge both sides are kept.
ghost use Rattle.std.specs.Prelude.{◌≡◌, ◌<◌, ◌++◌, ◌∷◌, [], false, IsTrue, length, filter, slice_index_or};
ghost use Rattle.std.specs.Prelude.{IfOk, OnOk, IfSome, IfNone, All};
ghost use Rattle.std.specs.List.Sorted.{IsPermutation};
ghost use Rattle.catalogue_editions.specs.Joining.{join};
ghost use Rattle.catalogue_editions.specs.Matching.{match as edition_match};
ghost use Rattle.catalogue_editions.specs.declared.edition.Edition.{Edition};
ghost use Rattle.edition_derivations.specs.Steps.{IsDerivation, IsEditionOf};
ghost use Rattle.edition_derivations.specs.Deriving.{IsDerived};

use crate::step::Step;
use catalogue_editions::edition::Edition;
use merge_laws::join::Join;
use std::alloc::Global;
use union_base::memory::Memory;

/// Whether the editions match.
fn matches(one: &Edition, other: &Edition) -> bool
    ensures { result ≡ edition_match one.now other.now }
{
    one.features().meets(other.features())
}

/// The place of the first of the editions that the given one matches.
fn first_match(done: &[Edition], value: &Edition) -> Option<usize>
    ensures within { IfSome result (λ i. i < length done.now) }
    ensures found { IfSome result (λ i. (d : Edition)
        → IsTrue (edition_match value.now (slice_index_or done.now i d))) }
    ensures none { IfNone result (All (λ x. edition_match value.now x ≡ false) done.now) }
{
    for (i, other) in done.iter().enumerate() {
        if matches(value, other) {
            return Some(i);
        }
    }
    None
}

/// The first of the editions that the given one matches, taken out of them; then another stands in its place.
fn take_match(done: &mut Vec<Edition>, value: &Edition) -> Option<Edition>
    ensures taken { IfSome result (λ other. IsPermutation done.old.items (other ∷ done.new.items)) }
    ensures matches { IfSome result (λ other. IsTrue (edition_match value.now other)) }
    ensures same { IfNone result (done.new.items ≡ done.old.items) }
    ensures none { IfNone result (All (λ x. edition_match value.now x ≡ false) done.old.items) }
{
    match first_match(done.as_slice(), value) {
        Some(at) => Some(done.swap_remove(at)),
        None => None,
    }
}

/// Puts what the two editions merge to last among those that are left, and their merge last among the steps. Returns `Memory` if
/// allocation fails.
fn push_merged(
    alloc: Global,
    left: &mut Vec<Edition>,
    steps: &mut Vec<Step>,
    one: Edition,
    other: Edition,
) -> Result<(), Memory>
    ensures left { OnOk result (left.new.items ≡ left.old.items ++ join one other ∷ []) }
    ensures steps { OnOk result (steps.new.items
        ≡ steps.old.items ++ record { left = one; right = other } ∷ []) }
{
    let merged = one.joined(alloc, &other)?;
    left.push(merged)?;
    steps.push(Step {
        left: one,
        right: other,
    })?;
    Ok(())
}

/// Records that came together.
#[derive(Drop)]
pub(crate) struct Merging {
    /// The steps by which they did.
    pub(crate) steps: Vec<Step>,
    /// The editions to which they resolve.
    pub(crate) done: Vec<Edition>,
}

impl Merging {
    /// The steps. Takes no memory.
    pub(crate) fn into_steps(self) -> Vec<Step>
        ensures { result.items ≡ self.steps.items }
    {
        let Merging { steps, done: _ } = self;
        steps
    }
}

/// The steps by which the records come together, and the editions to which they resolve. The last record comes first.
///
/// Returns `Memory` if allocation fails.
pub(crate) fn derived(alloc: Global, records: Vec<Edition>) -> Result<Merging, Memory>
    ensures { IfOk result (λ m. IsDerived records.items m.steps.items m.done.items) }
{
    let mut left = records;
    let mut done: Vec<Edition> = Vec::new(alloc);
    let mut steps: Vec<Step> = Vec::new(alloc);
    while let Some(value) = left.pop() {
        match take_match(&mut done, &value) {
            None => done.push(value)?,
            Some(other) => push_merged(alloc, &mut left, &mut steps, other, value)?,
        }
    }
    Ok(Merging { steps, done })
}

/// One more owner of each of the records that match the edition: of a resolution's records these are the edition's own. Returns
/// `Memory` if allocation fails.
pub fn members_of(
    alloc: Global,
    records: &[Edition],
    edition: &Edition,
) -> Result<Vec<Edition>, Memory>
    ensures { IfOk result (λ members. members.items
        ≡ filter (λ r. edition_match r edition.now) records.now) }
{
    let mut members = Vec::new(alloc);
    for rec in records {
        if matches(rec, edition) {
            members.push(rec.shared()?)?;
        }
    }
    Ok(members)
}

/// The steps by which an edition to which the records resolve comes together. Returns `Memory` if allocation fails.
pub fn derivation(
    alloc: Global,
    records: &[Edition],
    edition: &Edition,
) -> Result<Vec<Step>, Memory>
    requires { IsEditionOf records.now edition.now }
    ensures { IfOk result (λ steps. IsDerivation records.now steps.items edition.now) }
{
    let members = members_of(alloc, records, edition)?;
    let merging = derived(alloc, members)?;
    Ok(merging.into_steps())
}
