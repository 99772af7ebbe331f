//! The list of the merged editions that deserve a look.
ghost use Rattle.std.specs.Prelude.{IfOk};
ghost use Rattle.catalogue_editions.specs.Resolutions.{IsOrderedResolution};
ghost use Rattle.edition_doubts.specs.Groups.{gathered};
ghost use Rattle.doubt_texts.specs.Editions.{IsListing};
ghost use Rattle.union_why.specs.Listings.{TellsDoubtful};

use crate::records::shared_each;
use catalogue_editions::edition::Edition;
use catalogue_editions::laws::sorted_resolution_is_ordered;
use catalogue_editions::ordering::sorted_by_least;
use doubt_texts::editions::listing;
use doubt_texts::form::Form;
use edition_doubts::groups::groups_of;
use key_hashing::hashing::Hashing;
use std::alloc::Global;
use std::thread::Threads;
use swoosh_halves::halves::resolve_halves;
use union_base::memory::Memory;

/// The editions to which the records resolve, in order of their ids. Returns `Memory` if allocation fails.
fn resolved<Rt: Threads + Sync>(
    rt: &Rt,
    hashing: Hashing,
    alloc: Global,
    records: &[Edition],
) -> Result<Vec<Edition>, Memory>
    ensures { IfOk result (λ editions. IsOrderedResolution records.now editions.items) }
{
    sorted_resolution_is_ordered();
    let shared = shared_each(alloc, records)?;
    let found = resolve_halves(rt, hashing, shared, 1)?;
    let editions = sorted_by_least(found)?;
    Ok(editions)
}

/// The list of the editions that deserve a look.
fn listed(
    alloc: Global,
    form: Form,
    records: &[Edition],
    editions: &[Edition],
) -> Result<Vec<u8>, Memory>
    requires { IsOrderedResolution records.now editions.now }
    ensures { IfOk result (λ text.
        IsListing form (gathered records.now editions.now) text.items) }
{
    let groups = groups_of(alloc, records, editions)?;
    let text = listing(alloc, form, groups.as_slice())?;
    Ok(text)
}

/// What is told of those of the editions to which the records resolve that deserve a look. Returns `Memory` if allocation fails.
pub fn tell_doubtful<Rt: Threads + Sync>(
    rt: &Rt,
    hashing: Hashing,
    alloc: Global,
    records: &[Edition],
    form: Form,
) -> Result<Vec<u8>, Memory>
    ensures { IfOk result (λ text. TellsDoubtful form records.now text.items) }
{
    let editions = resolved(rt, hashing, alloc, records)?;
    let text = listed(alloc, form, records, editions.as_slice())?;
    Ok(text)
}
