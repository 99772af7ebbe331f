//! The titles and the ISBNs of records.
ghost use Rattle.std.specs.Prelude.{◌≡◌, IfOk, map};
ghost use Rattle.edition_doubts.specs.Comparing.{told};
ghost use Rattle.edition_doubts.specs.Reasons.{shares_no_title, shares_no_isbn};

use crate::comparing::{push_told, share_none};
use catalogue_editions::edition::Edition;
use std::alloc::Global;
use union_base::bytes::Bytes;
use union_base::copied::Copied;
use union_base::memory::Memory;
use union_base::sorted_list::SortedList;

/// The titles of each record.
fn titles_of(alloc: Global, records: &[Edition]) -> Result<Vec<SortedList<Bytes>>, Memory>
    ensures { IfOk result (λ lists. lists.items ≡ map (λ r. r.features.titles) records.now) }
{
    let mut lists = Vec::with_capacity(alloc, records.len())?;
    for rec in records {
        lists.push(rec.features().titles.copied(alloc)?)?;
    }
    Ok(lists)
}

/// The ISBNs of each record that has ISBNs.
fn isbns_of(alloc: Global, records: &[Edition]) -> Result<Vec<SortedList<[u8; 13]>>, Memory>
    ensures { IfOk result (λ lists.
        lists.items ≡ told (map (λ r. r.features.isbns) records.now)) }
{
    let mut lists = Vec::with_capacity(alloc, records.len())?;
    for rec in records {
        push_told(&mut lists, rec.features().isbns.copied(alloc)?)?;
    }
    Ok(lists)
}

/// Whether no title is common to all records. Returns `Memory` if allocation fails.
pub fn shares_no_title(alloc: Global, records: &[Edition]) -> Result<bool, Memory>
    ensures { IfOk result (λ none. none ≡ shares_no_title records.now) }
{
    let lists = titles_of(alloc, records)?;
    Ok(share_none(lists.as_slice()))
}

/// Whether no ISBN is common to all records that have ISBNs. Returns `Memory` if allocation fails.
pub fn shares_no_isbn(alloc: Global, records: &[Edition]) -> Result<bool, Memory>
    ensures { IfOk result (λ none. none ≡ shares_no_isbn records.now) }
{
    let lists = isbns_of(alloc, records)?;
    Ok(share_none(lists.as_slice()))
}
