//! Editions in order of their least contributors.
ghost use Rattle.std.specs.Prelude.{◌≡◌, IfOk};
ghost use Rattle.std.specs.List.Sorted.{IsPermutation, IsSorted};
ghost use Rattle.catalogue_editions.specs.Ids.{edition_cmp};

use crate::edition::Edition;
use std::cmp::Ordering;
use union_base::memory::Memory;

/// The editions in order of their least contributors. Where no two of them match, as in a resolution, these differ, so there
/// is one such order (`laws::sorted_resolution_is_ordered`).
///
/// Returns `Memory` if allocation fails.
pub fn sorted_by_least(mut editions: Vec<Edition>) -> Result<Vec<Edition>, Memory>
    ensures same { IfOk result (λ sorted. IsPermutation editions.items sorted.items) }
    ensures ascending { IfOk result (λ sorted. IsSorted edition_cmp sorted.items) }
{
    editions.sort_by(
        |a: &Edition, b: &Edition| -> Ordering
            ensures { result ≡ edition_cmp a.now b.now }
        { a.least().cmp(b.least()) },
    )?;
    Ok(editions)
}
