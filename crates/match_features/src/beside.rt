//! What one list in order has beside another.
//!
//! Each call walks both lists once, side by side.
ghost use Rattle.std.specs.Prelude.{◌≡◌, ◌++◌, IfOk, OnOk};
ghost use Rattle.match_features.specs.Posted.{has_each};
ghost use Rattle.match_features.specs.KeyLists.{beside};

use std::alloc::Global;
use std::cmp::Ordering;
use union_base::memory::Memory;
use union_base::sorted_list::{Element, SortedList};

/// The values of the list that the base has not, in order. Returns `Memory` if allocation fails.
pub fn values_beside<K: Element>(
    alloc: Global,
    list: &SortedList<K>,
    base: &SortedList<K>,
) -> Result<Vec<K>, Memory>
    ensures { IfOk result (λ found. found.items ≡ beside K.cmp list.now base.now) }
{
    let mut found = Vec::new(alloc);
    let mut left = list.as_slice();
    let mut right = base.as_slice();
    while let (Some((x, lefts)), Some((y, rights))) = (left.split_first(), right.split_first()) {
        match x.cmp(y) {
            Ordering::Less => {
                found.push(x.copied(alloc)?)?;
                left = lefts;
            }
            Ordering::Equal => (left, right) = (lefts, rights),
            Ordering::Greater => right = rights,
        }
    }
    push_copies(alloc, &mut found, left)?;
    Ok(found)
}

/// Puts a copy of each value last.
fn push_copies<K: Element>(alloc: Global, found: &mut Vec<K>, values: &[K]) -> Result<(), Memory>
    ensures { OnOk result (found.new.items ≡ found.old.items ++ values.now) }
{
    for value in values {
        found.push(value.copied(alloc)?)?;
    }
    Ok(())
}

/// Whether the list has each value of the base. Takes no memory.
pub fn has_each_of<K: Element>(list: &SortedList<K>, base: &SortedList<K>) -> bool
    ensures { result ≡ has_each K.cmp list.now base.now }
{
    let mut left = list.as_slice();
    let mut right = base.as_slice();
    while let (Some((x, lefts)), Some((y, rights))) = (left.split_first(), right.split_first()) {
        match x.cmp(y) {
            Ordering::Less => left = lefts,
            Ordering::Equal => (left, right) = (lefts, rights),
            Ordering::Greater => return false,
        }
    }
    right.is_empty()
}
