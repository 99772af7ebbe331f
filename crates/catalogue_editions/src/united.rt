//! The united fields that contents merge to, borrowed from the contents where they lie.
//!
//! Cost: the lists are merged by halves, so each field is compared as often as the list of contents can be halved. The lists in
//! between are of references, each in room that is made once. No field is copied.
ghost use Rattle.std.specs.Prelude.{◌≡◌, ◌++◌, OnOk, IsTrue};
ghost use Rattle.union_base.specs.FieldOrder.{field_cmp};
ghost use Rattle.union_base.specs.SortedLists.{is_ascending, union};
ghost use Rattle.catalogue_editions.specs.Joined.{joined_all};
ghost use Rattle.catalogue_editions.specs.Borrowed.{fields_of, contents_of};

use crate::shared_content::SharedContent;
use std::alloc::Global;
use std::cmp::Ordering;
use union_base::field::Field;
use union_base::memory::Memory;

/// Pushes the united fields that the first content and those behind it merge to: the union of what either half of the list has.
/// Returns `Memory` if allocation fails.
pub(crate) fn push_united<'a>(
    alloc: Global,
    first: &'a SharedContent,
    behind: &[&'a SharedContent],
    into: &mut Vec<&'a Field>,
) -> Result<(), Memory>
    ensures { OnOk result (fields_of into.new.items
        ≡ fields_of into.old.items ++ (joined_all first.now (contents_of behind.now)).united) }
{
    let (left, right) = behind.split_at(behind.len() / 2);
    match right.split_first() {
        Some((middle, rest)) => {
            let mut one = Vec::new(alloc);
            push_united(alloc, first, left, &mut one)?;
            let mut other = Vec::new(alloc);
            push_united(alloc, middle, rest, &mut other)?;
            push_union(one.as_slice(), other.as_slice(), into)
        }
        None => push_each(first.content().united.as_slice(), into),
    }
}

/// Pushes the fields of either list in order, each once; each list is in ascending order. Returns `Memory` if allocation fails.
pub fn push_union<'a>(
    one: &[&'a Field],
    other: &[&'a Field],
    into: &mut Vec<&'a Field>,
) -> Result<(), Memory>
    requires one { IsTrue (is_ascending field_cmp (fields_of one.now)) }
    requires other { IsTrue (is_ascending field_cmp (fields_of other.now)) }
    ensures { OnOk result (fields_of into.new.items ≡ fields_of into.old.items
        ++ union field_cmp (fields_of one.now) (fields_of other.now)) }
{
    into.reserve(one.len().saturating_add(other.len()))?;
    let mut left = 0;
    let mut right = 0;
    while let (Some(x), Some(y)) = (one.get(left), other.get(right)) {
        match x.cmp(y) {
            Ordering::Less => {
                into.push(*x)?;
                left += 1;
            }
            Ordering::Equal => {
                into.push(*x)?;
                (left, right) = (left + 1, right + 1);
            }
            Ordering::Greater => {
                into.push(*y)?;
                right += 1;
            }
        }
    }
    into.extend_from_slice(&one[left..])?;
    into.extend_from_slice(&other[right..])?;
    Ok(())
}

/// Pushes each field. Returns `Memory` if allocation fails.
fn push_each<'a>(fields: &'a [Field], into: &mut Vec<&'a Field>) -> Result<(), Memory>
    ensures { OnOk result (fields_of into.new.items
        ≡ fields_of into.old.items ++ fields.now) }
{
    into.reserve(fields.len())?;
    for field in fields {
        into.push(field)?;
    }
    Ok(())
}
