//! Lists in order and without repeats.
//!
//! The union and the test for a common value walk both lists once, side by side.
ghost use Rattle.std.specs.Prelude.{◌≡◌, ◌++◌, IfOk, OnOk, IsTrue};
ghost use Rattle.union_base.specs.SortedLists.{is_ascending, union, have_common, set_of};

use crate::copied::{Copied, push_copies, push_copy};
use crate::memory::Memory;
use std::alloc::Global;
use std::cmp::Ordering;
use std::marker::Model;

/// A value that sorted lists keep: of two values that compare as equal neither can be told from the other.
pub trait Element: Ord + Copied {
    ghost use Rattle.std.specs.FinMap.{IsAntisymmetric};

    ghost ties: { IsAntisymmetric Self.cmp };
}

impl<const N: usize> Element for [u8; N] {
    ghost use Rattle.union_base.specs.Ties.{texts_apart};

    ghost ties = { texts_apart };
}

impl<A: Element, B: Element> Element for (A, B) {
    ghost use Rattle.union_base.specs.Ties.{pairs_apart};

    ghost ties = { pairs_apart A.ties B.ties };
}

/// Values in ascending order, each once, which contracts see as a list.
#[derive(Debug, Drop)]
pub struct SortedList<K: Element> {
    items: Vec<K>,
}

impl<K: Element> Model for SortedList<K> {
    ghost use Rattle.std.specs.Prelude.{List, IsTrue};
    ghost use Rattle.union_base.specs.SortedLists.{is_ascending};

    ghost Value = { List K };

    ghost view = { λ s. s.items.items };

    ghost invariant = { λ s. IsTrue (is_ascending K.cmp s.items.items) };
}

impl<K: Element> SortedList<K> {
    /// The values of the list, in order, each once.
    pub fn of(list: Vec<K>) -> Result<SortedList<K>, Memory>
        ensures { IfOk result (λ s. s ≡ set_of K.cmp list.items) }
    {
        let mut items = list;
        items.sort()?;
        items.dedup();
        items.shrink_to_fit();
        Ok(SortedList { items })
    }

    /// The values. Takes no memory.
    pub fn as_slice(&self) -> &[K]
        ensures value { result.now ≡ self.now }
        ensures ascending { IsTrue (is_ascending K.cmp self.now) }
    {
        self.items.as_slice()
    }

    /// The values, given back. Takes no memory.
    pub fn into_vec(self) -> Vec<K>
        ensures value { result.items ≡ self }
        ensures ascending { IsTrue (is_ascending K.cmp self) }
    {
        let SortedList { items } = self;
        items
    }

    /// The values of either list.
    pub fn union(&self, alloc: Global, other: &SortedList<K>) -> Result<SortedList<K>, Memory>
        ensures { IfOk result (λ s. s ≡ union K.cmp self.now other.now) }
    {
        let mut items = merged(alloc, self.as_slice(), other.as_slice())?;
        items.shrink_to_fit();
        Ok(SortedList { items })
    }

    /// Whether some value stands in both lists. Takes no memory.
    pub fn has_common(&self, other: &SortedList<K>) -> bool
        ensures { result ≡ have_common K.cmp self.now other.now }
    {
        have_common_value(self.as_slice(), other.as_slice())
    }
}

impl<K: Element> Copied for SortedList<K> {
    fn copied(&self, alloc: Global) -> Result<SortedList<K>, Memory> {
        let mut items = Vec::with_capacity(alloc, self.items.len())?;
        push_copies(alloc, &mut items, self.items.as_slice())?;
        Ok(SortedList { items })
    }
}

/// The values of two ascending lists, in order, each once.
fn merged<K: Element>(alloc: Global, one: &[K], other: &[K]) -> Result<Vec<K>, Memory>
    requires one { IsTrue (is_ascending K.cmp one.now) }
    requires other { IsTrue (is_ascending K.cmp other.now) }
    ensures { IfOk result (λ items. items.items ≡ union K.cmp one.now other.now) }
{
    let mut items = Vec::with_capacity(alloc, one.len().saturating_add(other.len()))?;
    let mut left = one;
    let mut right = other;
    while let (Some((x, lefts)), Some((y, rights))) = (left.split_first(), right.split_first()) {
        match x.cmp(y) {
            Ordering::Less => {
                push_copy(alloc, &mut items, x)?;
                left = lefts;
            }
            Ordering::Equal => {
                push_copy(alloc, &mut items, x)?;
                (left, right) = (lefts, rights);
            }
            Ordering::Greater => {
                push_copy(alloc, &mut items, y)?;
                right = rights;
            }
        }
    }
    push_copies(alloc, &mut items, left)?;
    push_copies(alloc, &mut items, right)?;
    Ok(items)
}

/// Whether some value stands in both ascending lists.
fn have_common_value<K: Element>(one: &[K], other: &[K]) -> bool
    requires one { IsTrue (is_ascending K.cmp one.now) }
    requires other { IsTrue (is_ascending K.cmp other.now) }
    ensures { result ≡ have_common K.cmp one.now other.now }
{
    let mut left = one;
    let mut right = other;
    while let (Some((x, lefts)), Some((y, rights))) = (left.split_first(), right.split_first()) {
        match x.cmp(y) {
            Ordering::Less => left = lefts,
            Ordering::Equal => return true,
            Ordering::Greater => right = rights,
        }
    }
    false
}
