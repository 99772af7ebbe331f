//! What holds of every sorted list: the union makes a set of two, and a common value stays one.
//!
//! Each function here does nothing when it runs: its contract is the law.
ghost use Rattle.std.specs.Prelude.{◌≡◌, ◌∷◌, ◌||◌, List, IsTrue};
ghost use Rattle.union_base.specs.SortedLists.{is_ascending, union, have_common};

use crate::sorted_list::Element;

/// The union of a list with itself is the list.
pub fn union_is_idempotent<K: Element>()
    ensures { (xs : List K) → IsTrue (is_ascending K.cmp xs) → union K.cmp xs xs ≡ xs }
{}

/// The union does not depend on the order of the two lists.
pub fn union_is_commutative<K: Element>()
    ensures { (xs ys : List K) → IsTrue (is_ascending K.cmp xs) → IsTrue (is_ascending K.cmp ys)
        → union K.cmp xs ys ≡ union K.cmp ys xs }
{}

/// The union of three lists does not depend on how they are grouped.
pub fn union_is_associative<K: Element>()
    ensures { (xs ys zs : List K) → IsTrue (is_ascending K.cmp xs)
        → union K.cmp (union K.cmp xs ys) zs ≡ union K.cmp xs (union K.cmp ys zs) }
{}

/// A union is in order and without repeats.
pub fn union_is_ascending<K: Element>()
    ensures { (xs ys : List K) → IsTrue (is_ascending K.cmp xs)
        → IsTrue (is_ascending K.cmp (union K.cmp xs ys)) }
{}

/// Two lists have a common value in either order, or in neither.
pub fn common_value_is_symmetric<K: Element>()
    ensures { (xs ys : List K) → have_common K.cmp xs ys ≡ have_common K.cmp ys xs }
{}

/// A list that is not empty has a common value with itself.
pub fn common_value_is_reflexive<K: Element>()
    ensures { (x : K) (xs : List K) → IsTrue (have_common K.cmp (x ∷ xs) (x ∷ xs)) }
{}

/// A list has a common value with a union exactly where it has one with either side.
pub fn common_value_with_union<K: Element>()
    ensures { (xs ys zs : List K) → have_common K.cmp xs (union K.cmp ys zs)
        ≡ (have_common K.cmp xs ys || have_common K.cmp xs zs) }
{}
