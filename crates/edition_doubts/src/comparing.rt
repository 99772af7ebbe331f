//! What records have in common, where each has a list of values.
ghost use Rattle.std.specs.Prelude.{◌≡◌, ◌∷◌, ◌++◌, [], not, OnOk};
ghost use Rattle.std.specs.List.{list_any};
ghost use Rattle.std.specs.Ordering.{eq_by_cmp};
ghost use Rattle.edition_doubts.specs.Comparing.{is_in_each, share_none, told, differ};

use edition_derivations::common::has;
use union_base::memory::Memory;
use union_base::sorted_list::{Element, SortedList};

fn is_in_each<K: Element>(lists: &[SortedList<K>], value: &K) -> bool
    ensures { result ≡ is_in_each K.cmp lists.now value.now }
{
    lists.iter().all(|list| has(list.as_slice(), value))
}

/// Whether some value of the list is in each of the others.
fn shares<K: Element>(list: &[K], others: &[SortedList<K>]) -> bool
    ensures { result ≡ list_any (is_in_each K.cmp others.now) list.now }
{
    list.iter().any(|value| is_in_each(others, value))
}

/// Whether no value is in all of the lists: false where there is no list. Takes no memory.
pub fn share_none<K: Element>(lists: &[SortedList<K>]) -> bool
    ensures { result ≡ share_none K.cmp lists.now }
{
    match lists {
        [] => false,
        [first, rest @ ..] => !shares(first.as_slice(), rest),
    }
}

/// Whether one of the values is another one.
fn has_other<K: Element>(values: &[K], value: &K) -> bool
    ensures { result ≡ list_any (λ other. not (eq_by_cmp K.cmp value.now other)) values.now }
{
    values.iter().any(|other| !value.cmp(other).is_eq())
}

/// Whether two of the values differ. Takes no memory.
pub fn differ<K: Element>(values: &[K]) -> bool
    ensures { result ≡ differ K.cmp values.now }
{
    match values {
        [] => false,
        [first, rest @ ..] => has_other(rest, first),
    }
}

/// Pushes the list, unless it is empty. Returns `Memory` if allocation fails.
pub(crate) fn push_told<K: Element>(
    lists: &mut Vec<SortedList<K>>,
    list: SortedList<K>,
) -> Result<(), Memory>
    ensures { OnOk result (lists.new.items ≡ lists.old.items ++ told (list ∷ [])) }
{
    if !list.as_slice().is_empty() {
        lists.push(list)?;
    }
    Ok(())
}
