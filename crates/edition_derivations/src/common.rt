//! The values that two lists have in common.
//!
//! Cost: each call looks at the other list for each value of the one, up to the first that is common.
ghost use Rattle.std.specs.Prelude.{◌≡◌};
ghost use Rattle.std.specs.Option.{option_copied};
ghost use Rattle.union_base.specs.SortedLists.{has};
ghost use Rattle.match_features.specs.Meeting.{is_no_serial};
ghost use Rattle.edition_derivations.specs.Common.{first_common, first_common_but_serials};

use union_base::sorted_list::{Element, SortedList};

/// The bibliographic level of a serial (MARC 21, leader/07).
const SERIAL: u8 = b's';

/// Whether the value stands in the list. Takes no memory.
pub fn has<K: Element>(list: &[K], value: &K) -> bool
    ensures { result ≡ has K.cmp list.now value.now }
{
    list.iter().any(|other| value.cmp(other).is_eq())
}

/// The first value of one list that stands in the other, too: None where the lists have none in common. Takes no memory.
pub fn first_common<'a, K: Element>(one: &'a SortedList<K>, other: &SortedList<K>) -> Option<&'a K>
    ensures { option_copied result ≡ first_common K.cmp one.now other.now }
{
    let values = other.as_slice();
    one.as_slice().iter().find(|value| has(values, value))
}

/// Whether the type's bibliographic level is no serial's.
fn is_no_serial(kind: &[u8; 2]) -> bool
    ensures { result ≡ is_no_serial kind.now }
{
    kind[1] != SERIAL
}

/// The first type of one list that is no serial's and stands in the other, too: None where there is none. Takes no memory.
pub fn first_common_but_serials<'a>(
    one: &'a SortedList<[u8; 2]>,
    other: &SortedList<[u8; 2]>,
) -> Option<&'a [u8; 2]>
    ensures { option_copied result ≡ first_common_but_serials one.now other.now }
{
    let values = other.as_slice();
    one.as_slice()
        .iter()
        .filter(|kind| is_no_serial(kind))
        .find(|kind| has(values, kind))
}
