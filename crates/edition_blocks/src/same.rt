//! Whether two editions are equal in all their parts.
ghost use Rattle.std.specs.Prelude.{◌≡◌, ◌↔◌, IfOk, IsTrue};

use catalogue_editions::edition::Edition;
use field_merge::content::Content;
use field_merge::fixed::Fixed;
use field_merge::slot::Slot;
use match_features::features::Features;
use std::alloc::Global;
use union_base::memory::Memory;
use union_base::sorted_list::{Element, SortedList};

/// Whether the lists have the same values. Takes no memory.
fn are_same_lists<K: Element>(one: &SortedList<K>, other: &SortedList<K>) -> bool
    ensures { IsTrue result ↔ (one.now ≡ other.now) }
{
    one.as_slice().cmp(other.as_slice()).is_eq()
}

/// Whether the fixed parts are equal, with their ranks. Takes no memory.
fn are_same_fixed(one: &Fixed, other: &Fixed) -> bool
    ensures { IsTrue result ↔ (one.now ≡ other.now) }
{
    one.cmp(other).is_eq()
}

/// Whether the slots have the same rank and field. Takes no memory.
fn is_same_slot(one: &Slot, other: &Slot) -> bool
    ensures { IsTrue result ↔ (one.now ≡ other.now) }
{
    one.cmp(other).is_eq()
}

/// Whether both slots are absent, or both have the same rank and field. Takes no memory.
fn are_same_slots(one: &Option<Slot>, other: &Option<Slot>) -> bool
    ensures { IsTrue result ↔ (one.now ≡ other.now) }
{
    one.cmp(other).is_eq()
}

/// Whether the features are equal. Takes no memory.
fn are_same_features(one: &Features, other: &Features) -> bool
    ensures { IsTrue result ↔ (one.now ≡ other.now) }
{
    let control = are_same_lists(&one.control, &other.control);
    let types = are_same_lists(&one.types, &other.types);
    let isbns = are_same_lists(&one.isbns, &other.isbns);
    let issns = are_same_lists(&one.issns, &other.issns);
    let titles = are_same_lists(&one.titles, &other.titles);
    let dates = are_same_lists(&one.dates, &other.dates);
    let names = are_same_lists(&one.names, &other.names);
    control & types & isbns & issns & titles & dates & names
}

/// Whether the contents are equal, with the ranks of their parts. Takes no memory.
fn are_same_contents(one: &Content, other: &Content) -> bool
    ensures { IsTrue result ↔ (one.now ≡ other.now) }
{
    let contributors = are_same_lists(&one.contributors, &other.contributors);
    let fixed = are_same_fixed(&one.fixed, &other.fixed);
    let f005 = are_same_slots(&one.f005, &other.f005);
    let f010 = are_same_slots(&one.f010, &other.f010);
    let f040 = are_same_slots(&one.f040, &other.f040);
    let f1xx = are_same_slots(&one.f1xx, &other.f1xx);
    let f240 = are_same_slots(&one.f240, &other.f240);
    let f245 = is_same_slot(&one.f245, &other.f245);
    let united = are_same_lists(&one.united, &other.united);
    contributors & fixed & f005 & f010 & f040 & f1xx & f240 & f245 & united
}

/// Whether the editions are equal: in their contributors, their features, and what they show, with the ranks of its parts. What
/// they show is made only where the others are equal.
///
/// Returns `Memory` if allocation fails.
pub fn is_same(alloc: Global, one: &Edition, other: &Edition) -> Result<bool, Memory>
    ensures { IfOk result (λ same. IsTrue same ↔ (one.now ≡ other.now)) }
{
    if !are_same_lists(one.contributors(), other.contributors()) {
        return Ok(false);
    }
    if !are_same_features(one.features(), other.features()) {
        return Ok(false);
    }
    let shown = one.content(alloc)?;
    let beside = other.content(alloc)?;
    Ok(are_same_contents(shown.content(), beside.content()))
}
