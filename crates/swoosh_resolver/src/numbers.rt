//! The numbers under which the opened values of a change will stand.
ghost use Rattle.std.specs.Prelude.{◌≡◌, ◌≢◌, ◌+◌, ◌-◌, ◌^◌, ◌<◌, ◌≤◌, ◌↔◌, ◌⊎◌, ◌++◌, ◌∷◌, [], ℕ, Some, None, true, false, IfOk, OnOk, AllPairs, Contains, length};
ghost use Rattle.swoosh_resolver.specs.Tables.{Base, Entry};
ghost use Rattle.swoosh_resolver.specs.Changes.{AreGiven, AreVacated, IsStoodOn, StandApart, number_at};
ghost use Rattle.feature_index.specs.Postings.{Ascends};

use crate::keyed::Fresh;
use crate::posting::{in_order, push_if};
use merge_laws::resolvable::Resolvable;
use std::alloc::Global;
use union_base::memory::Memory;

/// Appends the number of the block on which the value stands, where it stands on one. Returns `Memory` if allocation fails.
fn push_base<R: Resolvable>(numbers: &mut Vec<u64>, fresh: &Fresh<R>) -> Result<(), Memory>
    ensures stands { OnOk result ((b : Base R) → fresh.now.base ≡ Some b
        → numbers.new.items ≡ numbers.old.items ++ b.number ∷ []) }
    ensures free { OnOk result (fresh.now.base ≡ None
        → numbers.new.items ≡ numbers.old.items) }
{
    match &fresh.standing {
        Some(standing) => {
            numbers.push(standing.number)?;
            Ok(())
        }
        None => Ok(()),
    }
}

/// The numbers of the blocks on which the values stand. Returns `Memory` if allocation fails.
fn stood_on<R: Resolvable>(alloc: Global, opened: &[Fresh<R>]) -> Result<Vec<u64>, Memory>
    ensures { IfOk result (λ numbers. (n : ℕ) → Contains numbers.items n
        ↔ IsStoodOn opened.now n) }
{
    let mut numbers = Vec::with_capacity(alloc, opened.len())?;
    for fresh in opened.iter() {
        push_base(&mut numbers, fresh)?;
    }
    Ok(numbers)
}

/// Whether the number is among the others, which are in ascending order. Takes no memory.
fn is_among(numbers: &[u64], number: u64) -> bool
    requires { Ascends numbers.now }
    ensures yes { result ≡ true → Contains numbers.now number }
    ensures no { result ≡ false → Contains numbers.now number → ⊥ }
{
    match numbers.binary_search(&number) {
        Ok(_) => true,
        Err(_) => false,
    }
}

/// The closed numbers on which no opened value stands, in their order. Returns `Memory` if allocation fails.
fn vacated<R: Resolvable>(
    alloc: Global,
    closed: &[u64],
    opened: &[Fresh<R>],
) -> Result<Vec<u64>, Memory>
    requires { AllPairs (λ m n. m ≢ n) closed.now }
    ensures { IfOk result (λ vacated. AreVacated closed.now opened.now vacated.items) }
{
    let stood = in_order(stood_on(alloc, opened)?)?;
    let mut vacated = Vec::new(alloc);
    for number in closed.iter() {
        let stays = is_among(stood.as_slice(), *number);
        push_if(&mut vacated, *number, !stays)?;
    }
    Ok(vacated)
}

/// The number at this place among those of the values that stand on no block: first the vacated numbers are given again, and then
/// new ones. Takes no memory.
fn number_at(vacated: &[u64], first: usize, place: usize) -> u64
    requires { first + (place - length vacated.now) < 2 ^ 64 }
    ensures { result ≡ number_at vacated.now first place }
{
    if place < vacated.len() {
        vacated[place]
    } else {
        (first + (place - vacated.len())) as u64
    }
}

/// The number of the block on which the value stands, or else the number at this place. Takes no memory.
fn number_for<R: Resolvable>(fresh: &Fresh<R>, vacated: &[u64], first: usize, place: usize) -> u64
    requires { first + (place - length vacated.now) < 2 ^ 64 }
    ensures stands { (b : Base R) → fresh.now.base ≡ Some b → result ≡ b.number }
    ensures free { fresh.now.base ≡ None → result ≡ number_at vacated.now first place }
{
    match &fresh.standing {
        Some(standing) => standing.number,
        None => number_at(vacated, first, place),
    }
}

/// The place of the next value that stands on no block, after this one. Takes no memory.
fn next_place<R: Resolvable>(fresh: &Fresh<R>, place: usize) -> usize
    requires { place + 1 < 2 ^ 64 }
    ensures stands { (b : Base R) → fresh.now.base ≡ Some b → result ≡ place }
    ensures free { fresh.now.base ≡ None → result ≡ place + 1 }
{
    match &fresh.standing {
        Some(_) => place,
        None => place + 1,
    }
}

/// The numbers of the opened values, in their order: those of the blocks on which they stand, and for the others the vacated numbers
/// and then new ones. Returns `Memory` if allocation fails.
fn numbers_for<R: Resolvable>(
    alloc: Global,
    vacated: &[u64],
    first: usize,
    opened: &[Fresh<R>],
) -> Result<Vec<u64>, Memory>
    requires small { first + length opened.now < 2 ^ 64 }
    requires distinct { AllPairs (λ m n. m ≢ n) vacated.now }
    requires old { (n : ℕ) → Contains vacated.now n → n < first }
    requires stood { (n : ℕ) → IsStoodOn opened.now n → (n < first)
        × (Contains vacated.now n → ⊥) }
    requires alone { AllPairs StandApart opened.now }
    ensures { IfOk result (λ numbers. AreGiven vacated.now first opened.now numbers.items) }
{
    let mut numbers = Vec::with_capacity(alloc, opened.len())?;
    let mut place = 0;
    for fresh in opened.iter() {
        numbers.push(number_for(fresh, vacated, first, place))?;
        place = next_place(fresh, place);
    }
    Ok(numbers)
}

/// The numbers of the opened values, in their order, and the closed numbers on which none of them stands. Returns `Memory` if
/// allocation fails.
pub(crate) fn seats<R: Resolvable>(
    alloc: Global,
    closed: &[u64],
    first: usize,
    opened: &[Fresh<R>],
) -> Result<(Vec<u64>, Vec<u64>), Memory>
    requires small { first + length opened.now < 2 ^ 64 }
    requires distinct { AllPairs (λ m n. m ≢ n) closed.now }
    requires old { (n : ℕ) → Contains closed.now n → n < first }
    requires stood { (n : ℕ) → IsStoodOn opened.now n → n < first }
    requires alone { AllPairs StandApart opened.now }
    ensures vacated { IfOk result (λ s. AreVacated closed.now opened.now s.1.items) }
    ensures given { IfOk result (λ s. AreGiven s.1.items first opened.now s.0.items) }
{
    let vacated = vacated(alloc, closed, opened)?;
    let numbers = numbers_for(alloc, vacated.as_slice(), first, opened)?;
    Ok((numbers, vacated))
}
