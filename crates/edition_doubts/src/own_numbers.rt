//! Records of two libraries that both number their own under one source.
//!
//! Cost: each two records are compared.
ghost use Rattle.std.specs.Prelude.{◌≡◌, ◌&&◌, ◌||◌, IfOk};
ghost use Rattle.std.specs.List.{list_any};
ghost use Rattle.match_features.specs.Meeting.{meet_by_isbn, meet_by_issn, meet_by_title};
ghost use Rattle.edition_doubts.specs.Pairs.{some_pair};
ghost use Rattle.edition_doubts.specs.OwnNumbers.{is_own, is_other_number, share_other_number, are_of_one_library};
ghost use Rattle.edition_doubts.specs.OwnNumbers.{match_by_control, match_by_own, are_joined_by_own};

use crate::meeting::{meet_by_control, meet_by_isbn, meet_by_words};
use catalogue_editions::edition::Edition;
use edition_derivations::common::has;
use isbn_keys::control::pair;
use match_features::features::Features;
use std::alloc::Global;
use union_base::bytes::Bytes;
use union_base::memory::Memory;

/// Whether the control number is that of the record's own 001 under the source.
fn is_own(alloc: Global, rec: &Edition, number: &(Bytes, Bytes)) -> Result<bool, Memory>
    ensures { IfOk result (λ is. is ≡ is_own rec.now number.now) }
{
    match pair(alloc, number.0.bytes(), rec.least().control.bytes())? {
        Some(own) => Ok(number.cmp(&own).is_eq()),
        None => Ok(false),
    }
}

/// Whether the control number is the own one of both records.
fn is_own_of_both(
    alloc: Global,
    one: &Edition,
    other: &Edition,
    number: &(Bytes, Bytes),
) -> Result<bool, Memory>
    ensures { IfOk result (λ is. is ≡ (is_own one.now number.now && is_own other.now number.now)) }
{
    if is_own(alloc, one, number)? {
        is_own(alloc, other, number)
    } else {
        Ok(false)
    }
}

/// Whether the control number, which the one record has, is in the other, and not the own one of both.
fn is_other_number(
    alloc: Global,
    one: &Edition,
    other: &Edition,
    number: &(Bytes, Bytes),
) -> Result<bool, Memory>
    ensures { IfOk result (λ is. is ≡ is_other_number one.now other.now number.now) }
{
    if has(other.features().control.as_slice(), number) {
        let is_own = is_own_of_both(alloc, one, other, number)?;
        Ok(!is_own)
    } else {
        Ok(false)
    }
}

/// Whether one of the control numbers of the one record is.
fn some_is_other(
    alloc: Global,
    one: &Edition,
    other: &Edition,
    numbers: &[(Bytes, Bytes)],
) -> Result<bool, Memory>
    ensures { IfOk result (λ is. is ≡ list_any (is_other_number one.now other.now) numbers.now) }
{
    let mut left = numbers;
    while let Some((number, rest)) = left.split_first() {
        if is_other_number(alloc, one, other, number)? {
            return Ok(true);
        }
        left = rest;
    }
    Ok(false)
}

fn are_of_one_library(one: &Edition, other: &Edition) -> bool
    ensures { result ≡ are_of_one_library one.now other.now }
{
    one.least().library == other.least().library
}

/// Whether the features meet by something else than a control number.
fn meet_otherwise(one: &Features, other: &Features) -> bool
    ensures { result ≡ (meet_by_isbn one.now other.now
        || (meet_by_issn one.now other.now || meet_by_title one.now other.now)) }
{
    meet_by_isbn(one, other) || meet_by_words(one, other)
}

fn match_by_control(one: &Edition, other: &Edition) -> bool
    ensures { result ≡ match_by_control one.now other.now }
{
    let (x, y) = (one.features(), other.features());
    meet_by_control(x, y) && !meet_otherwise(x, y)
}

/// Whether the records of two libraries match by control numbers that are the own ones of both, and by nothing else.
fn match_by_own(alloc: Global, one: &Edition, other: &Edition) -> Result<bool, Memory>
    ensures { IfOk result (λ are. are ≡ match_by_own one.now other.now) }
{
    if are_of_one_library(one, other) || !match_by_control(one, other) {
        return Ok(false);
    }
    let numbers = one.features().control.as_slice();
    let is_other = some_is_other(alloc, one, other, numbers)?;
    Ok(!is_other)
}

/// Whether the record so matches one of the others.
fn matches_some(alloc: Global, one: &Edition, others: &[Edition]) -> Result<bool, Memory>
    ensures { IfOk result (λ some. some ≡ list_any (match_by_own one.now) others.now) }
{
    let mut left = others;
    while let Some((other, rest)) = left.split_first() {
        if match_by_own(alloc, one, other)? {
            return Ok(true);
        }
        left = rest;
    }
    Ok(false)
}

/// Whether two of the records, of two libraries, match by control numbers that are the own ones of both, and by nothing else. Returns
/// `Memory` if allocation fails.
pub fn are_joined_by_own(alloc: Global, records: &[Edition]) -> Result<bool, Memory>
    ensures { IfOk result (λ are. are ≡ are_joined_by_own records.now) }
{
    let mut left = records;
    while let Some((first, rest)) = left.split_first() {
        if matches_some(alloc, first, rest)? {
            return Ok(true);
        }
        left = rest;
    }
    Ok(false)
}
