//! Records that an ISBN of a set joins, or of one of its volumes.
//!
//! Cost: each record's fields are read once; each two records are compared.
ghost use Rattle.std.specs.Prelude.{◌≡◌, ◌||◌, ◌++◌, false, take, drop, IfOk, OnOk};
ghost use Rattle.std.specs.List.{list_any, flat_map};
ghost use Rattle.match_features.specs.Meeting.{meet_by_control, meet_by_issn, meet_by_title};
ghost use Rattle.record_features.specs.Gathering.{isbn_in, isbns_in};
ghost use Rattle.edition_doubts.specs.Pairs.{some_pair};
ghost use Rattle.edition_doubts.specs.Sets.{is_set, is_volume, begins_with_letter, begins_with_set, tells_from, tells_of_set};
ghost use Rattle.edition_doubts.specs.Sets.{set_isbns_in, set_isbns_of, set_isbns, share_other_isbn, match_by_sets, are_joined_by_sets};

use crate::meeting::{meet_by_control, meet_by_isbn, meet_by_words};
use catalogue_editions::edition::Edition;
use catalogue_editions::shared_content::SharedContent;
use edition_derivations::common::has;
use field_merge::content::Content;
use isbn_keys::isbn::isbn;
use marc_parts::parts::has_tag;
use match_features::features::Features;
use std::alloc::Global;
use union_base::field::Field;
use union_base::memory::Memory;
use union_base::sorted_list::SortedList;
use union_base::subfield::Subfield;
use union_base::subfields::Subfields;

/// The code of the subfields in which ISBNs stand (MARC 21, 020 `$a`).
const NUMBER: u8 = b'a';

/// The code of the subfields in which their qualifiers stand (MARC 21, 020 `$q`).
const QUALIFIER: u8 = b'q';

/// Up to so many bytes at the beginning.
fn front(text: &[u8], size: usize) -> &[u8]
    ensures { result.now ≡ take size text.now }
{
    if text.len() < size {
        text
    } else {
        &text[..size]
    }
}

/// What follows so many bytes.
fn behind(text: &[u8], size: usize) -> &[u8]
    ensures { result.now ≡ drop size text.now }
{
    if text.len() < size {
        &[]
    } else {
        &text[size..]
    }
}

fn is_set(word: &[u8]) -> bool
    ensures { result ≡ is_set word.now }
{
    word == b"set".as_slice() || word == b"Set".as_slice() || word == b"SET".as_slice()
}

fn is_volume(word: &[u8]) -> bool
    ensures { result ≡ is_volume word.now }
{
    word == b"v.".as_slice() || word == b"V.".as_slice()
}

fn begins_with_letter(text: &[u8]) -> bool
    ensures { result ≡ begins_with_letter text.now }
{
    match text {
        [] => false,
        [first, ..] => first.is_ascii_alphabetic(),
    }
}

/// Whether the text begins with `set` as a whole word, or with `v.`.
fn begins_with_set(text: &[u8]) -> bool
    ensures { result ≡ begins_with_set text.now }
{
    (is_set(front(text, 3)) && !begins_with_letter(behind(text, 3))) || is_volume(front(text, 2))
}

/// Whether `set` stands in the text as a whole word, or `v.` at the beginning of one.
fn tells(text: &[u8]) -> bool
    ensures { result ≡ tells_from false text.now }
{
    let mut is_behind = false;
    let mut left = text;
    while let Some((first, rest)) = left.split_first() {
        if !is_behind && begins_with_set(left) {
            return true;
        }
        is_behind = first.is_ascii_alphabetic();
        left = rest;
    }
    false
}

/// Whether a number, or its qualifier, tells of a set.
fn tells_of_set(subfield: &Subfield<'_>) -> bool
    ensures { result ≡ tells_of_set subfield.now }
{
    (subfield.code == NUMBER || subfield.code == QUALIFIER) && tells(subfield.text)
}

/// Whether one of the subfields does.
fn some_tells(subfields: Subfields<'_>) -> bool
    ensures { result ≡ list_any tells_of_set subfields.entry }
{
    for subfield in subfields {
        if tells_of_set(&subfield) {
            return true;
        }
    }
    false
}

/// Pushes the ISBN of a subfield, where it is one.
fn push_isbn(isbns: &mut Vec<[u8; 13]>, subfield: &Subfield<'_>) -> Result<(), Memory>
    ensures { OnOk result (isbns.new.items ≡ isbns.old.items ++ isbn_in subfield.now) }
{
    if subfield.code != NUMBER {
        return Ok(());
    }
    if let Some(digits) = isbn(subfield.text) {
        isbns.push(digits)?;
    }
    Ok(())
}

/// Pushes each ISBN of the subfields.
fn push_isbns(isbns: &mut Vec<[u8; 13]>, subfields: Subfields<'_>) -> Result<(), Memory>
    ensures { OnOk result (isbns.new.items ≡ isbns.old.items ++ flat_map isbn_in subfields.entry) }
{
    for subfield in subfields {
        push_isbn(isbns, &subfield)?;
    }
    Ok(())
}

/// Pushes the ISBNs of a field.
fn push_field(isbns: &mut Vec<[u8; 13]>, field: &Field) -> Result<(), Memory>
    ensures { OnOk result (isbns.new.items ≡ isbns.old.items ++ isbns_in field.now) }
{
    if has_tag(b"020", field) {
        push_isbns(isbns, field.body.subfields())
    } else {
        Ok(())
    }
}

/// Pushes the ISBNs of a field that tells of a set.
fn push_told(isbns: &mut Vec<[u8; 13]>, field: &Field) -> Result<(), Memory>
    ensures { OnOk result (isbns.new.items ≡ isbns.old.items ++ set_isbns_in field.now) }
{
    if some_tells(field.body.subfields()) {
        push_field(isbns, field)
    } else {
        Ok(())
    }
}

/// Pushes the ISBNs of a record's fields that tell of a set.
fn push_set_isbns(isbns: &mut Vec<[u8; 13]>, content: &Content) -> Result<(), Memory>
    ensures { OnOk result (isbns.new.items ≡ isbns.old.items ++ set_isbns_of content.now) }
{
    for field in content.united.as_slice() {
        push_told(isbns, field)?;
    }
    Ok(())
}

/// The ISBNs that some record tells as a set's.
fn set_isbns(alloc: Global, contents: &[SharedContent]) -> Result<SortedList<[u8; 13]>, Memory>
    ensures { IfOk result (λ sets. sets ≡ set_isbns contents.now) }
{
    let mut isbns = Vec::new(alloc);
    for content in contents {
        push_set_isbns(&mut isbns, content.content())?;
    }
    SortedList::of(isbns)
}

/// Whether an ISBN of both is no set's.
fn share_other_isbn(sets: &[[u8; 13]], one: &[[u8; 13]], other: &[[u8; 13]]) -> bool
    ensures { result ≡ share_other_isbn sets.now one.now other.now }
{
    one.iter().any(|isbn| has(other, isbn) && !has(sets, isbn))
}

/// Whether the features meet by something else than an ISBN.
fn meet_otherwise(one: &Features, other: &Features) -> bool
    ensures { result ≡ (meet_by_control one.now other.now
        || (meet_by_issn one.now other.now || meet_by_title one.now other.now)) }
{
    meet_by_control(one, other) || meet_by_words(one, other)
}

/// Whether the records match by ISBNs of sets, and by nothing else.
fn match_by_sets(sets: &[[u8; 13]], one: &Edition, other: &Edition) -> bool
    ensures { result ≡ match_by_sets sets.now one.now other.now }
{
    let (x, y) = (one.features(), other.features());
    meet_by_isbn(x, y)
        && !share_other_isbn(sets, x.isbns.as_slice(), y.isbns.as_slice())
        && !meet_otherwise(x, y)
}

/// Whether the record so matches one of the others.
fn matches_some(sets: &[[u8; 13]], one: &Edition, others: &[Edition]) -> bool
    ensures { result ≡ list_any (match_by_sets sets.now one.now) others.now }
{
    others.iter().any(|other| match_by_sets(sets, one, other))
}

/// Whether two of the records so match.
fn some_match(sets: &[[u8; 13]], records: &[Edition]) -> bool
    ensures { result ≡ some_pair (match_by_sets sets.now) records.now }
{
    let mut left = records;
    while let Some((first, rest)) = left.split_first() {
        if matches_some(sets, first, rest) {
            return true;
        }
        left = rest;
    }
    false
}

/// Whether two of the records, which say these contents, match by ISBNs of sets, and by nothing else. Returns `Memory` if allocation
/// fails.
pub fn are_joined_by_sets(
    alloc: Global,
    records: &[Edition],
    contents: &[SharedContent],
) -> Result<bool, Memory>
    ensures { IfOk result (λ are. are ≡ are_joined_by_sets records.now contents.now) }
{
    let sets = set_isbns(alloc, contents)?;
    Ok(some_match(sets.as_slice(), records))
}
