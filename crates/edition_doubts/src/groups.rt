//! The editions to which records resolve, each with its records.
//!
//! Cost: the edition of a record is looked for under the record's id, where it is. Only if it were not there, all would be tested.
ghost use Rattle.std.specs.Prelude.{◌≡◌, ◌<◌, ◌++◌, ◌∷◌, [], false, IsTrue, List, length, slice_index_or};
ghost use Rattle.std.specs.Prelude.{IfOk, OnOk, IfSome, IfNone, All, Contains};
ghost use Rattle.merge_laws.specs.Resolution.{IsResolution};
ghost use Rattle.catalogue_editions.specs.Joining.{join};
ghost use Rattle.catalogue_editions.specs.Matching.{match as edition_match};
ghost use Rattle.catalogue_editions.specs.declared.edition.Edition.{Edition};
ghost use Rattle.edition_doubts.specs.Groups.{pairs_of, gathered, AreEditions};
ghost use Rattle.edition_doubts.specs.Placing.{with_member};

use catalogue_editions::edition::Edition;
use std::alloc::Global;
use std::collections::BTreeMap;
use union_base::copied::Copied;
use union_base::memory::Memory;
use union_base::record_id::RecordId;

/// An edition, and its records.
#[derive(Debug, Drop)]
pub struct Group {
    pub edition: Edition,
    pub members: Vec<Edition>,
}

/// Whether the editions match.
fn matches(one: &Edition, other: &Edition) -> bool
    ensures { result ≡ edition_match one.now other.now }
{
    one.features().meets(other.features())
}

/// The place of the edition of each record, under the record's id.
fn places_of(alloc: Global, editions: &[Edition]) -> Result<BTreeMap<RecordId, usize>, Memory> {
    let mut places = BTreeMap::new(alloc);
    for (place, edition) in editions.iter().enumerate() {
        for id in edition.contributors().as_slice() {
            places.insert(id.copied(alloc)?, place)?;
        }
    }
    Ok(places)
}

/// The place under the record's id, if the edition there is one that the record matches.
fn place_by_id(
    places: &BTreeMap<RecordId, usize>,
    editions: &[Edition],
    rec: &Edition,
) -> Option<usize>
    ensures within { IfSome result (λ i. i < length editions.now) }
    ensures found { IfSome result (λ i. (d : Edition)
        → IsTrue (edition_match rec.now (slice_index_or editions.now i d))) }
{
    let place = *places.get(rec.least())?;
    if place < editions.len() && matches(rec, &editions[place]) {
        Some(place)
    } else {
        None
    }
}

/// The place of the first edition that the record matches.
fn first_match(editions: &[Edition], rec: &Edition) -> Option<usize>
    ensures within { IfSome result (λ i. i < length editions.now) }
    ensures found { IfSome result (λ i. (d : Edition)
        → IsTrue (edition_match rec.now (slice_index_or editions.now i d))) }
    ensures none { IfNone result (All (λ x. edition_match rec.now x ≡ false) editions.now) }
{
    for (i, edition) in editions.iter().enumerate() {
        if matches(rec, edition) {
            return Some(i);
        }
    }
    None
}

/// The place of an edition that the record matches.
fn place_of(
    places: &BTreeMap<RecordId, usize>,
    editions: &[Edition],
    rec: &Edition,
) -> Option<usize>
    ensures within { IfSome result (λ i. i < length editions.now) }
    ensures found { IfSome result (λ i. (d : Edition)
        → IsTrue (edition_match rec.now (slice_index_or editions.now i d))) }
    ensures none { IfNone result (All (λ x. edition_match rec.now x ≡ false) editions.now) }
{
    match place_by_id(places, editions, rec) {
        Some(place) => Some(place),
        None => first_match(editions, rec),
    }
}

/// The edition, without records.
fn without_members(alloc: Global, edition: &Edition) -> Result<Group, Memory>
    ensures edition { IfOk result (λ group. group.edition ≡ edition.now) }
    ensures members { IfOk result (λ group. group.members.items ≡ []) }
{
    Ok(Group {
        edition: edition.shared()?,
        members: Vec::new(alloc),
    })
}

/// Each edition, without records.
fn all_without_members(alloc: Global, editions: &[Edition]) -> Result<Vec<Group>, Memory>
    ensures { IfOk result (λ groups. pairs_of groups.items ≡ gathered [] editions.now) }
{
    let mut groups = Vec::with_capacity(alloc, editions.len())?;
    for edition in editions {
        let group = without_members(alloc, edition)?;
        groups.push(group)?;
    }
    Ok(groups)
}

/// Adds the record to the group at that place.
fn push_member(groups: &mut Vec<Group>, place: usize, rec: Edition) -> Result<(), Memory>
    ensures { OnOk result (pairs_of groups.new.items
        ≡ with_member place rec (pairs_of groups.old.items)) }
{
    if place < groups.len() {
        groups[place].members.push(rec)?;
    }
    Ok(())
}

/// Adds the record to the group of the edition that it matches.
fn add_member(
    groups: &mut Vec<Group>,
    places: &BTreeMap<RecordId, usize>,
    editions: &[Edition],
    rec: &Edition,
) -> Result<(), Memory>
    ensures { OnOk result ((records before : List Edition)
        → IsResolution edition_match join records editions.now → Contains records rec.now
        → pairs_of groups.old.items ≡ gathered before editions.now
        → pairs_of groups.new.items ≡ gathered (before ++ rec.now ∷ []) editions.now) }
{
    match place_of(places, editions, rec) {
        Some(place) => {
            push_member(groups, place, rec.shared()?)?;
            Ok(())
        }
        None => Ok(()),
    }
}

/// Each edition with those of the records that match it.
fn gathered(alloc: Global, records: &[Edition], editions: &[Edition]) -> Result<Vec<Group>, Memory>
    requires { IsResolution edition_match join records.now editions.now }
    ensures { IfOk result (λ groups.
        pairs_of groups.items ≡ gathered records.now editions.now) }
{
    let places = places_of(alloc, editions)?;
    let mut groups = all_without_members(alloc, editions)?;
    for rec in records {
        add_member(&mut groups, &places, editions, rec)?;
    }
    Ok(groups)
}

/// Each of the editions to which records resolve, with its records. Returns `Memory` if allocation fails.
pub fn groups_of(
    alloc: Global,
    records: &[Edition],
    editions: &[Edition],
) -> Result<Vec<Group>, Memory>
    requires { IsResolution edition_match join records.now editions.now }
    ensures pairs { IfOk result (λ groups.
        pairs_of groups.items ≡ gathered records.now editions.now) }
    ensures editions { IfOk result (λ groups. AreEditions (pairs_of groups.items)) }
{
    let groups = gathered(alloc, records, editions)?;
    Ok(groups)
}
