//! The reasons to look at an edition.
ghost use Rattle.std.specs.Prelude.{◌≡◌, filter, IfOk};
ghost use Rattle.edition_doubts.specs.Doubts.{contents_of, stands, doubts_of};

use crate::codes::languages_differ;
use crate::materials::carriers_differ;
use crate::own_numbers::are_joined_by_own;
use crate::sets::are_joined_by_sets;
use crate::statements::statements_differ;
use crate::titles::{shares_no_isbn, shares_no_title};
use catalogue_editions::edition::Edition;
use catalogue_editions::shared_content::SharedContent;
use std::alloc::Global;
use union_base::memory::Memory;

/// A reason to look at a merged edition.
#[derive(Clone, Copy, Debug, PartialEq, Eq)]
pub enum Doubt {
    /// Its records have no title in common (MARC 21, 245).
    Titles,
    /// Its records that have ISBNs have none in common (MARC 21, 020).
    Isbns,
    /// Its records are in different languages (MARC 21, 008/35-37).
    Languages,
    /// Its records describe different carriers (MARC 21, 006/00, 007/00 and 008/23).
    Carriers,
    /// Its records have different edition statements (MARC 21, 250).
    Statements,
    /// Two of its records match by the ISBN of a set, or of a volume of one, and by nothing else (MARC 21, 020).
    Sets,
    /// Two of its records, of two libraries that number their own under one source, match by that number and by nothing else (MARC 21,
    /// 001 and 003).
    OwnNumbers,
}

/// All reasons, in the order in which they are told.
pub const ALL: [Doubt; 7] = [
    Doubt::Titles,
    Doubt::Isbns,
    Doubt::Languages,
    Doubt::Carriers,
    Doubt::Statements,
    Doubt::Sets,
    Doubt::OwnNumbers,
];

/// What the records say. Returns `Memory` if allocation fails.
fn contents_of(alloc: Global, records: &[Edition]) -> Result<Vec<SharedContent>, Memory>
    ensures { IfOk result (λ contents. contents.items ≡ contents_of records.now) }
{
    let mut contents = Vec::with_capacity(alloc, records.len())?;
    for rec in records {
        contents.push(rec.content(alloc)?)?;
    }
    Ok(contents)
}

impl Doubt {
    /// Whether the reason stands of the records, which say these contents. Returns `Memory` if allocation fails.
    fn stands(
        self,
        alloc: Global,
        records: &[Edition],
        contents: &[SharedContent],
    ) -> Result<bool, Memory>
        requires { contents.now ≡ contents_of records.now }
        ensures { IfOk result (λ it. it ≡ stands records.now self) }
    {
        match self {
            Doubt::Titles => shares_no_title(alloc, records),
            Doubt::Isbns => shares_no_isbn(alloc, records),
            Doubt::Languages => languages_differ(alloc, contents),
            Doubt::Carriers => carriers_differ(alloc, contents),
            Doubt::Statements => statements_differ(alloc, contents),
            Doubt::Sets => are_joined_by_sets(alloc, records, contents),
            Doubt::OwnNumbers => are_joined_by_own(alloc, records),
        }
    }
}

/// Those of the reasons that stand of the records, which say these contents.
fn standing(
    alloc: Global,
    records: &[Edition],
    contents: &[SharedContent],
    doubts: &[Doubt],
) -> Result<Vec<Doubt>, Memory>
    requires { contents.now ≡ contents_of records.now }
    ensures { IfOk result (λ found. found.items ≡ filter (stands records.now) doubts.now) }
{
    let mut found = Vec::new(alloc);
    for doubt in doubts {
        if doubt.stands(alloc, records, contents)? {
            found.push(*doubt)?;
        }
    }
    Ok(found)
}

/// The reasons that stand of the records of an edition, in order. Returns `Memory` if allocation fails.
pub fn doubts_of(alloc: Global, records: &[Edition]) -> Result<Vec<Doubt>, Memory>
    ensures { IfOk result (λ doubts. doubts.items ≡ doubts_of records.now) }
{
    let contents = contents_of(alloc, records)?;
    standing(alloc, records, contents.as_slice(), &ALL)
}
