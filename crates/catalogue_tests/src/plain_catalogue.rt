//! The plain catalogue: the definition's plain program, with which the catalogue is compared.
//!
//! It answers what [`catalogue_core::catalogue::Catalogue`] answers, by the same clauses, and makes all anew at each turn: it
//! goes through its whole history for the records that are current, and resolves these from scratch.
ghost use Rattle.std.specs.Prelude.{◌≡◌, ◌++◌, ◌∷◌, [], List, length, not, is_none, IfOk, OnOk, OnErr};
ghost use Rattle.std.specs.FinMap.{empty};
ghost use Rattle.std.specs.Map.{values_of};
ghost use Rattle.std.specs.Option.{option_copied};
ghost use Rattle.union_base.specs.SortedLists.{has};
ghost use Rattle.union_base.specs.RecordIds.{id_cmp};
ghost use Rattle.work_clusters.specs.Works.{works_of};
ghost use Rattle.catalogue_core.specs.EditionKeys.{work_pairs};
ghost use Rattle.catalogue_core.specs.Histories.{after_batch, after_op, at_id, bases, current, is_current, outcome_of, outcomes, AreEditionsOf};
ghost use Rattle.catalogue_core.specs.Resolutions.{IsOrderedResolution};
ghost use Rattle.catalogue_core.specs.Walks.{holder_of};
ghost use Rattle.catalogue_editions.specs.declared.edition.Edition.{Edition as EditionModel};

use authority_names::name_table::NameTable;
use catalogue_core::batch::Batch;
use catalogue_core::edition::Edition;
use catalogue_core::history_entry::HistoryEntry;
use catalogue_core::laws::sorted_resolution_is_ordered;
use catalogue_core::op::Op;
use catalogue_core::ordering::sorted_by_least;
use catalogue_core::outcome::Outcome;
use catalogue_core::work_key::work_key_of;
use key_hashing::hashing::Hashing;
use merge_laws::join::Join;
use merge_laws::steps::Steps;
use merge_laws::swoosh::resolve_plain;
use std::alloc::Global;
use std::collections::BTreeMap;
use std::marker::Model;
use std::sync::ledger::Ledger;
use union_base::bytes::Bytes;
use union_base::copied::Copied;
use union_base::library_code::LibraryCode;
use union_base::memory::Memory;
use union_base::record_id::RecordId;
use work_clusters::works::Works;

/// The union catalogue of some libraries, without names, made anew at each turn. Contracts see it as its history.
#[derive(Drop)]
pub struct PlainCatalogue {
    history: Vec<HistoryEntry>,
    records: BTreeMap<RecordId, Edition>,
    editions: Vec<Edition>,
    works: Works,
}

impl Model for PlainCatalogue {
    ghost use Rattle.std.specs.Prelude.{◌≡◌, List};
    ghost use Rattle.std.specs.FinMap.{empty};
    ghost use Rattle.work_clusters.specs.Works.{works_of};
    ghost use Rattle.catalogue_core.specs.EditionKeys.{work_pairs};
    ghost use Rattle.catalogue_core.specs.Histories.{current, AreEditionsOf};
    ghost use Rattle.catalogue_editions.specs.declared.history_entry.HistoryEntry.{HistoryEntry};

    ghost Value = { List HistoryEntry };

    ghost view = { λ c. c.history.items };

    ghost invariant = { λ c. (c.records.entries ≡ current c.history.items) × AreEditionsOf c.history.items c.editions.items
        × (c.works.works ≡ works_of (work_pairs empty c.editions.items)) };
}

impl PlainCatalogue {
    /// A catalogue without history.
    pub fn empty(alloc: Global) -> PlainCatalogue
        ensures { result ≡ [] }
    {
        PlainCatalogue {
            history: Vec::new(alloc),
            records: BTreeMap::new(alloc),
            editions: Vec::new(alloc),
            works: Works::empty(alloc),
        }
    }

    /// Applies a batch under that number, and answers what came of each of its operations. If allocation fails, the
    /// catalogue is as before.
    pub fn apply<L: Ledger>(
        &mut self,
        alloc: Global,
        number: u32,
        batch: Batch,
        steps: &mut Steps<L>,
    ) -> Result<Vec<Outcome>, Memory>
        ensures appended { OnOk result (self.new ≡ self.old
            ++ record { pass = number; batch = batch } ∷ []) }
        ensures outcomes { IfOk result (λ found. found.items
            ≡ outcomes batch.library (current self.old) batch.ops) }
        ensures kept { OnErr result (self.new ≡ self.old) }
    {
        let mut records = current_records(alloc, &self.history)?;
        let outcomes = follow_all(alloc, &mut records, &batch)?;
        let editions = resolved(alloc, &records, steps)?;
        let works = clustered(alloc, &editions)?;
        self.history.push(HistoryEntry {
            pass: number,
            batch,
        })?;
        self.records = records;
        self.editions = editions;
        self.works = works;
        Ok(outcomes)
    }

    /// The editions in order of their least contributors.
    pub fn editions(&self) -> &[Edition]
        ensures { AreEditionsOf self.now result.now }
    {
        self.editions.as_slice()
    }

    /// The edition that the record of that id is a contributor of: None exactly where it is not current.
    pub fn holder(&self, id: &RecordId) -> Option<&Edition>
        ensures holder { (all : List EditionModel) × AreEditionsOf self.now all
            × (option_copied result ≡ holder_of all id.now) }
        ensures none { is_none result ≡ not (is_current (current self.now) id.now) }
    {
        holder_in(&self.editions, id)
    }

    /// The current record of that id, as its edition: None exactly where it is not current.
    pub fn base(&self, id: &RecordId) -> Option<&Edition>
        ensures { option_copied result ≡ at_id (current self.now) id.now }
    {
        self.records.get(id)
    }

    /// How many editions there are.
    pub fn edition_count(&self) -> u64
        ensures { (all : List EditionModel) × AreEditionsOf self.now all × (result ≡ length all) }
    {
        self.editions.len() as u64
    }

    /// How many records are current.
    pub fn record_count(&self) -> u64
        ensures { result ≡ length (bases self.now) }
    {
        self.records.len() as u64
    }

    /// The works of the editions: under each work key, by their least contributors, the editions that have it.
    pub fn works(&self) -> &Works
        ensures { (all : List EditionModel) × AreEditionsOf self.now all
            × (result.now.works ≡ works_of (work_pairs empty all)) }
    {
        &self.works
    }

    /// How many turns the history has.
    pub fn turns(&self) -> u64
        ensures { result ≡ length self.now }
    {
        self.history.len() as u64
    }
}

/// The records that the history leaves current, as their editions, under their ids.
fn current_records(
    alloc: Global,
    history: &[HistoryEntry],
) -> Result<BTreeMap<RecordId, Edition>, Memory>
    ensures { IfOk result (λ records. records.entries ≡ current history.now) }
{
    let mut records = BTreeMap::new(alloc);
    for entry in history {
        let _outcomes = follow_all(alloc, &mut records, &entry.batch)?;
    }
    Ok(records)
}

/// Lets the records follow the operations of a batch, and answers what came of each.
fn follow_all(
    alloc: Global,
    records: &mut BTreeMap<RecordId, Edition>,
    batch: &Batch,
) -> Result<Vec<Outcome>, Memory>
    ensures records { OnOk result (records.new.entries
        ≡ after_batch records.old.entries batch.now) }
    ensures outcomes { IfOk result (λ found. found.items
        ≡ outcomes batch.now.library records.old.entries batch.now.ops) }
{
    let mut outcomes = Vec::new(alloc);
    for op in batch.ops.as_slice() {
        outcomes.push(follow(alloc, records, &batch.library, op)?)?;
    }
    Ok(outcomes)
}

/// Lets the records follow an operation of the library, and answers what came of it.
fn follow(
    alloc: Global,
    records: &mut BTreeMap<RecordId, Edition>,
    library: &LibraryCode,
    op: &Op,
) -> Result<Outcome, Memory>
    ensures records { OnOk result (records.new.entries
        ≡ after_op library.now records.old.entries op.now) }
    ensures outcome { IfOk result (λ found. found
        ≡ outcome_of library.now records.old.entries op.now) }
{
    match op {
        Op::Load(edition) => {
            let id = edition.least().copied(alloc)?;
            match records.insert(id, Join::copied(edition, alloc)?)? {
                Some(_) => Ok(Outcome::Replaced),
                None => Ok(Outcome::Added),
            }
        }
        Op::Withdraw(control) => {
            let id = RecordId {
                library: *library,
                control: control.copied(alloc)?,
            };
            match records.remove(&id) {
                Some(_) => Ok(Outcome::Removed),
                None => Ok(Outcome::Absent),
            }
        }
    }
}

/// The editions to which the records resolve, in order of the least contributors.
fn resolved<L: Ledger>(
    alloc: Global,
    records: &BTreeMap<RecordId, Edition>,
    steps: &mut Steps<L>,
) -> Result<Vec<Edition>, Memory>
    ensures { IfOk result (λ editions. IsOrderedResolution (values_of records.now.entries)
        editions.items) }
{
    sorted_resolution_is_ordered();
    let copies = copied(alloc, records)?;
    let found = resolve_plain(copies, steps)?;
    let editions = sorted_by_least(found)?;
    Ok(editions)
}

/// Copies of the records, in order of their ids.
fn copied(alloc: Global, records: &BTreeMap<RecordId, Edition>) -> Result<Vec<Edition>, Memory>
    ensures { IfOk result (λ copies. copies.items ≡ values_of records.now.entries) }
{
    let mut copies = Vec::new(alloc);
    for record in records.values() {
        copies.push(Join::copied(record, alloc)?)?;
    }
    Ok(copies)
}

/// The works of the editions.
fn clustered(alloc: Global, editions: &[Edition]) -> Result<Works, Memory>
    ensures { IfOk result (λ works. works.works ≡ works_of (work_pairs empty editions.now)) }
{
    let mut works = Works::empty(alloc);
    let change = works.plan(Vec::new(alloc), paired(alloc, editions)?);
    works.make_room(alloc, &change)?;
    works.install(change);
    Ok(works)
}

/// The work keys of the editions, each with a copy of its edition's least contributor.
fn paired(alloc: Global, editions: &[Edition]) -> Result<Vec<(Bytes, RecordId)>, Memory>
    ensures { IfOk result (λ pairs. pairs.items ≡ work_pairs empty editions.now) }
{
    let names = NameTable::empty(alloc, Hashing::fixed());
    let mut pairs = Vec::new(alloc);
    for edition in editions {
        let key = work_key_of(alloc, &names, edition)?;
        pairs.push((key, edition.least().copied(alloc)?))?;
    }
    Ok(pairs)
}

/// Whether the record of that id is a contributor.
fn has_contributor(edition: &Edition, id: &RecordId) -> bool
    ensures { result ≡ has id_cmp edition.now.content.contributors id.now }
{
    let ids = edition.contributors().as_slice();
    ids.iter().any(|other| id.cmp(other).is_eq())
}

/// The first of the editions that the record of that id is a contributor of.
fn holder_in<'a>(editions: &'a [Edition], id: &RecordId) -> Option<&'a Edition>
    ensures { option_copied result ≡ holder_of editions.now id.now }
{
    editions.iter().find(|edition| has_contributor(edition, id))
}
