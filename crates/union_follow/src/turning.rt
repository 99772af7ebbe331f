//! One turn: a batch is applied to the catalogue of the load, and published.
ghost use Rattle.std.specs.Prelude.{◌≡◌, ◌<◌, IfOk, OnOk};
ghost use Rattle.std.specs.Coded.{Coded-set, coded_list, coded_option, coded_ℕ};
ghost use Rattle.std.specs.FinMap.{code, empty};
ghost use Rattle.union_follow.specs.Turning.{IsShown, outcomes_over, with_turn};

use catalogue_core::batch::Batch;
use catalogue_core::catalogue::Catalogue;
use catalogue_core::history_entry::HistoryEntry;
use catalogue_core::outcome::Outcome;
use merge_laws::steps::Steps;
use snapshot_desk::publisher::Publisher;
use std::alloc::Global;
use std::marker::Brand;
use std::sync::Wait;
use std::sync::ledger::{Blank, Ledger};
use union_base::copied::Copied;
use union_base::memory::Memory;
use union_files::reports::Reports;

/// A load: its catalogue, which has no names, the publisher that shows its history, and the reports of the libraries that are loaded.
pub struct Load {
    pub catalogue: Catalogue,
    pub publisher: Publisher,
    pub reports: Reports,
    pub ghost unnamed: { catalogue.names ≡ empty } by { Coded-set (code (coded_list coded_ℕ) (coded_option (coded_list coded_ℕ))) _ _ },
}

/// Applies a batch under that number, with the match tests counted in a ledger of their own. Answers what came of its operations.
///
/// Returns `Memory` if allocation fails; the catalogue is as before then.
fn apply_by<L: Ledger>(
    alloc: Global,
    catalogue: &mut Catalogue,
    pass: u32,
    batch: Batch,
    blank: Blank,
) -> Result<Vec<Outcome>, Memory>
    requires name { blank.name ≡ L.name }
    requires parts { blank.parts ≡ L.parts }
    requires some { 0 < L.parts }
    ensures names { catalogue.new.names ≡ catalogue.old.names }
    ensures appended { OnOk result (catalogue.new.history
        ≡ with_turn catalogue.old.history pass batch) }
    ensures outcomes { IfOk result (λ found. found.items
        ≡ outcomes_over catalogue.old.history batch) }
{
    let mut steps: Steps<L> = Steps::open(blank);
    catalogue.apply(alloc, pass, batch, &mut steps)
}

/// Applies a batch under that number and publishes the turn. Answers what came of the batch's operations.
///
/// Returns `Memory` if allocation fails. The turn may be applied then and not published.
pub fn publish_batch<R: Wait>(
    rt: &R,
    alloc: Global,
    load: &mut Load,
    pass: u32,
    batch: Batch,
) -> Result<Vec<Outcome>, Memory>
    requires shown { IsShown load.old.catalogue.history load.old.publisher }
    ensures book { load.new.publisher.book ≡ load.old.publisher.book }
    ensures reports { load.new.reports ≡ load.old.reports }
    ensures appended { OnOk result (load.new.catalogue.history
        ≡ with_turn load.old.catalogue.history pass batch) }
    ensures outcomes { IfOk result (λ found.
        found.items ≡ outcomes_over load.old.catalogue.history batch) }
    ensures shown { OnOk result (IsShown load.new.catalogue.history load.new.publisher) }
{
    let copy = batch.copied(alloc)?;
    let found = apply_by::<Brand>(alloc, &mut load.catalogue, pass, batch, Blank::new(1))?;
    load.publisher.add(HistoryEntry { pass, batch: copy })?;
    load.publisher.publish(rt)?;
    Ok(found)
}
