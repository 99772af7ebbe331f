//! A standing catalogue of a history.
ghost use Rattle.std.specs.Prelude.{◌≡◌, ◌<◌, IfOk};

use authority_names::name_table::NameTable;
use catalogue_core::catalogue::Catalogue;
use catalogue_editions::history_entry::HistoryEntry;
use merge_laws::steps::Steps;
use std::alloc::Global;
use std::sync::ledger::{Blank, Ledger};
use union_base::memory::Memory;

/// The standing catalogue of this history and these names. Returns `Memory` if allocation fails.
pub(crate) fn standing_of<L: Ledger>(
    alloc: Global,
    history: &[HistoryEntry],
    names: &NameTable,
    blank: Blank,
) -> Result<Catalogue, Memory>
    requires name { blank.name ≡ L.name }
    requires parts { blank.parts ≡ L.parts }
    requires some { 0 < L.parts }
    ensures { IfOk result (λ catalogue. catalogue
        ≡ record { history = history.now; names = names.now }) }
{
    let mut steps: Steps<L> = Steps::open(blank);
    let mut catalogue = Catalogue::with_names(alloc, names.copied(alloc)?)?;
    for entry in history {
        let batch = entry.batch.copied(alloc)?;
        let _found = catalogue.apply(alloc, entry.pass, batch, &mut steps)?;
    }
    Ok(catalogue)
}
