//! The counting of a catalogue.
ghost use Rattle.std.specs.Prelude.{◌≡◌, ◌≤◌, IfOk, List, length, map};
ghost use Rattle.catalogue_core.specs.Histories.{AreEditionsOf};
ghost use Rattle.catalogue_editions.specs.declared.edition.Edition.{Edition as EditionModel};
ghost use Rattle.catalogue_export.specs.Editions.{edition_text, export_text};
ghost use Rattle.union_trial.specs.Measured.{AreMeasured};

use crate::measures::Measures;
use catalogue_core::catalogue::Catalogue;
use catalogue_core::edition::Edition;
use catalogue_export::editions::append_edition;
use std::alloc::Global;
use union_base::memory::Memory;

/// How many bytes the edition's record has in the export. The record is made in place of what the buffer holds.
fn record_size(
    alloc: Global,
    catalogue: &Catalogue,
    edition: &Edition,
    buffer: &mut Vec<u8>,
) -> Result<usize, Memory>
    ensures value { IfOk result (λ size. size
        ≡ length (edition_text catalogue.now.names edition.now)) }
    ensures bound { IfOk result (λ size. size ≤ 99999) }
{
    buffer.clear();
    append_edition(alloc, catalogue.names(), edition, buffer)?;
    Ok(buffer.len())
}

/// How many bytes the export of the catalogue has. The records are made one after the other, and none is kept.
fn export_size(alloc: Global, catalogue: &Catalogue) -> Result<u128, Memory>
    ensures { IfOk result (λ size. (all : List EditionModel)
        × AreEditionsOf catalogue.now.history all
        × (size ≡ length (export_text catalogue.now.names all))) }
{
    let editions = catalogue.editions(alloc)?;
    records_size(alloc, catalogue, editions.as_slice())
}

/// How many bytes the records of the editions have.
fn records_size(alloc: Global, catalogue: &Catalogue, editions: &[&Edition]) -> Result<u128, Memory>
    ensures { IfOk result (λ size. size ≡ length
        (export_text catalogue.now.names (map (λ e. e.now) editions.now))) }
{
    let mut buffer = Vec::new(alloc);
    let mut size: u128 = 0;
    for edition in editions {
        size += record_size(alloc, catalogue, edition, &mut buffer)? as u128;
    }
    Ok(size)
}

/// Counts what the catalogue has.
///
/// Returns `Memory` if allocation fails.
pub fn measured(alloc: Global, catalogue: &Catalogue) -> Result<Measures, Memory>
    ensures { IfOk result (λ m. AreMeasured catalogue.now.names catalogue.now.history m) }
{
    let bytes = export_size(alloc, catalogue)?;
    let works = catalogue.work_count(alloc)?;
    Ok(Measures {
        records: catalogue.record_count(),
        editions: catalogue.edition_count(),
        works,
        bytes,
    })
}
