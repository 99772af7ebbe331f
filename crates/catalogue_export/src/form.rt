//! The forms in which an export shows its editions.
ghost use Rattle.std.specs.Prelude.{◌≡◌, ◌++◌, ℕ, List, OnOk, IfOk};
ghost use Rattle.catalogue_editions.specs.declared.edition.Edition.{Edition as EditionModel};
ghost use Rattle.catalogue_export.specs.Sources.{SourcesValue, text_of, left_by};

use crate::editions::append_edition;
use crate::owned::append_owned;
use crate::sources::Sources;
use catalogue_core::edition::Edition;
use std::alloc::Global;
use union_base::memory::Memory;

/// A form in which the record of an edition is written.
pub trait ExportForm {
    /// What is written of an edition, under its own work key by a table of names, by what the export takes of its catalogue.
    ghost shown: { SourcesValue → EditionModel → List ℕ };

    /// Appends what is written of an edition under its own work key by the names; answers how many of its fields were left out.
    ///
    /// Returns `Memory` if allocation fails.
    fn append(
        alloc: Global,
        sources: &Sources<'_>,
        edition: &Edition,
        into: &mut Vec<u8>,
    ) -> Result<usize, Memory>
        ensures text { OnOk result (into.new.items ≡ into.old.items
            ++ shown sources.now edition.now) }
        ensures left { IfOk result (λ n. n ≡ left_by sources.now.records sources.now.names
            edition.now) };
}

/// The form of a file of ISO 2709: each record by its bytes.
pub struct Iso2709;

impl ExportForm for Iso2709 {
    ghost shown = { text_of };

    fn append(
        alloc: Global,
        sources: &Sources<'_>,
        edition: &Edition,
        into: &mut Vec<u8>,
    ) -> Result<usize, Memory> {
        append_text(alloc, sources, edition, into)
    }
}

/// Appends the bytes of an edition's record under its own work key; answers how many of its fields were left out.
fn append_text(
    alloc: Global,
    sources: &Sources<'_>,
    edition: &Edition,
    into: &mut Vec<u8>,
) -> Result<usize, Memory>
    ensures text { OnOk result (into.new.items ≡ into.old.items ++ text_of sources.now edition.now) }
    ensures left { IfOk result (λ n. n ≡ left_by sources.now.records sources.now.names
        edition.now) }
{
    match sources.records() {
        None => append_edition(alloc, sources.names(), edition, into),
        Some(records) => append_owned(alloc, sources.names(), records, edition, into),
    }
}
