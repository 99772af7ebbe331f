//! The form of an export as lines of JSON.
ghost use Rattle.std.specs.Prelude.{◌≡◌, ◌++◌, OnOk, IfOk};
ghost use Rattle.catalogue_export.specs.Editions.{fields_left};
ghost use Rattle.catalogue_export.specs.JsonExport.{edition_line};
ghost use Rattle.catalogue_export.specs.Sources.{line_of, left_by};

use crate::edition::edition_record;
use crate::form::ExportForm;
use crate::owned::append_owned_line;
use crate::sources::Sources;
use authority_names::name_table::NameTable;
use catalogue_core::edition::Edition;
use marc_json::writing::to_json;
use record_editions::work_key::work_key_of;
use std::alloc::Global;
use union_base::memory::Memory;

/// The form of a file of lines of JSON: each record by its line.
pub struct JsonLines;

impl ExportForm for JsonLines {
    ghost shown = { line_of };

    fn append(
        alloc: Global,
        sources: &Sources<'_>,
        edition: &Edition,
        into: &mut Vec<u8>,
    ) -> Result<usize, Memory> {
        append_by(alloc, sources, edition, into)
    }
}

/// Appends the line of an edition's record under its own work key; answers how many of its fields were left out.
fn append_by(
    alloc: Global,
    sources: &Sources<'_>,
    edition: &Edition,
    into: &mut Vec<u8>,
) -> Result<usize, Memory>
    ensures text { OnOk result (into.new.items ≡ into.old.items ++ line_of sources.now edition.now) }
    ensures left { IfOk result (λ n. n ≡ left_by sources.now.records sources.now.names
        edition.now) }
{
    match sources.records() {
        None => append_line(alloc, sources.names(), edition, into),
        Some(records) => append_owned_line(alloc, sources.names(), records, edition, into),
    }
}

/// Appends the line of an edition's record under its own work key; answers how many of its fields were left out.
pub fn append_line(
    alloc: Global,
    names: &NameTable,
    edition: &Edition,
    into: &mut Vec<u8>,
) -> Result<usize, Memory>
    ensures text { OnOk result (into.new.items ≡ into.old.items
        ++ edition_line names.now edition.now) }
    ensures left { IfOk result (λ n. n ≡ fields_left names.now edition.now) }
{
    let key = work_key_of(alloc, names, edition)?;
    let (rec, left) = edition_record(alloc, &edition.shown(), &key)?;
    to_json(&rec, into)?;
    Ok(left)
}
