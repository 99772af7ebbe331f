//! What the catalogue writes of its editions.
//!
//! An edition is shown as one record: the catalogue's own number and name, the edition's slots, its work key, a field for each
//! contributor, and the united fields, as many of them in this order as a frame has room for.
//!
//! Guarantee: `edition::edition_bytes` and `editions::append_editions` append exactly the bytes that specs/Exported.antt and
//! specs/Editions.antt define, and an export has these in order, whether one worker makes it (`export`) or several do
//! (`by_workers`). A record is written in a form (`form::ExportForm`): by its bytes, or by a line of JSON (`json_export`,
//! specs/JsonExport.antt); what is reported of fields left out is the same in each. Where an export is handed the current records
//! (`sources`, `records`), each local field tells whose it is (specs/Owners.antt). Cost: an edition's fields are borrowed from the
//! contents of its records, and only those that it does not have are made; they are sorted once by their tags, and each record is
//! written once, a line without a tree of values.
#![tactic(auto)]

pub mod by_workers;
pub mod edition;
pub mod editions;
pub mod export;
pub mod export_fail;
mod fields;
mod fitting;
pub mod form;
mod holding;
mod holdings;
pub mod json_export;
pub mod laws;
pub mod listing;
mod own_fields;
mod owned;
mod owners;
pub mod pending;
mod record_key;
pub mod records;
mod shares;
mod shown_fields;
pub mod sources;
pub mod works_text;
