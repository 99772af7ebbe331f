//! Editions and records: the edition of one record, what a record that a library delivers asks for, and the work key of an edition.
//!
//! Guarantee: `records::edition_of` answers the edition that `specs/Records.antt` defines, with the features of `record_features`
//! and the content of `field_merge`; `records::op_of` answers the operation of `specs/Ops.antt`, so each accepted record asks for
//! one operation; `work_key::work_key_of` answers the key of `specs/EditionKeys.antt`.
//! Cost: an edition costs what its features and its content do, whose fields are moved and not copied. A work key is made of the
//! contents of the edition's records where they lie: nothing is merged or copied for it.
#![tactic(auto)]

mod added_entries;
pub mod laws;
pub mod records;
pub mod work_key;
