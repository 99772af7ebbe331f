//! Where what an edition has comes from: the records and the fields that bring it.
//!
//! `values::Value` finds the first record of an edition that has a value by which records match, and the field that gives it, as
//! record_features reads fields. `shown_once` and `ranking` say whose a part is of which an edition shows one, and why.
//!
//! Definitions: specs/Values.antt, specs/GivingFields.antt and specs/Shown.antt. Cost: a value is looked for in one record after the
//! other, up to the first that has it.
#![tactic(auto)]

pub mod giving_fields;
pub mod laws;
pub mod ranking;
pub mod shown_once;
pub mod values;
