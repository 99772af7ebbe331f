//! The features of a record: what its fields give to the seven lists by which records are found to describe one edition.
//!
//! Guarantee: `of_record::features_of` answers exactly the lists that `specs/Gathering.antt` defines, a row for each.
//! Cost: one pass over the record's fields, and one look at their tags before it; each text made once, each list sorted once.
#![tactic(auto)]

mod gathering;
pub mod of_record;
