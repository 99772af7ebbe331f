//! A MARC 21 record, [`marc_record::Record`], and its parts by their tags: the fields under a tag, the control number, and
//! whether the record has what a load or a withdrawal asks for.
//!
//! Guarantee: each answer is the one that specs/Parts.antt and specs/Loads.antt define. Cost: a walk over the fields; no
//! memory.
#![tactic(auto)]

pub mod loads;
pub mod marc_record;
pub mod parts;
