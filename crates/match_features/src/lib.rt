//! The features by which records of several libraries are found to describe one edition: control numbers, types, ISBNs,
//! ISSNs, titles, dates and names.
//!
//! Guarantee: `meets` is the match rule of `specs/Meeting.antt`; features merge by the union of each list; `keys` answers what
//! an index has features under, and what they seek, also beside what it has other features under (`specs/Posted.antt`); and
//! `laws` has what resolving editions asks of all this. The features of a record are made in `record_features`.
//! Cost: meeting walks sorted lists side by side and takes no memory; the keys beside those of others take two such walks, and
//! memory for the new ones alone.
#![tactic(auto)]

mod beside;
pub mod control_pair;
pub mod description_key;
pub mod features;
pub mod joining;
pub mod keys;
pub mod laws;
pub mod meeting;
