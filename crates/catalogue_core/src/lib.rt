//! The catalogue, an object that changes: the editions of the records that are current, and their works.
//!
//! A [`catalogue::Catalogue`] takes batches of loads and withdrawals, and answers the editions of the records now current. Editions
//! and batches are defined in `catalogue_editions`, and what a turn closes and opens in `edition_blocks`; their modules are handed
//! on here. `turn_plans` plans a turn, and nothing changes before the plan is whole; here it takes effect.
//!
//! Guarantee: whatever was loaded, corrected and withdrawn, the editions of a catalogue are those to which its current records
//! resolve, from scratch.
//! Cost: a turn tests, for a record that comes, the editions that are posted under a key which it seeks, and for one that goes, the other
//! records of its edition: at most the reach of its batch (specs/Reaches.antt of turn_plans), whatever the size of the catalogue. No edition
//! that is not merged is copied. The editions in order are sorted for whoever asks for them.
#![tactic(auto)]

pub use catalogue_editions::{
    batch, edition, history_entry, net, op, ordering, outcome, prepared, shown,
};
pub use edition_blocks::{delta, grouping};
pub use record_editions::{records, work_key};

pub mod catalogue;
mod housing;
mod installing;
pub mod laws;
pub mod parts_laws;
pub mod reach_laws;
