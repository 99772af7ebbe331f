//! An index from keys to the numbers of the blocks that have them.
//!
//! Guarantee: `postings::Postings` is a finite map from keys to ascending lists of numbers, and once room was made for the keys
//! of a change, the change is written without taking memory, so that it cannot stop half way. Cost: one look-up a key, and
//! the shift of a list's later numbers where one is put in or taken out; up to three numbers under a key, with those that are
//! to find room, take no memory beside the map's. The definitions are in specs/Postings.antt, and how the numbers lie in
//! specs/Rows.antt.
#![tactic(auto)]

mod places;
pub mod postings;
mod row;
