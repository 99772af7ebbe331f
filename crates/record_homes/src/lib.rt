//! Where the current records of a catalogue are found, and how a turn changes that.
//!
//! Guarantee: `table::HomeTable` is a finite map from record ids to homes, which contracts see in the order of the ids; a
//! call that is refused leaves it as it was. What a turn touches (`touched`) is noted beside it, and then the homes are changed
//! (`moves`): new ones are all added, or none, and nothing else needs memory. Cost: a look-up finds the library among those that
//! have records, and then hashes the control number once, whatever the number of records; ids are in no order, so nothing is
//! compared with its neighbours.
#![tactic(auto)]

pub mod ascending_ids;
pub mod home;
mod library_homes;
mod move_to;
pub mod moves;
pub mod place;
pub mod table;
pub mod touched;
