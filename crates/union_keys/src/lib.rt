//! Where the records of libraries' files are, and by which keys each may meet another: what a cluster needs to know to put
//! records that may be one edition into one part.
//!
//! `run::read_files` reads the files whole, checks each frame and keeps the records and the refused frames; `run::each_line` answers a line
//! for each accepted record, and `groups::group_lines` one for each group of records. A line has the ids and the place of each, how many
//! editions the records resolve to, and the keys of these editions: those that they seek, and those under which an index has them. Editions
//! that match have such a key in common (`match_features::laws::meeting_is_found`). The frames are those that every command cuts (`laws`).
//!
//! Definitions: specs/Placed.antt for where frames are, specs/Readings.antt for what is taken of each, specs/Lines.antt for
//! what is written. Memory grows with the files and with what is written.
#![tactic(auto)]

mod frame_cut;
pub mod group_table;
pub mod groups;
mod key_text;
pub mod laws;
mod line;
mod place;
pub mod reading;
pub mod refused;
pub mod request;
pub mod run;
pub mod standing;
pub mod table;
mod words;
