//! A file of see-from names: MARC 21 authority records (ISO 2709), read into a table of names.
//!
//! `shelved::names_of` opens the file of a run, or has no names where there is none. `reading::read_names` reads it to its end,
//! piece by piece, and keeps nothing of a record but what the table takes of it. It returns the table, and the lines on which frames
//! were refused and how large the table is. The definitions are specs/Judging.antt, on what becomes of a frame,
//! specs/NamesFiles.antt, on the whole file, and specs/Named.antt, on the names of a run.
//!
//! Cost: linear in the file; memory by the headings of the table and the refused frames.
#![tactic(auto)]

mod counting;
pub mod fault;
pub mod names_read;
pub mod reading;
pub mod shelved;
mod taking;
mod tally;
