//! Names and the headings that they are seen from, by authority records (MARC 21 Format for Authority Data).
//!
//! Guarantee: `name_table::NameTable` is exactly the table that `specs/Names.antt` defines of the records that were added, and
//! the same for any order of them; `refusal::NameRefusal` has the first reason for which a record is refused. The laws are in
//! `laws`. Cost: a record is read once; a table has an entry of about 60 bytes for each heading, and the bytes of those over
//! 30 bytes; a name is looked up once.
#![tactic(auto)]

mod authority;
pub mod laws;
mod leads;
pub mod name_table;
pub mod refusal;
mod texts;
