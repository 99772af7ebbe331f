//! The keys of numbers by which records meet: `isbn::isbn`, `issn::issn`, `lccn::lccn`, `control::pair` and
//! `control::system_number`.
//!
//! Each call answers exactly the key that its definition in `specs/` gives the text, and `None` exactly where that gives
//! none. A check is a weighted sum over the list of characters. How a number is cut out of its text, the form of an LCCN
//! and the pairs of source and number are this project's own.
//!
//! Cost: each call passes over its text a few times at most. `isbn` and `issn` take no memory; the others take what
//! their answer holds.
#![tactic(auto)]

mod check;
pub mod control;
pub mod isbn;
pub mod issn;
pub mod laws;
pub mod lccn;
mod text;
