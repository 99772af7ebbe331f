//! The list of merged editions that deserve a cataloguer's look, as text: a line each, or a row of a table each.
//!
//! `editions::listing` writes those of the editions to which records resolve. Lines end with how often each reason stands; a table is one
//! of RFC 4180.
//!
//! Definitions: specs/Editions.antt, over the reasons of edition_doubts. Cost: an edition without a reason is looked at once, and nothing
//! is derived.
#![tactic(auto)]

mod cells;
mod counts;
pub mod editions;
pub mod form;
mod lines;
mod names;
