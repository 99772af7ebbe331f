//! The catalogue of a run that asks nothing until all records are loaded.
//!
//! A [`gathered::Gathered`] takes batches of loads and withdrawals as a `Catalogue` of catalogue_core does, with the same history
//! and the same outcomes. A turn does nothing but that. The editions are made from all current records at once, by all
//! workers.
//!
//! Guarantee: the editions are those to which the current records resolve, from scratch, in order of their least contributors;
//! so they are those of a `Catalogue` of the same history, whatever the number of workers.
//! Cost: a turn takes one step for each of its operations, whatever the size of the catalogue. The records are resolved once, at
//! the cost that the head of swoosh_halves tells.
#![tactic(auto)]

pub mod change;
pub mod engine;
pub mod finished;
mod following;
pub mod gathered;
mod gathering;
mod library_places;
pub mod resolved;
mod sorting;
mod standing;
