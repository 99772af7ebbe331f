//! How far a run is, told on standard error while it reads and writes.
//!
//! Guarantee: a told shelf, source or sink is the one within it: each call has that one's result and contract, and what it tells of
//! content and faults. So whoever runs over them gets what it would get without. The lines themselves are outside every contract: they
//! go to standard error, where no clause follows them, and they end before anything else is written there.
//! Cost: a look at the clock for each read and each write, and a walk over the bytes that are read to count the records; nothing of
//! this where nothing is told.
#![tactic(auto)]

mod line;
pub mod style;
pub mod teller;
#[cfg(test)]
mod tests;
pub mod told_shelf;
pub mod told_sink;
