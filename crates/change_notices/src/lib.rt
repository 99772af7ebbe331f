//! Change notices: what a turn of the catalogue is told as, and a follower that keeps its own copy from that alone.
//!
//! A turn closes editions and opens others (`catalogue_core::delta`). [`notice::notice`] writes the lines of it, and a
//! [`follower::Follower`] takes the deltas of a history one after the other, and holds the catalogue's editions.
//!
//! Guarantee: a delta is refused exactly where it does not fit what the follower holds, and then nothing changes; and a follower
//! that took the deltas of a history from its beginning holds the last list of editions, and refused none (`laws`).
//! Cost: a delta is taken in time by its size and that of the follower's list, and a notice is written by the size of the delta,
//! with a look-up by order for each edition and each contributor.
#![tactic(auto)]

mod doubles;
pub mod follower;
pub mod laws;
mod marking;
pub mod notice;
pub mod refusal;
