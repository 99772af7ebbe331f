//! Hashing by two numbers that are drawn for each run.
//!
//! Guarantee: a hash is what specs/Keyed.antt says of the two numbers and of what a key gives to the hasher, so keys that are equal have
//! one hash, and a map answers the same whatever the numbers are. No clause speaks of chance: that whoever writes keys without knowing the
//! numbers cannot write many of one hash is claimed by what is known of such products, and not proved. Cost: that of std's FoldHasher,
//! whose numbers are the same in every run: one multiplication for 16 bytes.
#![tactic(auto)]

pub mod hashing;
pub mod keyed_hasher;
