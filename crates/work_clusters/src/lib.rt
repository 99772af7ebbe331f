//! Works: a finite map from work keys to the ids of the editions that share the key.
//!
//! Guarantee: the map is always that of the pairs of key and id that entered and did not leave, each key once and in
//! order, each list of ids in order and without repeats (specs/Works.antt). A change is planned, its room is made, and
//! then it is installed, which takes no memory and can't be refused.
//!
//! Cost: a key is found in a tree, in steps by the logarithm of the number of keys. A change takes some such searches for
//! each of its pairs, and nothing else of the works is looked at; a count is read. If allocation fails while room is made,
//! keys without ids may be left in the tree, which count as absent: a walk passes over them, and a pair that comes fills them.
#![tactic(auto)]

pub mod change;
mod ids;
pub mod laws;
mod work;
pub mod works;
