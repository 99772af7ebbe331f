//! Resolution by an index: blocks of which no two match, into which values are inserted by asking the index of their keys.
//!
//! Guarantee: a plan's view is the resolution of the view before it and the inserted value, and what is installed is the view
//! that was planned. A plan changes nothing; room is made for it, and then it is installed without taking memory, so that it
//! cannot stop half way. A member of a plan's view can be taken apart, and then the parts stand in its place. Cost: an insertion
//! tests only values that are posted under a key that the value at hand seeks, at most the reach of the insertion in all
//! (specs/Reach.antt of merge_laws), whatever the number of blocks. The values that a plan opens have an index of their own, so it
//! asks one look-up a key of these too. A key is moved into an index and not copied, and a value has the places of its keys there, by
//! which its number is put in and taken out without a look-up. A split tests nothing. The definitions are in specs/.
//!
//! A value that is merged with a block stands on it: from then on it seeks only what this block does not match, only the keys that it
//! has beside the block's are put into an index, and it gets the block's number, which stays under the block's keys. So an insertion
//! into a large block costs look-ups for the keys that are new to the block, and not for all its keys.
#![tactic(auto)]

pub mod blocks;
pub mod change;
mod insert;
mod install;
pub mod keyed;
mod numbers;
pub mod opened;
mod posting;
mod split;
