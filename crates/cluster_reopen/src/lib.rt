//! What a block falls into when one of its members is withdrawn.
//!
//! A block is a member of a resolution, and its members are the values of the list that it dominates. One of them is
//! withdrawn, and it may have been all that held the others together. So those that are left are resolved anew, and the
//! parts that they come to take the place of the block. All other blocks stay as they are.
//!
//! Guarantee: `reopen` answers the resolution of what is left, and by `laws` the view with the parts in place of the block is
//! the resolution of the list without the withdrawn value, where no part matches another block. Cost: at most k * k match
//! tests for k values that are left, whatever the number of blocks; values are moved and never copied. The definitions are
//! in specs/Resolution.antt and specs/Withdrawal.antt of merge_laws.
#![tactic(auto)]

pub mod laws;
pub mod parts;
