//! Blocks of editions: the editions under some numbers, in order or under an index key, their works, and what a change of the
//! blocks closes and opens.
//!
//! A catalogue keeps its editions in blocks under numbers. [`telling::delta_of`] says what a planned change makes of them: the
//! editions that leave and the editions that come, without those that only move from one number to another. [`regrouping`] says
//! what the change makes of the works.
//!
//! Guarantee: a delta is the difference of the lists of editions before and after (specs/Deltas.antt); works are those of the
//! editions of the blocks (specs/Grouping.antt).
//! Cost: a delta takes time and memory by the size of the change, and not by how many editions there are. No edition is copied:
//! the delta is one more owner of each. What two editions show is made and compared only where their contributors and features
//! are equal.
#![tactic(auto)]

pub mod by_key;
pub mod delta;
pub mod grouping;
pub mod in_order;
pub mod looking;
pub mod regrouping;
pub mod same;
pub mod telling;
