//! Why records are one edition, and why they are not: the merges by which the records of an edition come together, and what
//! two editions have in common.
//!
//! `asking::answer_of` answers for two records either the steps by which they come together, or the two editions that have
//! them. Each step merges two values that match and that are records or what earlier steps merge to. `common::first_common`
//! finds the value that a step is told by. `laws` says what follows: each value told is one of both sides, there is one exactly
//! where the match rule holds, and what a step merges to derives from the records.
//!
//! Definitions: specs/Steps.antt, over the resolution of merge_laws and the match rule of match_features; specs/Answers.antt;
//! specs/Common.antt. Cost: the derivation of an edition of m records takes m * m match tests at most. The steps between two
//! records are found by leaving out records by halves, with as many tests for each try.
#![tactic(auto)]

pub mod asking;
pub mod common;
pub mod holding;
pub mod laws;
pub mod merging;
pub mod shortening;
pub mod step;
