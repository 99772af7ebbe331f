//! Which merged editions deserve a cataloguer's look, and why: from exact facts of their records, without changing a merge.
//!
//! `groups::groups_of` gathers the records of each edition, and `doubts::doubts_of` says which reasons stand of them, in a fixed order:
//! `titles`, `codes`, `materials`, `statements`, `sets` and `own_numbers` have a function for each. `steps::doubtful_step` finds the step of
//! a derivation that first brings together records of which a reason stands.
//!
//! Definitions: specs/Reasons.antt over specs/Comparing.antt, specs/Sets.antt and specs/OwnNumbers.antt. Cost: records are gathered in one
//! pass; a reason looks for each value of one record in all others of its edition; a step is found by asking for the reasons after each.
#![tactic(auto)]

pub mod codes;
pub mod comparing;
pub mod doubts;
pub mod groups;
pub mod materials;
mod meeting;
pub mod own_numbers;
pub mod sets;
pub mod statements;
pub mod steps;
pub mod titles;
