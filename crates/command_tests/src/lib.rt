//! The tests of the crates of the program's commands: union_words, union_json, union_script, union_trial, union_watch and
//! union_program.
//!
//! What a proof cannot see is tested here by the public calls of each crate: the forms of words, worked files and their texts, each
//! fault in turn, and sessions that are held by gates. The tests are in a crate of their own, since a crate with tests is
//! proved twice, with them and without: so these libraries are proved once. There is a module for each of them (of union_json,
//! `json_lines_tests`), four more for the program: `union_json_tests`, on MARC in JSON, `union_tests`, on several libraries at once,
//! `union_names_tests`, on a file of names, and `gate_tests`, on the order of their turns; and `export_tests`, on the export of a
//! generated catalogue.
#![tactic(auto)]

#[cfg(test)]
mod export_tests;
#[cfg(test)]
mod gate_tests;
#[cfg(test)]
mod json_lines_tests;
#[cfg(test)]
mod records;
#[cfg(test)]
mod runs;
#[cfg(test)]
mod texts;
#[cfg(test)]
mod union_json_tests;
#[cfg(test)]
mod union_names_tests;
#[cfg(test)]
mod union_program_tests;
#[cfg(test)]
mod union_script_tests;
#[cfg(test)]
mod union_tests;
#[cfg(test)]
mod union_trial_tests;
#[cfg(test)]
mod union_watch_tests;
#[cfg(test)]
mod union_words_tests;
