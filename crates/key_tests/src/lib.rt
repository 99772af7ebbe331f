//! The tests of the crates that make keys and features of records, look names up and merge fields: naco_normal, isbn_keys,
//! workset_keys, authority_names, match_features and field_merge.
//!
//! There is a module for each of them, one for the tables of cases that they read, and one for records in frames. The
//! tests are in a crate of their own, since a crate with tests is proved twice, with them and without: so these libraries
//! are proved once.
#![tactic(auto)]

#[cfg(test)]
mod field_merge_tests;
#[cfg(test)]
mod frames;
#[cfg(test)]
mod isbn_keys_tests;
#[cfg(test)]
mod made;
#[cfg(test)]
mod match_features_tests;
#[cfg(test)]
mod naco_normal_tests;
#[cfg(test)]
mod name_table_tests;
#[cfg(test)]
mod posted_keys_tests;
#[cfg(test)]
mod tables;
#[cfg(test)]
mod workset_keys_tests;
