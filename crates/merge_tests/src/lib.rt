//! The tests of the crates by which editions and works are resolved: merge_laws, feature_index, swoosh_resolver,
//! cluster_reopen, swoosh_halves and work_clusters.
//!
//! There is a module for each of them, `small_sets`, the values on which the resolvers are run, and `counted_sets`, which count the
//! tests of these. The tests are in a crate of their own, since a crate with tests is proved twice, with them and without: so these
//! libraries are proved once.
#![tactic(auto)]

#[cfg(test)]
mod cluster_reopen_tests;
pub mod counted_sets;
#[cfg(test)]
mod feature_index_tests;
#[cfg(test)]
mod merge_laws_tests;
pub mod small_sets;
#[cfg(test)]
mod swoosh_halves_tests;
#[cfg(test)]
mod swoosh_resolver_tests;
#[cfg(test)]
mod work_clusters_tests;
