//! The tests of the crates that load libraries at a desk: catalogue_lock, library_batches and load_sessions; and of snapshot_desk,
//! which publishes what was loaded.
//!
//! What a proof cannot see is tested here by the public calls of each crate: worked sources, desks in several threads, limits and
//! failing reads, and a viewer that asks in another thread. The tests are in a crate of their own, since a crate with tests is
//! proved twice, with them and without: so these libraries are proved once. There is a module for each of them; `two_threads_tests`
//! is one more for snapshot_desk, and `one_record` is what its tests publish.
#![tactic(auto)]

#[cfg(test)]
mod catalogue_lock_tests;
#[cfg(test)]
mod library_batches_tests;
#[cfg(test)]
mod load_sessions_tests;
#[cfg(test)]
mod one_record;
#[cfg(test)]
mod report_tests;
#[cfg(test)]
mod snapshot_desk_tests;
#[cfg(test)]
mod two_threads_tests;
