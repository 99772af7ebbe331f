//! What a run has of its host.
use key_hashing::hashing::Hashing;
use std::alloc::Global;

/// What a run has of its host beside files and outputs: its threads, its memory, the numbers by which it hashes keys, and the gate
/// that is told before and after each turn of a session.
#[derive(Drop)]
pub struct Host<'a, R, G> {
    pub rt: &'a R,
    pub alloc: Global,
    pub hashing: Hashing,
    pub gate: &'a G,
}
