//! Who loads.
use key_hashing::hashing::Hashing;

/// How many workers load, the numbers by which they hash keys, and whether they resolve the records of each batch among themselves before
/// its turn, which pays where the turn resolves.
#[derive(Clone, Copy, Debug)]
pub struct Crew {
    pub workers: u32,
    pub hashing: Hashing,
    pub prepares: bool,
}
