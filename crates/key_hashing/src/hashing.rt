//! The numbers by which a run hashes its keys.
ghost use Rattle.std.specs.Prelude.{◌≡◌, ◌/◌, ◌%◌, ◌^◌};
ghost use Rattle.key_hashing.specs.Keyed.{begun};

use crate::keyed_hasher::KeyedHasher;
use std::hash::BuildHasher;
use std::random::RandomSource;

/// The two numbers by which a run hashes its keys. All of its maps have the same.
#[derive(Clone, Copy, Debug)]
pub struct Hashing {
    pub(crate) state: u64,
    pub(crate) multiplier: u64,
}

impl Hashing {
    /// Numbers that the system draws, or the fixed ones if it draws none. Takes no memory.
    pub fn drawn(rt: &impl RandomSource) -> Hashing {
        let mut bytes = [0; 16];
        match rt.fill_bytes(&mut bytes) {
            Ok(()) => Hashing::of(u128::from_le_bytes(bytes)),
            Err(_) => Hashing::fixed(),
        }
    }

    /// The same numbers in every run, for tests and measurements.
    pub fn fixed() -> Hashing {
        Hashing::of(0x9E37_79B9_7F4A_7C15_243F_6A88_85A3_08D3)
    }

    /// The numbers that the two halves of the bits are: the low half begins a hash, and the high half multiplies.
    fn of(bits: u128) -> Hashing
        ensures state { result.state ≡ bits % 2 ^ 64 }
        ensures multiplier { result.multiplier ≡ bits / 2 ^ 64 }
    {
        Hashing {
            state: (bits & 0xFFFF_FFFF_FFFF_FFFF) as u64,
            multiplier: (bits >> 64) as u64,
        }
    }
}

impl BuildHasher for Hashing {
    type Hasher = KeyedHasher;

    ghost build_hasher = { begun };

    fn build_hasher(&self) -> KeyedHasher {
        KeyedHasher::of(self.state, self.multiplier)
    }
}
