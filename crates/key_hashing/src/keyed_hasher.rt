//! A hasher whose state at the start, and whose multiplier, are two numbers.
//!
//! It multiplies 16 bytes at a time to 128 bits, and joins the halves by xor, as std's FoldHasher does. Neither factor is known to who does
//! not know the numbers, so nobody can write bytes for which one of them is 0.
ghost use Rattle.std.specs.Prelude.{◌≡◌, ◌+◌, ◌≤◌, length};
ghost use Rattle.std.specs.Hash.FoldHasher.{folded_multiply, read_short, read_u32, read_u64};
ghost use Rattle.key_hashing.specs.Keyed as keyed;

use std::hash::Hasher;

/// A hasher in some state.
#[derive(Clone, Copy, Debug)]
pub struct KeyedHasher {
    pub(crate) state: u64,
    pub(crate) multiplier: u64,
}

impl KeyedHasher {
    /// A hasher to which nothing was written.
    pub(crate) fn of(state: u64, multiplier: u64) -> KeyedHasher
        ensures { result ≡ record { state = state; multiplier = multiplier } }
    {
        KeyedHasher { state, multiplier }
    }
}

/// The two halves of the product, joined by xor.
fn folded_multiply(a: u64, b: u64) -> u64
    ensures { result ≡ folded_multiply a b }
{
    let product = a as u128 * b as u128;
    (product & 0xFFFF_FFFF_FFFF_FFFF) as u64 ^ (product >> 64) as u64
}

/// The four bytes from there on as a number, the lowest first.
fn read_u32(bytes: &[u8], at: usize) -> u64
    requires { at + 4 ≤ length bytes.now }
    ensures { result ≡ read_u32 bytes.now at }
{
    u32::from_le_bytes([bytes[at], bytes[at + 1], bytes[at + 2], bytes[at + 3]]) as u64
}

/// The eight bytes from there on as a number, the lowest first.
fn read_u64(bytes: &[u8], at: usize) -> u64
    requires { at + 8 ≤ length bytes.now }
    ensures { result ≡ read_u64 bytes.now at }
{
    read_u32(bytes, at) | read_u32(bytes, at + 4) << 32
}

/// Up to eight bytes as a number, by reads that may overlap.
fn read_short(bytes: &[u8]) -> u64
    ensures { result ≡ read_short bytes.now }
{
    let len = bytes.len();
    if len >= 4 {
        read_u32(bytes, 0) | read_u32(bytes, len - 4) << 32
    } else if len > 0 {
        bytes[0] as u64 | (bytes[len / 2] as u64) << 8 | (bytes[len - 1] as u64) << 16
    } else {
        0
    }
}

impl Hasher for KeyedHasher {
    ghost write = { keyed.write };

    ghost finish = { λ hasher. hasher.state };

    fn finish(&self) -> u64 {
        self.state
    }

    fn write(&mut self, bytes: &[u8]) {
        let len = bytes.len();
        if len <= 8 {
            self.state = folded_multiply(
                self.state ^ read_short(bytes),
                self.multiplier ^ (2 * len as u64),
            );
            return;
        }
        let mut state = self.state.wrapping_add(len as u64);
        let mut at = 0;
        while len - at > 16 {
            state = folded_multiply(
                read_u64(bytes, at) ^ state,
                read_u64(bytes, at + 8) ^ self.multiplier,
            );
            at += 16;
        }
        self.state = folded_multiply(
            read_u64(bytes, len.saturating_sub(16)) ^ state,
            read_u64(bytes, len - 8) ^ self.multiplier,
        );
    }
}
