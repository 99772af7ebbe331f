//! A source and a number under it, in one text.
ghost use Rattle.std.specs.Prelude.{◌≡◌, ◌&&◌, ◌++◌, IfOk, nat_eq};
ghost use Rattle.std.specs.Cmp.Lexicographic.{pointwise, nat_list_eq_equiv};
ghost use Rattle.std.specs.Cmp.{partial_equiv_from_equiv, and_equiv, on_equiv};

use std::alloc::Global;
use std::hash::{Hash, Hasher};
use std::marker::Model;
use union_base::bytes::Bytes;
use union_base::copied::Copied;
use union_base::memory::Memory;

/// The longest text that `Bytes` holds in place.
const LONGEST_SHORT: usize = 30;

/// A control pair in one piece, so that a key has the room of one text and not of two. Contracts see it as the pair of the
/// two texts. Where they have 30 bytes or fewer together, it takes no memory of its own.
#[derive(Debug, Drop)]
pub struct ControlPair {
    /// The source, then the number.
    text: Bytes,
    /// How many bytes of the text are the source.
    cut: usize,
}

impl Model for ControlPair {
    ghost use Rattle.std.specs.Prelude.{List, ℕ, ◌≤◌, length, take, drop};

    ghost Value = { List ℕ × List ℕ };

    ghost view = { λ p. (take p.cut p.text, drop p.cut p.text) };

    ghost invariant = { λ p. p.cut ≤ length p.text };
}

impl ControlPair {
    /// The pair of a copy of each text.
    pub fn of(alloc: Global, source: &[u8], number: &[u8]) -> Result<ControlPair, Memory>
        ensures { IfOk result (λ pair. pair ≡ (source.now, number.now)) }
    {
        Ok(ControlPair {
            text: joined(alloc, source, number)?,
            cut: source.len(),
        })
    }

    /// The source. Takes no memory.
    pub fn source(&self) -> &[u8]
        ensures { result.now ≡ self.now.0 }
    {
        &self.text.bytes()[..self.cut]
    }

    /// The number. Takes no memory.
    pub fn number(&self) -> &[u8]
        ensures { result.now ≡ self.now.1 }
    {
        &self.text.bytes()[self.cut..]
    }
}

/// The first text, then the second, in one text. Where they have 30 bytes or fewer together, it takes no memory.
///
/// Returns `Memory` if allocation fails.
pub fn joined(alloc: Global, first: &[u8], second: &[u8]) -> Result<Bytes, Memory>
    ensures { IfOk result (λ text. text ≡ first.now ++ second.now) }
{
    let mut buffer = [0; LONGEST_SHORT];
    let size = first.len().saturating_add(second.len());
    if size <= LONGEST_SHORT {
        buffer[..first.len()].copy_from_slice(first);
        buffer[first.len()..size].copy_from_slice(second);
        Bytes::of(alloc, &buffer[..size])
    } else {
        let mut text = Vec::with_capacity(alloc, size)?;
        text.extend_from_slice(first)?;
        text.extend_from_slice(second)?;
        Ok(Bytes::from(text))
    }
}

impl Copied for ControlPair {
    fn copied(&self, alloc: Global) -> Result<ControlPair, Memory> {
        Ok(ControlPair {
            text: self.text.copied(alloc)?,
            cut: self.cut,
        })
    }
}

impl PartialEq for ControlPair {
    ghost eq = { λ p q. pointwise nat_eq p.0 q.0 && pointwise nat_eq p.1 q.1 };

    ghost laws = { partial_equiv_from_equiv (and_equiv (on_equiv (λ p. p.0) nat_list_eq_equiv) (on_equiv (λ p. p.1) nat_list_eq_equiv)) };

    fn eq(&self, other: &ControlPair) -> bool {
        self.source() == other.source() && self.number() == other.number()
    }
}

impl Eq for ControlPair {
    ghost laws = { and_equiv (on_equiv (λ p. p.0) nat_list_eq_equiv) (on_equiv (λ p. p.1) nat_list_eq_equiv) };
}

/// Each part goes to the hasher in one piece, as that of a `str` does.
impl Hash for ControlPair {
    ghost use Rattle.std.specs.Hash as fed;
    ghost use Rattle.std.specs.Cmp.Rules.{hashing};
    ghost use Rattle.std.proofs.Common.{rules};

    ghost hash_input = { λ p. fed.str p.0 ++ fed.str p.1 };

    ghost respects_eq = { Prim.search (hashing, rules) };

    fn hash<H: Hasher>(&self, state: &mut H) {
        state.write(self.source());
        state.write_u8(0xFF);
        state.write(self.number());
        state.write_u8(0xFF);
    }
}
