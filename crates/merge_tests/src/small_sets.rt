//! A worked example of the traits: sets of numbers below 64 that are not empty, which match where they meet and merge by
//! union. The tests of the resolvers run on it.
//!
//! Guarantee: the laws of both traits, by specs/SmallSets.antt. Cost: a set is one word, and no call takes memory but
//! those that make keys. An index has a set under each of its numbers, which are also what it seeks.
ghost use Rattle.std.specs.Prelude.{◌≡◌, ◌≢◌, ◌+◌, ◌-◌, ◌<◌, ◌↔◌, ℕ, true, AllPairs, Contains, IfOk, IfSome, IsNone};
ghost use Rattle.std.specs.Int.{bit_at};
ghost use Rattle.merge_tests.specs.SmallSets.{HasNumber, AreNumbers, union, meet, union_laws, meet_laws, number_laws, seeking_laws, finding_laws, numbers_exact};

use merge_laws::join::Join;
use merge_laws::resolvable::Resolvable;
use merge_laws::steps::Steps;
use std::alloc::Global;
use std::marker::Model;
use std::sync::ledger::Ledger;
use union_base::memory::Memory;

/// A set of numbers below 64 that is not empty. Contracts see it as the number that is one less than its mask, the sum
/// of 2 to the power of k over its numbers k.
#[derive(Drop)]
pub struct SmallSet {
    mask: u64,
}

impl Model for SmallSet {
    ghost use Rattle.std.specs.Prelude.{ℕ, ◌-◌, ◌<◌};

    ghost Value = { ℕ };

    ghost view = { λ s. s.mask - 1 };

    ghost invariant = { λ s. 0 < s.mask };
}

/// The places of the mask's binary digits 1, in ascending order. Returns `Memory` if allocation fails.
fn digits_of(alloc: Global, mask: u64) -> Result<Vec<u32>, Memory>
    ensures places { IfOk result (λ places. (k : ℕ) → Contains places.items k
        ↔ (bit_at mask k ≡ 1)) }
    ensures once { IfOk result (λ places. AllPairs (λ j k. j ≢ k) places.items) }
{
    let mut keys = Vec::new(alloc);
    for k in 0..64 {
        if mask >> k & 1 == 1 {
            keys.push(k)?;
        }
    }
    Ok(keys)
}

impl SmallSet {
    /// The set of the places of the mask's binary digits 1. None exactly where it has none. Takes no memory.
    pub fn of(mask: u64) -> Option<SmallSet>
        ensures some { IfSome result (λ s. s + 1 ≡ mask) }
        ensures none { IsNone result ↔ (mask ≡ 0) }
    {
        if mask == 0 {
            None
        } else {
            Some(SmallSet { mask })
        }
    }

    /// The mask. Takes no memory.
    pub fn mask(&self) -> u64
        ensures { result ≡ self.now + 1 }
    {
        self.mask
    }

    /// Whether the set has all numbers of the other. Takes no memory.
    fn has_all(&self, other: &SmallSet) -> bool
        ensures { result ≡ true → (k : ℕ) → HasNumber other.now k → HasNumber self.now k }
    {
        let whole = other.mask();
        self.mask() & whole == whole
    }

    /// The numbers that the set has and the other has not, in ascending order. Returns `Memory` if allocation fails.
    fn numbers_beside(&self, alloc: Global, other: &SmallSet) -> Result<Vec<u32>, Memory>
        ensures numbers { IfOk result (λ keys. (k : ℕ) → Contains keys.items k
            ↔ (HasNumber self.now k × (HasNumber other.now k → ⊥))) }
        ensures once { IfOk result (λ keys. AllPairs (λ j k. j ≢ k) keys.items) }
    {
        let own = self.mask();
        digits_of(alloc, own ^ (own & other.mask()))
    }
}

impl Join for SmallSet {
    ghost join = { union };

    fn joined(&self, _alloc: Global, other: &SmallSet) -> Result<SmallSet, Memory> {
        Ok(SmallSet {
            mask: self.mask | other.mask,
        })
    }

    fn copied(&self, _alloc: Global) -> Result<SmallSet, Memory> {
        Ok(SmallSet { mask: self.mask })
    }

    ghost join_laws = { union_laws };
}

impl Resolvable for SmallSet {
    type Key = u32;

    ghost meets = { meet };

    ghost has_key = { HasNumber };

    ghost shares = { meet };

    ghost is_posted = { HasNumber };

    ghost seeks = { HasNumber };

    ghost is_found = { meet };

    ghost is_sought = { AreNumbers };

    fn matches<L: Ledger>(&self, other: &SmallSet, steps: &mut Steps<L>) -> bool {
        steps.tick();
        self.mask & other.mask != 0
    }

    fn index_keys(&self, alloc: Global) -> Result<Vec<u32>, Memory> {
        digits_of(alloc, self.mask())
    }

    fn posted_keys(&self, alloc: Global) -> Result<Vec<u32>, Memory> {
        self.index_keys(alloc)
    }

    fn sought_keys(&self, alloc: Global) -> Result<Vec<u32>, Memory> {
        self.index_keys(alloc)
    }

    fn posted_of_sought(&self, _alloc: Global, keys: Vec<u32>) -> Result<Vec<u32>, Memory>
        requires { AreNumbers self.now keys.items }
        ensures keys { IfOk result (λ keys. (k : ℕ) → Contains keys.items k
            ↔ HasNumber self.now k) }
        ensures once { IfOk result (λ keys. AllPairs (λ j k. j ≢ k) keys.items) }
    {
        Ok(keys)
    }

    fn posted_beside(&self, alloc: Global, base: &SmallSet) -> Result<Option<Vec<u32>>, Memory> {
        if self.has_all(base) {
            let keys = self.numbers_beside(alloc, base)?;
            Ok(Some(keys))
        } else {
            Ok(None)
        }
    }

    fn sought_beside(&self, alloc: Global, base: &SmallSet) -> Result<Vec<u32>, Memory> {
        self.numbers_beside(alloc, base)
    }

    ghost match_laws = { meet_laws };

    ghost key_laws = { number_laws };

    ghost seeking_laws = { seeking_laws };

    ghost finding_laws = { finding_laws };

    ghost exact_keys = { numbers_exact };
}
