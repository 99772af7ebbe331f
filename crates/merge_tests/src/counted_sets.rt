//! Small sets that all have one key, and that count how often they are tested: what an index alone does not keep from being tested.
//!
//! Guarantee: the laws of both traits, by specs/CountedSets.antt. Cost: that of the sets.
ghost use Rattle.std.specs.Prelude.{◌≡◌, ◌≢◌, ◌↔◌, ℕ, AllPairs, Contains, IfOk};
ghost use Rattle.merge_tests.specs.CountedSets.{IsTheKey, AreTheKey, always, one_key_laws, one_key_found, one_key_finds};
ghost use Rattle.merge_tests.specs.SmallSets.{union, meet, union_laws, meet_laws, numbers_exact};

use crate::small_sets::SmallSet;
use merge_laws::join::Join;
use merge_laws::resolvable::Resolvable;
use merge_laws::steps::Steps;
use std::alloc::Global;
use std::cell::Cell;
use std::marker::Model;
use std::sync::ledger::Ledger;
use union_base::memory::Memory;

/// A set, and how many tests were made of all sets with this count.
#[derive(Drop)]
pub struct CountedSet<'a> {
    pub set: SmallSet,
    pub tests: &'a Cell<u64>,
}

impl<'a> Model for CountedSet<'a> {
    ghost use Rattle.std.specs.Prelude.{ℕ};

    ghost Value = { ℕ };

    ghost view = { λ s. s.set };
}

/// The one key.
fn the_key(alloc: Global) -> Result<Vec<u32>, Memory>
    ensures { IfOk result (λ keys. AreTheKey keys.items) }
{
    let mut keys = Vec::new(alloc);
    keys.push(0)?;
    Ok(keys)
}

impl<'a> Join for CountedSet<'a> {
    ghost join = { union };

    fn joined(&self, alloc: Global, other: &CountedSet<'a>) -> Result<CountedSet<'a>, Memory> {
        Ok(CountedSet {
            set: self.set.joined(alloc, &other.set)?,
            tests: self.tests,
        })
    }

    fn copied(&self, alloc: Global) -> Result<CountedSet<'a>, Memory> {
        Ok(CountedSet {
            set: self.set.copied(alloc)?,
            tests: self.tests,
        })
    }

    ghost join_laws = { union_laws };
}

impl<'a> Resolvable for CountedSet<'a> {
    type Key = u32;

    ghost meets = { meet };

    ghost has_key = { IsTheKey };

    ghost shares = { always };

    ghost is_posted = { IsTheKey };

    ghost seeks = { IsTheKey };

    ghost is_found = { always };

    ghost is_sought = { λ _ keys. AreTheKey keys };

    fn matches<L: Ledger>(&self, other: &CountedSet<'a>, steps: &mut Steps<L>) -> bool {
        self.tests.set(self.tests.get().wrapping_add(1));
        self.set.matches(&other.set, steps)
    }

    fn index_keys(&self, alloc: Global) -> Result<Vec<u32>, Memory> {
        the_key(alloc)
    }

    fn posted_keys(&self, alloc: Global) -> Result<Vec<u32>, Memory> {
        the_key(alloc)
    }

    fn sought_keys(&self, alloc: Global) -> Result<Vec<u32>, Memory> {
        the_key(alloc)
    }

    fn posted_of_sought(&self, _alloc: Global, keys: Vec<u32>) -> Result<Vec<u32>, Memory>
        requires { AreTheKey keys.items }
        ensures keys { IfOk result (λ keys. (k : ℕ) → Contains keys.items k ↔ IsTheKey self.now k) }
        ensures once { IfOk result (λ keys. AllPairs (λ j k. j ≢ k) keys.items) }
    {
        Ok(keys)
    }

    fn posted_beside(
        &self,
        _alloc: Global,
        _base: &CountedSet<'a>,
    ) -> Result<Option<Vec<u32>>, Memory> {
        Ok(None)
    }

    fn sought_beside(&self, alloc: Global, _base: &CountedSet<'a>) -> Result<Vec<u32>, Memory> {
        self.sought_keys(alloc)
    }

    ghost match_laws = { meet_laws };

    ghost key_laws = { one_key_laws };

    ghost seeking_laws = { one_key_found };

    ghost finding_laws = { one_key_finds };

    ghost exact_keys = { numbers_exact };
}
