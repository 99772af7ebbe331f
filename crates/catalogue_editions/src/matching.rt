//! Which editions match, as `specs/Matching.antt` has it: by their features alone.
//!
//! Guarantee: beside the laws of `Resolvable`, `posted_beside` answers None only where the base has a feature more or the two
//! are keyed by title in different ways, and `sought_beside` leaves out each control pair of the base. Cost: each call walks the
//! sorted lists of features once, and takes memory for the keys that it answers.
ghost use Rattle.std.specs.Prelude.{◌≡◌, ◌≢◌, ◌↔◌, AllPairs, Contains, IfOk, IfSome, IsTrue, is_some, false, refl};
ghost use Rattle.catalogue_editions.specs.Matching.{match as edition_match, HasFeatureKey, share};
ghost use Rattle.catalogue_editions.specs.Matching.{IsPostedUnder, SeeksKey, is_found, IsSoughtBy, has_features_of, SeeksKeyBeside};
ghost use Rattle.catalogue_editions.specs.MatchLaws.{edition_match_laws, edition_key_laws, edition_seeking_laws, edition_finding_laws};
ghost use Rattle.catalogue_editions.specs.ExactKeys.{exact_keys};

use crate::edition::Edition;
use match_features::keys::{
    FeatureKey, feature_keys, posted_beside, posted_keys, posted_of_sought, sought_beside,
    sought_keys,
};
use merge_laws::resolvable::Resolvable;
use merge_laws::steps::Steps;
use std::alloc::Global;
use std::sync::ledger::Ledger;
use union_base::memory::Memory;

impl Resolvable for Edition {
    type Key = FeatureKey;

    ghost meets = { edition_match };

    ghost has_key = { HasFeatureKey };

    ghost shares = { share };

    ghost is_posted = { IsPostedUnder };

    ghost seeks = { SeeksKey };

    ghost is_found = { is_found };

    ghost is_sought = { IsSoughtBy };

    fn matches<L: Ledger>(&self, other: &Edition, steps: &mut Steps<L>) -> bool {
        steps.tick();
        self.features().meets(other.features())
    }

    fn index_keys(&self, alloc: Global) -> Result<Vec<FeatureKey>, Memory> {
        feature_keys(alloc, self.features())
    }

    fn posted_keys(&self, alloc: Global) -> Result<Vec<FeatureKey>, Memory> {
        posted_keys(alloc, self.features())
    }

    fn sought_keys(&self, alloc: Global) -> Result<Vec<FeatureKey>, Memory> {
        sought_keys(alloc, self.features())
    }

    fn posted_of_sought(
        &self,
        alloc: Global,
        keys: Vec<FeatureKey>,
    ) -> Result<Vec<FeatureKey>, Memory>
        requires { IsSoughtBy self.now keys.items }
        ensures keys { IfOk result (λ keys. (k : FeatureKey)
            → Contains keys.items k ↔ IsPostedUnder self.now k) }
        ensures once { IfOk result (λ keys. AllPairs (λ j k. j ≢ k) keys.items) }
    {
        posted_of_sought(alloc, self.features(), keys)
    }

    fn posted_beside(
        &self,
        alloc: Global,
        base: &Edition,
    ) -> Result<Option<Vec<FeatureKey>>, Memory>
        ensures told { IfOk result (λ o. is_some o ≡ has_features_of self.now base.now) }
        ensures keeps { IfOk result (λ o. IfSome o (λ keys. (k : FeatureKey)
            → IsPostedUnder base.now k → IsPostedUnder self.now k)) }
        ensures keys { IfOk result (λ o. IfSome o (λ keys. (k : FeatureKey) → Contains keys.items k
            ↔ (IsPostedUnder self.now k × (IsPostedUnder base.now k → ⊥)))) }
        ensures once { IfOk result (λ o. IfSome o (λ keys. AllPairs (λ j k. j ≢ k) keys.items)) }
    {
        posted_beside(alloc, self.features(), base.features())
    }

    fn sought_beside(&self, alloc: Global, base: &Edition) -> Result<Vec<FeatureKey>, Memory>
        ensures exact { IfOk result (λ keys. (k : FeatureKey) → Contains keys.items k
            ↔ SeeksKeyBeside self.now base.now k) }
        ensures keys { IfOk result (λ keys. (k : FeatureKey) → Contains keys.items k
            → SeeksKey self.now k) }
        ensures whole { IfOk result (λ keys. (x : Edition) → IsTrue (edition_match self.now x)
            → edition_match base.now x ≡ false
            → (k : FeatureKey) × Contains keys.items k × IsPostedUnder x k) }
    {
        sought_beside(alloc, self.features(), base.features())
    }

    ghost match_laws = { edition_match_laws };

    ghost key_laws = { edition_key_laws };

    ghost seeking_laws = { edition_seeking_laws };

    ghost finding_laws = { edition_finding_laws };

    ghost exact_keys = { exact_keys (record {
      controls = λ p q. refl;
      isbns = λ a b. refl;
      issns = λ a b. refl;
      titles = λ a b. refl;
      descriptions = λ p q. refl;
      manys = λ a b. refl;
      control_isbn = λ p b. refl;
      control_issn = λ p b. refl;
      control_title = λ p b. refl;
      control_description = λ p q. refl;
      control_many = λ p b. refl;
      isbn_control = λ a q. refl;
      isbn_issn = λ a b. refl;
      isbn_title = λ a b. refl;
      isbn_description = λ a q. refl;
      isbn_many = λ a b. refl;
      issn_control = λ a q. refl;
      issn_isbn = λ a b. refl;
      issn_title = λ a b. refl;
      issn_description = λ a q. refl;
      issn_many = λ a b. refl;
      title_control = λ a q. refl;
      title_isbn = λ a b. refl;
      title_issn = λ a b. refl;
      title_description = λ a q. refl;
      title_many = λ a b. refl;
      description_control = λ p q. refl;
      description_isbn = λ p b. refl;
      description_issn = λ p b. refl;
      description_title = λ p b. refl;
      description_many = λ p b. refl;
      many_control = λ a q. refl;
      many_isbn = λ a b. refl;
      many_issn = λ a b. refl;
      many_title = λ a b. refl;
      many_description = λ a q. refl;
    }) };
}
