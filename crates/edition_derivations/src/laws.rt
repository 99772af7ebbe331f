//! What follows of derivations and of values in common. Each function here does nothing when it runs: its contract is the law.
ghost use Rattle.std.specs.Prelude.{◌≡◌, ℕ, List, Some, is_some, Contains};
ghost use Rattle.union_base.specs.SortedLists.{have_common};
ghost use Rattle.merge_laws.specs.Resolution.{Derives};
ghost use Rattle.catalogue_editions.specs.Joining.{join};
ghost use Rattle.catalogue_editions.specs.Matching.{match as edition_match};
ghost use Rattle.catalogue_editions.specs.declared.edition.Edition.{Edition};
ghost use Rattle.edition_derivations.specs.declared.step.Step.{Step};
ghost use Rattle.edition_derivations.specs.Common.{first_common, first_common_but_serials};
ghost use Rattle.edition_derivations.specs.Steps.{IsDerivation};
ghost use Rattle.match_features.specs.Meeting.{have_common_but_serials};

use union_base::sorted_list::Element;

/// What steps come to derives from the records, as the definition of a resolution has it.
pub fn derivation_derives()
    ensures { (records : List Edition) (steps : List Step) (e : Edition)
        → IsDerivation records steps e → Derives edition_match join records e }
{}

/// The value that is found is one of both lists, and one is found exactly where the lists have one in common.
pub fn common_value_is_of_both<K: Element>()
    ensures one { (xs ys : List K) (v : K) → first_common K.cmp xs ys ≡ Some v → Contains xs v }
    ensures other { (xs ys : List K) (v : K) → first_common K.cmp xs ys ≡ Some v → Contains ys v }
    ensures exact { (xs ys : List K) → is_some (first_common K.cmp xs ys)
        ≡ have_common K.cmp xs ys }
{}

/// The same of types that are no serial's.
pub fn common_type_is_found()
    ensures { (xs ys : List (List ℕ)) → is_some (first_common_but_serials xs ys)
        ≡ have_common_but_serials xs ys }
{}
