//! What holds of editions. Each function here does nothing when it runs: its contract is the law.
ghost use Rattle.std.specs.Prelude.{◌≡◌, ◌≢◌, false, IsTrue, List, Contains};
ghost use Rattle.std.specs.List.Sorted.{IsPermutation, IsSorted};
ghost use Rattle.union_base.specs.declared.record_id.RecordId.{RecordId};
ghost use Rattle.merge_laws.specs.Resolution.{IsResolution};
ghost use Rattle.catalogue_editions.specs.declared.edition.Edition.{Edition};
ghost use Rattle.catalogue_editions.specs.declared.op.TheConstants.{LARGEST_BATCH};
ghost use Rattle.catalogue_editions.specs.Batches.{largest_batch};
ghost use Rattle.catalogue_editions.specs.Ids.{least, edition_cmp};
ghost use Rattle.catalogue_editions.specs.Joining.{join};
ghost use Rattle.catalogue_editions.specs.Matching.{match as edition_match};
ghost use Rattle.catalogue_editions.specs.Resolutions.{IsOrderedResolution};

/// Editions that have a contributor in common match. So those that do not match have none, and their least contributors
/// differ.
pub fn common_contributor_matches()
    ensures any { (x y : Edition) (id : RecordId) → Contains x.content.contributors id
        → Contains y.content.contributors id
        → IsTrue (edition_match x y) }
    ensures least { (x y : Edition) → edition_match x y ≡ false → least x ≢ least y }
{}

/// A resolution that was sorted by the least contributors is in strict order of them.
pub fn sorted_resolution_is_ordered()
    ensures { (list resolution sorted : List Edition)
        → IsResolution edition_match join list resolution
        → IsPermutation resolution sorted → IsSorted edition_cmp sorted
        → IsOrderedResolution list sorted }
{}

/// A list of editions has one resolution that is in order of the least contributors.
pub fn ordered_resolution_is_unique()
    ensures { (list one other : List Edition) → IsOrderedResolution list one
        → IsOrderedResolution list other → one ≡ other }
{}

/// `op::LARGEST_BATCH` is the number that the definition of a batch has.
pub fn largest_batch_is_defined()
    ensures { LARGEST_BATCH ≡ largest_batch }
{}
