//! What holds of works, whatever the pairs. Each function here does nothing when it runs: its contract is the law.
//!
//! So who keeps the works of a list of pairs by changes alone keeps exactly the works of the list as it is now.
ghost use Rattle.std.specs.Prelude.{◌≡◌, ◌↔◌, ℕ, List, [], ◌∷◌, ◌++◌, Some, None, IsTrue, Contains};
ghost use Rattle.std.specs.List.Sorted.{IsPermutation};
ghost use Rattle.union_base.specs.SortedLists.{is_ascending};
ghost use Rattle.union_base.specs.declared.record_id.RecordId.{RecordId};
ghost use Rattle.work_clusters.specs.Works.{key_cmp, works_of, changed, ids_under, keys_of, key_after};
ghost use Rattle.union_base.specs.RecordIds.{id_cmp};
ghost use Rattle.work_clusters.specs.Works.{AreAfter, first_of_list};

/// Works do not depend on the order of the pairs, nor on repeats among them.
pub fn order_of_pairs()
    ensures permuted { (pairs others : List (List ℕ × RecordId)) → IsPermutation pairs others
        → works_of pairs ≡ works_of others }
    ensures members { (pairs others : List (List ℕ × RecordId))
        → ((p : List ℕ × RecordId) → Contains pairs p ↔ Contains others p)
        → works_of pairs ≡ works_of others }
{}

/// The change of the works of pairs is the works of the pairs after the change. From no works it is those that came.
pub fn change_of_pairs()
    ensures changed { (pairs gone come after : List (List ℕ × RecordId))
        → AreAfter pairs gone come after
        → changed (works_of pairs) gone come ≡ works_of after }
    ensures first { (come : List (List ℕ × RecordId)) → changed [] [] come ≡ works_of come }
{}

/// Under a key stand, in order and each once, the ids that are in a pair with it. The keys are in order, and each once.
pub fn reading_of_pairs()
    ensures ids { (pairs : List (List ℕ × RecordId)) (key : List ℕ) (id : RecordId)
        → Contains (ids_under (works_of pairs) key) id ↔ Contains pairs (key, id) }
    ensures ordered { (pairs : List (List ℕ × RecordId)) (key : List ℕ)
        → IsTrue (is_ascending id_cmp (ids_under (works_of pairs) key)) }
    ensures keys { (pairs : List (List ℕ × RecordId))
        → IsTrue (is_ascending key_cmp (keys_of (works_of pairs))) }
{}

/// The key after none is the first, and the key after a key is the one that follows it: so a walk from key to key meets
/// each key once, in order.
pub fn walk_along_keys()
    ensures first { (works : List (List ℕ × List RecordId))
        → key_after works None ≡ first_of_list (keys_of works) }
    ensures next { (pairs : List (List ℕ × RecordId)) (front : List (List ℕ)) (key : List ℕ)
        (rest : List (List ℕ))
        → keys_of (works_of pairs) ≡ front ++ key ∷ rest
        → key_after (works_of pairs) (Some key) ≡ first_of_list rest }
{}
