//! What resolving editions asks of features: merging is a union, meeting is kept by it, and features that meet have a key in
//! common.
//!
//! Each function here does nothing when it runs: its contract is the law. The same laws are the lemmas
//! `features_join_laws` in `specs/`, where the type's own laws cite it, and `features_match_laws`, `features_key_laws`,
//! `features_seeking_laws` and `features_keys_exact` in `proofs/`.
ghost use Rattle.std.specs.Prelude.{◌≡◌, ◌↔◌, ◌⊎◌, IsTrue};
ghost use Rattle.match_features.specs.declared.features.Features.{Features};
ghost use Rattle.match_features.specs.declared.keys.FeatureKey.{FeatureKey};
ghost use Rattle.match_features.specs.Joining.{join};
ghost use Rattle.match_features.specs.Meeting.{meet};
ghost use Rattle.match_features.specs.Keys.{HasKey, share_key, key_eq};
ghost use Rattle.match_features.specs.Posted.{IsPosted, is_posted, Seeks};

/// Merging is idempotent, commutative and associative.
pub fn merging_is_a_union()
    ensures idempotent { (x : Features) → join x x ≡ x }
    ensures commutative { (x y : Features) → join x y ≡ join y x }
    ensures associative { (x y z : Features) → join (join x y) z ≡ join x (join y z) }
{}

/// Features meet themselves.
pub fn meeting_is_reflexive()
    ensures { (x : Features) → IsTrue (meet x x) }
{}

/// Two features meet in either order, or in neither.
pub fn meeting_is_symmetric()
    ensures { (x y : Features) → IsTrue (meet x y) → IsTrue (meet y x) }
{}

/// What meets one of two meets what they merge to.
pub fn meeting_is_representative()
    ensures { (x y z : Features) → IsTrue (meet x y) → IsTrue (meet x (join y z)) }
{}

/// Features that meet have a key in common.
pub fn meeting_shares_a_key()
    ensures { (x y : Features) → IsTrue (meet x y) → (k : FeatureKey) × HasKey x k × HasKey y k }
{}

/// If `x` meets `y`, then `x` seeks a key under which an index has `y`, whether they have few titles, dates and names or many.
pub fn meeting_is_found()
    ensures { (x y : Features) → IsTrue (meet x y) → (k : FeatureKey) × Seeks x k × IsPosted y k }
{}

/// What features find by the keys that they seek has a key in common with them.
pub fn found_shares_a_key()
    ensures { (x y : Features) (k : FeatureKey) → Seeks x k → IsPosted y k
        → IsTrue (share_key y x) }
{}

/// Whether an index has features under a key is what the test says.
pub fn posted_keys_are_told()
    ensures { (x : Features) (k : FeatureKey) → IsPosted x k ↔ IsTrue (is_posted k x) }
{}

/// What two merge to has the keys of both, and no other.
pub fn merging_keeps_keys()
    ensures { (x y : Features) (k : FeatureKey) → HasKey (join x y) k ↔ (HasKey x k ⊎ HasKey y k) }
{}

/// Whether two have a key in common is what the test says.
pub fn shared_keys_are_told()
    ensures { (x y : Features) → IsTrue (share_key x y)
        ↔ ((k : FeatureKey) × HasKey x k × HasKey y k) }
{}

/// Keys that compare as equal are one key.
pub fn keys_are_exact()
    ensures { (j k : FeatureKey) → IsTrue (key_eq j k) → j ≡ k }
{}
