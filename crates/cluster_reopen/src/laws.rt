//! What holds of every withdrawal, for every type that is `Resolvable`: each function here does nothing, and its contract
//! is a fact that follows from the laws of the two traits alone. Callers cite it by a call.
//!
//! Cost: none. The definitions are in specs/Resolution.antt and specs/Withdrawal.antt of merge_laws.
ghost use Rattle.std.specs.Prelude.{◌≡◌, ℕ, ◌<◌, ◌↔◌, List, ◌++◌, length, slice_index_or, remove, Contains};
ghost use Rattle.std.specs.List.Sorted.{IsPermutation};
ghost use Rattle.merge_laws.specs.Resolution.{IsDominated, IsResolution, DoNotMatch, AreApart};
ghost use Rattle.merge_laws.specs.Withdrawal.{IsWithdrawn};

use merge_laws::resolvable::Resolvable;

/// When a value is withdrawn, the other blocks and the parts of its block are the resolution of the rest, no two of them
/// match, and so no part matches another block.
pub fn rest_is_resolved<R: Resolvable>()
    ensures resolved { (list resolution : List R) (withdrawn : R) (rest : List R) (block : R)
        (others kept parts : List R)
        → IsWithdrawn R.meets R.join list resolution withdrawn rest block others kept parts
        → IsResolution R.meets R.join rest (others ++ parts) }
    ensures apart { (list resolution : List R) (withdrawn : R) (rest : List R) (block : R)
        (others kept parts : List R)
        → IsWithdrawn R.meets R.join list resolution withdrawn rest block others kept parts
        → AreApart R.meets (others ++ parts) }
    ensures strangers { (list resolution : List R) (withdrawn : R) (rest : List R) (block : R)
        (others kept parts : List R)
        → IsWithdrawn R.meets R.join list resolution withdrawn rest block others kept parts
        → (part other : R) → Contains parts part → Contains others other
        → DoNotMatch R.meets part other }
{}

/// A view is the resolution of a list, and the block at a place of it dominates the value at a place of the list, which is
/// withdrawn. The block keeps the members of the list without that value that it dominates, and they resolve to the parts.
/// Then the view without the block and with the parts is the resolution of the list without the value, and no part matches
/// another block.
pub fn split_view_is_resolved<R: Resolvable>()
    ensures resolved { (list view : List R) (at place : ℕ) (withdrawn block : R)
        (kept parts : List R)
        → IsResolution R.meets R.join list view
        → at < length list → slice_index_or list at withdrawn ≡ withdrawn
        → place < length view → slice_index_or view place block ≡ block
        → IsDominated R.meets R.join withdrawn block
        → ((x : R) → Contains kept x ↔ (Contains (remove list at) x
        × IsDominated R.meets R.join x block))
        → IsResolution R.meets R.join kept parts
        → IsResolution R.meets R.join (remove list at) (remove view place ++ parts) }
    ensures strangers { (list view : List R) (at place : ℕ) (withdrawn block : R)
        (kept parts : List R)
        → IsResolution R.meets R.join list view
        → at < length list → slice_index_or list at withdrawn ≡ withdrawn
        → place < length view → slice_index_or view place block ≡ block
        → IsDominated R.meets R.join withdrawn block
        → ((x : R) → Contains kept x ↔ (Contains (remove list at) x
        × IsDominated R.meets R.join x block))
        → IsResolution R.meets R.join kept parts
        → (part other : R) → Contains parts part → Contains (remove view place) other
        → DoNotMatch R.meets part other }
{}

/// A resolution is one in whatever order its members stand, as where the parts are put in the midst of the view.
pub fn resolution_in_any_order<R: Resolvable>()
    ensures { (list one other : List R) → IsResolution R.meets R.join list one
        → IsPermutation one other
        → IsResolution R.meets R.join list other }
{}
