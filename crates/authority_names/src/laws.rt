//! What holds of the names that records give, and of their tables.
ghost use Rattle.std.specs.Prelude.{◌≡◌, ℕ, List, Option, IsPermutation};
ghost use Rattle.authority_names.specs.Names.{Authority, IsSize, name_at, see};
ghost use Rattle.authority_names.specs.Leads.{Table, IsTableOf, LeastUsedIsLeast};

use workset_keys::laws::least_name_is_least;

/// A heading that is used for a name stands for itself.
pub fn seen_once()
    ensures { (records : List Authority) (x : List ℕ)
        → see records (see records x) ≡ see records x }
{}

/// The order of the records is of no consequence: they give the same names, and the same table.
pub fn any_order()
    ensures names { (records others : List Authority) → IsPermutation records others
        → (x : List ℕ) → name_at records x ≡ name_at others x }
    ensures tables { (records others : List Authority) → IsPermutation records others
        → (first second : Table) → IsTableOf first records → IsTableOf second others
        → first ≡ second }
{}

/// A table has one size.
pub fn one_size()
    ensures { (table : List ℕ → Option (List ℕ)) (m n : ℕ) → IsSize table m → IsSize table n
        → m ≡ n }
{}

/// The least of the headings that are used for the names of added entries is one of them, is not empty, and no other that is not
/// empty comes before it in the order of bytes; or all of them are empty, and then it is empty.
pub fn least_used_is_least()
    ensures { LeastUsedIsLeast }
{
    least_name_is_least();
}
