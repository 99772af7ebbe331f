//! Why one record's field is shown and not another's.
ghost use Rattle.std.specs.Prelude.{◌≡◌};
ghost use Rattle.edition_sources.specs.Shown.{why_above};

use field_merge::rank::Rank;

/// By what one rank is above another.
#[derive(Clone, Copy, Debug, PartialEq, Eq)]
pub enum Reason {
    /// Its library stands earlier in the preference.
    Preference,
    /// The record is fuller by its encoding level (MARC 21, leader/17).
    Encoding,
    /// The record was changed later (MARC 21, 005).
    Date,
    /// All else is the same, and its id is greater.
    Id,
}

/// The first part of a rank in which two ranks differ. Takes no memory.
pub fn why_above(one: &Rank, other: &Rank) -> Reason
    ensures { result ≡ why_above one.now other.now }
{
    let (x, y) = (one.parts(), other.parts());
    if x.level != y.level {
        Reason::Preference
    } else if x.class != y.class {
        Reason::Encoding
    } else if x.stamp != y.stamp {
        Reason::Date
    } else {
        Reason::Id
    }
}
