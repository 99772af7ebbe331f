//! Which features meet.
ghost use Rattle.std.specs.Prelude.{◌≡◌};
ghost use Rattle.union_base.specs.SortedLists.{has};
ghost use Rattle.match_features.specs.Kept.{texts_cmp};
ghost use Rattle.match_features.specs.Meeting.{meet_by_isbn, meet_by_issn, is_serial, have_common_but_serials, meet_by_title, meet};

use crate::features::Features;

/// The bibliographic level of a serial (MARC 21, leader/07).
const SERIAL: u8 = b's';

impl Features {
    /// Whether the features are those of one edition: they have a control pair in common, or a type and an ISBN, or a type and
    /// an ISSN, or a type that is no serial's, a title, a date and a name (this project's own rule). Takes no memory.
    pub fn meets(&self, other: &Features) -> bool
        ensures { result ≡ meet self.now other.now }
    {
        self.control.has_common(&other.control)
            || self.meets_by_isbn(other)
            || self.meets_by_issn(other)
            || self.meets_by_title(other)
    }

    /// Whether a type and an ISBN are common to both.
    fn meets_by_isbn(&self, other: &Features) -> bool
        ensures { result ≡ meet_by_isbn self.now other.now }
    {
        self.types.has_common(&other.types) && self.isbns.has_common(&other.isbns)
    }

    /// Whether a type and an ISSN are.
    fn meets_by_issn(&self, other: &Features) -> bool
        ensures { result ≡ meet_by_issn self.now other.now }
    {
        self.types.has_common(&other.types) && self.issns.has_common(&other.issns)
    }

    /// Whether a type that is no serial's, a title, a date and a name are.
    fn meets_by_title(&self, other: &Features) -> bool
        ensures { result ≡ meet_by_title self.now other.now }
    {
        have_common_but_serials(self.types.as_slice(), other.types.as_slice())
            && self.titles.has_common(&other.titles)
            && self.dates.has_common(&other.dates)
            && self.names.has_common(&other.names)
    }
}

/// Whether some type that is no serial's stands in both lists.
fn have_common_but_serials(one: &[[u8; 2]], other: &[[u8; 2]]) -> bool
    ensures { result ≡ have_common_but_serials one.now other.now }
{
    one.iter()
        .filter(|kind| !is_serial(kind))
        .any(|kind| stands_in(kind, other))
}

/// Whether a type's bibliographic level is that of a serial.
fn is_serial(kind: &[u8; 2]) -> bool
    ensures { result ≡ is_serial kind.now }
{
    kind[1] == SERIAL
}

fn stands_in(kind: &[u8; 2], types: &[[u8; 2]]) -> bool
    ensures { result ≡ has texts_cmp types.now kind.now }
{
    types.contains(kind)
}
