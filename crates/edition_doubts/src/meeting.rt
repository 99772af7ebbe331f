//! By what features meet, one way after the other (match_features has the rule as a whole).
ghost use Rattle.std.specs.Prelude.{◌≡◌, ◌||◌};
ghost use Rattle.match_features.specs.Meeting.{is_no_serial, have_common_but_serials, meet_by_control, meet_by_isbn, meet_by_issn, meet_by_title};

use edition_derivations::common::has;
use match_features::features::Features;

/// The bibliographic level of a serial (MARC 21, leader/07).
const SERIAL: u8 = b's';

/// Whether a control number is common to both. Takes no memory.
pub(crate) fn meet_by_control(one: &Features, other: &Features) -> bool
    ensures { result ≡ meet_by_control one.now other.now }
{
    one.control.has_common(&other.control)
}

/// Whether a type and an ISBN are. Takes no memory.
pub(crate) fn meet_by_isbn(one: &Features, other: &Features) -> bool
    ensures { result ≡ meet_by_isbn one.now other.now }
{
    one.types.has_common(&other.types) && one.isbns.has_common(&other.isbns)
}

/// Whether a type and an ISSN are.
fn meet_by_issn(one: &Features, other: &Features) -> bool
    ensures { result ≡ meet_by_issn one.now other.now }
{
    one.types.has_common(&other.types) && one.issns.has_common(&other.issns)
}

/// Whether the type's bibliographic level is no serial's.
fn is_no_serial(kind: &[u8; 2]) -> bool
    ensures { result ≡ is_no_serial kind.now }
{
    kind[1] != SERIAL
}

/// Whether some type that is no serial's stands in both lists.
fn have_common_but_serials(one: &[[u8; 2]], other: &[[u8; 2]]) -> bool
    ensures { result ≡ have_common_but_serials one.now other.now }
{
    one.iter()
        .filter(|kind| is_no_serial(kind))
        .any(|kind| has(other, kind))
}

/// Whether a type that is no serial's, a title, a date and a name are.
fn meet_by_title(one: &Features, other: &Features) -> bool
    ensures { result ≡ meet_by_title one.now other.now }
{
    have_common_but_serials(one.types.as_slice(), other.types.as_slice())
        && one.titles.has_common(&other.titles)
        && one.dates.has_common(&other.dates)
        && one.names.has_common(&other.names)
}

/// Whether the features meet by an ISSN or by a title, with what these need beside them. Takes no memory.
pub(crate) fn meet_by_words(one: &Features, other: &Features) -> bool
    ensures { result ≡ (meet_by_issn one.now other.now || meet_by_title one.now other.now) }
{
    meet_by_issn(one, other) || meet_by_title(one, other)
}
