//! Which edition has a record.
ghost use Rattle.std.specs.Prelude.{◌≡◌, ◌||◌, false, IsTrue, IfSome, IfNone, All, Contains};
ghost use Rattle.edition_derivations.specs.Steps.{merged, holds};

use crate::step::Step;
use catalogue_editions::edition::Edition;
use union_base::record_id::RecordId;

/// Whether the record of this id is one of the edition's. Takes no memory.
pub fn holds(edition: &Edition, id: &RecordId) -> bool
    ensures { result ≡ holds edition.now id.now }
{
    edition
        .contributors()
        .as_slice()
        .iter()
        .any(|contributor| id.cmp(contributor).is_eq())
}

/// The edition that has the record of this id: None where none has it. Takes no memory.
pub fn holder<'a>(editions: &'a [Edition], id: &RecordId) -> Option<&'a Edition>
    ensures among { IfSome result (λ e. Contains editions.now e.now) }
    ensures holds { IfSome result (λ e. IsTrue (holds e.now id.now)) }
    ensures none { IfNone result (All (λ e. holds e id.now ≡ false) editions.now) }
{
    for edition in editions {
        if holds(edition, id) {
            return Some(edition);
        }
    }
    None
}

/// Whether what the step merges to has the record of this id. Takes no memory.
pub(crate) fn merges(step: &Step, id: &RecordId) -> bool
    ensures { result ≡ holds (merged step.now) id.now }
{
    holds(&step.left, id) || holds(&step.right, id)
}
