//! What follows of the fields of an edition. Each function here does nothing when it runs: its contract is the law.
ghost use Rattle.std.specs.Prelude.{List, Contains};
ghost use Rattle.catalogue_editions.specs.declared.edition.Edition.{Edition};
ghost use Rattle.edition_derivations.specs.Steps.{IsEditionOf};
ghost use Rattle.edition_sources.specs.Members.{members, IsOfRecords, IsShownIn};

/// Each field of an edition to which records resolve is that of a record which matches the edition. Of those fields of which it shows
/// one, no such record has a greater one, and of the others it shows all.
pub fn fields_are_of_members()
    ensures of { (records : List Edition) (e : Edition) → IsEditionOf records e
        → IsOfRecords (members records e) e.content }
    ensures shown { (records : List Edition) (e r : Edition) → IsEditionOf records e
        → Contains (members records e) r → IsShownIn e.content r.content }
{}
