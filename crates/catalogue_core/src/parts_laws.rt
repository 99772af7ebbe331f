//! What holds where the records are in parts that are known apart, as on several machines. Each function here does nothing
//! when it runs: its contract is the law.
//!
//! The parts of a batch, of which `turn::prepared` speaks, are something else.
ghost use Rattle.std.specs.Prelude.{◌≡◌, ◌↔◌, false, List};
ghost use Rattle.catalogue_editions.specs.Matching.{match as edition_match};
ghost use Rattle.catalogue_editions.specs.Resolutions.{IsOrderedResolution};
ghost use Rattle.catalogue_editions.specs.declared.edition.Edition.{Edition};
ghost use Rattle.catalogue_core.specs.Parts.{Part, records_of, ArePartsApart, ShareNoCandidate, SharePartsNoCandidate, HasMembersOf, AreMerged};

/// Where no edition of one part's resolution matches one of another's, the ordered resolution of all records is the editions
/// of the parts, merged in order of their least contributors, and nothing else is. How many parts there are does not matter,
/// nor in which order the records stand.
pub fn parts_resolve_apart()
    ensures { (parts : List Part) (list all : List Edition) → ArePartsApart parts
        → HasMembersOf list (records_of parts)
        → IsOrderedResolution list all ↔ AreMerged parts all }
{}

/// Two editions do not match if the one seeks no key under which an index has the other.
pub fn strangers_do_not_match()
    ensures { (x y : Edition) → ShareNoCandidate x y → edition_match x y ≡ false }
{}

/// Parts whose editions share no candidate key are apart, so their resolutions are the resolution of all.
pub fn parts_without_a_common_key_are_apart()
    ensures { (parts : List Part) → SharePartsNoCandidate parts → ArePartsApart parts }
{}
