//! What holds of followers. Each function here does nothing when it runs: its contract is the law.
ghost use Rattle.std.specs.Prelude.{List, []};
ghost use Rattle.catalogue_editions.specs.declared.edition.Edition.{Edition};
ghost use Rattle.catalogue_editions.specs.Resolutions.{IsOrderedResolution};
ghost use Rattle.change_notices.specs.Followers.{AreAllHeld, AreHeld, AreSteps, Follows, Step, last_of};

/// A follower that begins empty, and takes the deltas of a sequence of lists of editions that begins with the empty list, refuses
/// none, and holds the last list. By `resolutions_can_be_held`, and by the clause of `catalogue_core::catalogue::Catalogue::apply_told`
/// on its delta, the editions of a catalogue over its turns are such a sequence.
pub fn deltas_lead_to_the_last_list()
    ensures { (lists : List (List Edition)) (steps : List Step) → AreAllHeld lists
        → AreSteps [] lists steps
        → Follows [] steps (last_of [] lists) }
{}

/// What records resolve to, in order of the least contributors, is a list that a follower can hold. So are the editions of a
/// catalogue after each of its turns.
pub fn resolutions_can_be_held()
    ensures { (list editions : List Edition) → IsOrderedResolution list editions
        → AreHeld editions }
{}
