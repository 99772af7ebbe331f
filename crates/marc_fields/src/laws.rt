//! What holds of frames and records, for whoever reasons about them. Each function is empty, and its clause is the law.
ghost use Rattle.marc_fields.specs.Laws.{SpellsOne, IsSpelled, BreaksNoRule, TilingPlaceIsLeast};

/// A frame spells one record at most.
pub fn spells_one()
    ensures { SpellsOne }
{}

/// A record within the limits is spelled by the frame that has its fields in the order of the directory.
pub fn is_spelled()
    ensures { IsSpelled }
{}

/// A frame that spells a record breaks no rule on leader, directory, data and shape of fields.
pub fn breaks_no_rule()
    ensures { BreaksNoRule }
{}

/// The rule on ranges is broken at the least entry whose range is no field of the data, or has an offset that is in the range
/// of an earlier entry; where there is none, after the last entry if an offset of the data is in no range.
pub fn tiling_place_is_least()
    ensures { TilingPlaceIsLeast }
{}
