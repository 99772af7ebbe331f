//! What an accepted record has, and at which place a rule fails, for whoever reasons about them. Each function is empty, and
//! its clause is the law.
ghost use Rattle.marc_rules.specs.AcceptedLaws.{AcceptedIsLoadable, AcceptedIsWithdrawal, AcceptedHasParts, AcceptedIsShort, AcceptedIsPrintable};
ghost use Rattle.marc_rules.specs.Repeats.{RepeatedIsLeast};

/// An accepted record whose status is not `d` can be loaded: it has one control number, one 008 of 40 bytes and one 245, and
/// its texts are UTF-8.
pub fn accepted_is_loadable()
    ensures { AcceptedIsLoadable }
{}

/// An accepted record whose status is `d` withdraws a record: it has one control number.
pub fn accepted_is_withdrawal()
    ensures { AcceptedIsWithdrawal }
{}

/// An accepted record can be loaded or withdraws one.
pub fn accepted_has_parts()
    ensures { AcceptedHasParts }
{}

/// Each field of an accepted record has at most 9,999 bytes with its terminator.
pub fn accepted_is_short()
    ensures { AcceptedIsShort }
{}

/// The codes in the leader of an accepted record are ASCII graphics and blanks.
pub fn accepted_is_printable()
    ensures { AcceptedIsPrintable }
{}

/// A repeated field is at the least entry that has an earlier entry of its class: under a tag that may occur once, or one of
/// the main entries.
pub fn repeated_is_least()
    ensures { RepeatedIsLeast }
{}
