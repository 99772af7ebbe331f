//! What holds of the record that is shown of an edition, for whoever reasons about one. Each function is empty, and its clause
//! is the law.
ghost use Rattle.catalogue_export.specs.ExportedLaws.{ExportedIsWhole, ExportedBreaksNoRule, ExportedIsAccepted, ExportedIsNumberedTooLong, NumbersEndInNoBlank, EditionIsAccepted, EditionIsNumberedTooLong, EditionIsUtf8};
ghost use Rattle.catalogue_export.specs.Longest.{FrontIsLongest, FittingIsLongest};

/// The bytes that are shown of an edition are a whole frame: no more than a frame may have, and the only record terminator
/// among them is the last.
pub fn exported_is_whole()
    ensures { ExportedIsWhole }
{}

/// The bytes that are shown of an edition break none of the rules on a record that is sent to the catalogue, where the library
/// code and the control number of its first contributor have at most 63 bytes together. The work key is to be UTF-8.
pub fn exported_breaks_no_rule()
    ensures { ExportedBreaksNoRule }
{}

/// So the record is one that the catalogue accepts.
pub fn exported_is_accepted()
    ensures { ExportedIsAccepted }
{}

/// Where they have more, its 001 has more bytes than a control number may have. That is the first rule that they break, at the
/// place of the 001, which stands first but for fields 000 of the contributors.
pub fn exported_is_numbered_too_long()
    ensures { ExportedIsNumberedTooLong }
{}

/// The laws count no blanks at the end of a control number; the control number of a record has none.
pub fn control_number_ends_in_no_blank()
    ensures { NumbersEndInNoBlank }
{}

/// The bytes that are written of an edition, under its work key by a table of names, break none of the rules on a record that
/// is sent to the catalogue, where the library code and the control number of its least contributor have at most 63 bytes together.
pub fn edition_is_accepted()
    ensures { EditionIsAccepted }
{}

/// Where they have more, the first rule that those bytes break is that the 001 has more bytes than a control number may have,
/// at the place of the 001, which stands first but for fields 000 of the contributors.
pub fn edition_is_numbered_too_long()
    ensures { EditionIsNumberedTooLong }
{}

/// The texts of the record that is shown of an edition, under its work key by a table of names, are UTF-8.
pub fn edition_is_utf8()
    ensures { EditionIsUtf8 }
{}

/// What is shown of a work key is its longest prefix that has no more bytes than are shown and ends between two characters.
pub fn shown_key_is_the_longest_front()
    ensures { FrontIsLongest }
{}

/// The fields that are kept of an edition are the longest prefix of all its fields whose record has no more bytes than a frame
/// may have: with one field more it would have too many.
pub fn kept_fields_are_the_longest_prefix()
    ensures { FittingIsLongest }
{}
