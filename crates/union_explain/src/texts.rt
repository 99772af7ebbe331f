//! What the rows say: for each rule, what it finds in the record, and what to do; and what is said where the file is not the
//! one of the report.

pub const TRUNCATED: &[u8] =
    b"The file ends before the record does: its last record terminator is missing.";

pub const TRUNCATED_ADVICE: &[u8] =
    b"Have the file delivered again; if only the terminator is missing, append the byte 0x1D.";

pub const TOO_LONG: &[u8] =
    b"The record has more than 99,999 bytes, the most that ISO 2709 can say.";

pub const TOO_LONG_ADVICE: &[u8] =
    b"Look whether two records have grown together because a record terminator was lost; else \
    shorten the record in its own system.";

pub const TOO_SHORT: &[u8] =
    b"There are fewer than 26 bytes up to this record terminator, too few for a record.";

pub const TOO_SHORT_ADVICE: &[u8] = b"Nothing, where it is a stray terminator: no record was lost.";

pub const LENGTH_DIGITS: &[u8] =
    b"The record does not begin with its length in five digits (leader 00-04).";

pub const LENGTH_DIGITS_ADVICE: &[u8] =
    b"Look for bytes in front of the record: a byte order mark, text, the rest of a damaged \
    record.";

pub const LENGTH_DIFFERS: &[u8] =
    b"The length in the leader (00-04) is not the length of the record in bytes.";

pub const LENGTH_DIFFERS_ADVICE: &[u8] =
    b"Count lengths in bytes and not in characters; look whether the next good record stands \
    in the same frame, because a record terminator was lost.";

pub const BASE_ADDRESS: &[u8] =
    b"The base address in the leader (12-16) does not fit the directory.";

pub const BASE_ADDRESS_ADVICE: &[u8] =
    b"Have the record delivered again: its directory is damaged.";

pub const LEADER_COUNTS: &[u8] =
    b"A byte of the leader may not stand where it does: 10 and 11 are 2, 20 to 22 are 4, 5 and \
     0, and all are printable. The place is its offset.";

pub const LEADER_COUNTS_ADVICE: &[u8] = b"Set these bytes of the leader, as yaz-marcdump -l does.";

pub const ENTRY_DIGITS: &[u8] =
    b"The length or the start in this entry of the directory is not all digits.";

pub const ENTRY_DIGITS_ADVICE: &[u8] =
    b"Have the record delivered again: its directory is damaged.";

pub const TAG: &[u8] = b"The tag of this entry is not three ASCII letters or digits.";

pub const TAG_ADVICE: &[u8] = b"Have the record delivered again: its directory is damaged.";

pub const TILING: &[u8] =
    b"The length and the start in this entry do not fit the fields: they overlap, leave a gap, \
     or do not end where the field does.";

pub const TILING_ADVICE: &[u8] =
    b"Have the record delivered again, with lengths counted in bytes and not in characters.";

pub const STATUS: &[u8] = b"The record's status (leader 05) is none of a, c, d, n and p.";

pub const STATUS_ADVICE: &[u8] =
    b"Set the status: n, c, a or p loads the record, and d withdraws it.";

pub const UNKNOWN_CODING: &[u8] =
    b"The character coding (leader 09) is neither blank (MARC-8) nor a (UTF-8).";

pub const UNKNOWN_CODING_ADVICE: &[u8] = b"Convert the record to UTF-8 and set leader 09 to a.";

pub const CODED: &[u8] =
    b"This field has accents or another script, but leader 09 is blank (MARC-8), of which only \
     ASCII is read.";

pub const CODED_ADVICE: &[u8] =
    b"Convert the record from MARC-8 to UTF-8 and set leader 09 to a; where the bytes are \
    UTF-8 already, set leader 09 alone.";

pub const NOT_UTF8: &[u8] = b"Leader 09 says UTF-8, and the bytes of this field are not UTF-8.";

pub const NOT_UTF8_ADVICE: &[u8] =
    b"Convert the field from the coding that it is really in, mostly Latin-1.";

pub const CONTROL_SHAPE: &[u8] = b"A control field (00X) has a subfield delimiter.";

pub const CONTROL_SHAPE_ADVICE: &[u8] =
    b"Move the text of this field to a field that may have subfields, or remove it.";

pub const DATA_SHAPE: &[u8] =
    b"This field has not two indicators and then subfields, each with its code.";

pub const DATA_SHAPE_ADVICE: &[u8] =
    b"Add the indicators or the subfield code, or remove the empty subfield.";

pub const NO_CONTROL_NUMBER: &[u8] =
    b"There is no control number (field 001), without which a record can be neither corrected \
    nor withdrawn.";

pub const NO_CONTROL_NUMBER_ADVICE: &[u8] =
    b"Add a 001 with the record's number in its own system, the same from night to night.";

pub const BAD_CONTROL_NUMBER: &[u8] =
    b"This 001 is a second one, or not 1 to 64 printable ASCII bytes.";

pub const BAD_CONTROL_NUMBER_ADVICE: &[u8] = b"Keep one 001, of at most 64 printable ASCII bytes.";

pub const REPEATED: &[u8] =
    b"This field stands a second time and may stand once: 003, 005, 010, 040, 240, or one of \
    100, 110, 111 and 130.";

pub const REPEATED_ADVICE: &[u8] = b"Move a second author to 700, 710 or 711; remove any other.";

pub const NO_FIXED_008: &[u8] = b"There is no field 008.";

pub const NO_FIXED_008_ADVICE: &[u8] = b"Add an 008 of 40 bytes.";

pub const BAD_FIXED_008: &[u8] = b"This 008 is a second one, or has not 40 bytes.";

pub const BAD_FIXED_008_ADVICE: &[u8] =
    b"Keep one 008; where blanks at its end were cut off, fill it up to 40 bytes.";

pub const NO_TITLE: &[u8] = b"There is no title (field 245): often it is no bibliographic record.";

pub const NO_TITLE_ADVICE: &[u8] =
    b"Add a 245, or leave the record out where it is an authority, a holding or an item.";

pub const SECOND_TITLE: &[u8] = b"This is a second 245.";

pub const SECOND_TITLE_ADVICE: &[u8] = b"Keep one 245; make the other a 246.";

pub const NO_RULE: &[u8] =
    b"The file is not the one of the report: the record of this number breaks no rule.";

pub const OTHER_RULE: &[u8] =
    b"The file is not the one of the report: the record of this number breaks another rule, or \
    this one elsewhere.";

pub const OTHER_FILE_ADVICE: &[u8] =
    b"Name the file as it was when the report was written, or have this file checked again.";
