//! Frames from an independent program, with the rule and place at which each is refused.
use marc_fields::rules::Rule;

/// The first rule that a frame breaks, its place, and the frame.
pub type Refused = (Rule, u32, &'static [u8]);

/// A frame that breaks two rules, the first of all and the first of those that `marc_fields` asks for.
pub type ShapeBehind = ((Rule, u32), (Rule, u32), &'static [u8]);

/// Frames that break a rule on lengths and the leader first, with the rule and the place: `marc_fields` and `marc_rules` name
/// the same.
pub fn leaders() -> &'static [Refused] {
    &LEADERS
}

/// Frames that break a rule on the directory and the shape of fields first, with the rule and the place: `marc_fields` and
/// `marc_rules` name the same.
pub fn directories() -> &'static [Refused] {
    &DIRECTORIES
}

/// Frames that break a rule of content first, with the rule and the place: `marc_fields` reads them.
pub fn content() -> &'static [Refused] {
    &CONTENT
}

/// Frames that break a rule of content and then the shape of a field: the first of all rules and its place, and the first of
/// those that `marc_fields` asks for.
pub fn shapes_behind() -> &'static [ShapeBehind] {
    &SHAPES_BEHIND
}

static LEADERS: [Refused; 88] = [
    // 1 bytes of a good record.
    (Rule::TooShort, 0, b"\x1D"),
    // 2 bytes of a good record.
    (Rule::TooShort, 0, b"0\x1D"),
    // 12 bytes of a good record.
    (Rule::TooShort, 0, b"00114nam a2\x1D"),
    // 24 bytes of a good record.
    (Rule::TooShort, 0, b"00114nam a2200061 a 450\x1D"),
    // 25 bytes of a good record.
    (Rule::TooShort, 0, b"00114nam a2200061 a 4500\x1D"),
    // 25 bytes whose leader says so.
    (Rule::TooShort, 0, b"00025nam a2200025 a 4500\x1D"),
    // Four bytes of text.
    (Rule::TooShort, 0, b"abc\x1D"),
    // Length byte 0 is 0x20.
    (
        Rule::LengthDigits,
        0,
        b" 0114nam a2200061 a 4500001000300000008004100003245000800044\x1Eid\x1E240101s1999    xx                  eng d\x1E00\x1FaCat\x1E\x1D",
    ),
    // Length byte 0 is 0x78.
    (
        Rule::LengthDigits,
        0,
        b"x0114nam a2200061 a 4500001000300000008004100003245000800044\x1Eid\x1E240101s1999    xx                  eng d\x1E00\x1FaCat\x1E\x1D",
    ),
    // Length byte 2 is 0x2d.
    (
        Rule::LengthDigits,
        0,
        b"00-14nam a2200061 a 4500001000300000008004100003245000800044\x1Eid\x1E240101s1999    xx                  eng d\x1E00\x1FaCat\x1E\x1D",
    ),
    // Length byte 4 is 0x00.
    (
        Rule::LengthDigits,
        0,
        b"0011\x00nam a2200061 a 4500001000300000008004100003245000800044\x1Eid\x1E240101s1999    xx                  eng d\x1E00\x1FaCat\x1E\x1D",
    ),
    // Length byte 4 is 0x20.
    (
        Rule::LengthDigits,
        0,
        b"0011 nam a2200061 a 4500001000300000008004100003245000800044\x1Eid\x1E240101s1999    xx                  eng d\x1E00\x1FaCat\x1E\x1D",
    ),
    // Length byte 1 is 0xff.
    (
        Rule::LengthDigits,
        0,
        b"0\xFF114nam a2200061 a 4500001000300000008004100003245000800044\x1Eid\x1E240101s1999    xx                  eng d\x1E00\x1FaCat\x1E\x1D",
    ),
    // Length byte 3 is 0x2e.
    (
        Rule::LengthDigits,
        0,
        b"001.4nam a2200061 a 4500001000300000008004100003245000800044\x1Eid\x1E240101s1999    xx                  eng d\x1E00\x1FaCat\x1E\x1D",
    ),
    // Length byte 4 is 0x2f.
    (
        Rule::LengthDigits,
        0,
        b"0011/nam a2200061 a 4500001000300000008004100003245000800044\x1Eid\x1E240101s1999    xx                  eng d\x1E00\x1FaCat\x1E\x1D",
    ),
    // Length byte 4 is 0x3a.
    (
        Rule::LengthDigits,
        0,
        b"0011:nam a2200061 a 4500001000300000008004100003245000800044\x1Eid\x1E240101s1999    xx                  eng d\x1E00\x1FaCat\x1E\x1D",
    ),
    // At once: LengthDigits, BaseAddress.
    (
        Rule::LengthDigits,
        0,
        b"x0146nam a22x0085 a 4500001000300000008004100003245000800044500000600052005000200058\x1Eid\x1E240101s1999    xx                  eng d\x1E00\x1FaCat\x1E  \x1Fax\x1Ey\x1E\x1D",
    ),
    // At once: LengthDigits, Repeated.
    (
        Rule::LengthDigits,
        0,
        b"x0160nam a2200097 a 4500001000300000008004100003245000800044500000600052005000200058005000200060\x1Eid\x1E240101s1999    xx                  eng d\x1E00\x1FaCat\x1E  \x1Fax\x1Ey\x1Ez\x1E\x1D",
    ),
    // At once: LengthDigits, EntryDigits, Tiling, Status, Fixed008.
    (
        Rule::LengthDigits,
        0,
        b"x0111xam a2200085 a 450000100030000000800a100003245999900009500000600017005000200023\x1Eid\x1Eshort\x1E00\x1FaCat\x1E  \x1Fax\x1Ey\x1E\x1D",
    ),
    // At once: LengthDigits, BaseAddress, LeaderCounts, Tiling, NotUtf8, Fixed008.
    (
        Rule::LengthDigits,
        0,
        b"x0111nam a92x0085 a 4500001000300000008000600003245999900009500000600017005000200023\x1Eid\x1Eshort\x1E00\x1FaCat\x1E  \x1Fa\xE9\x1Ey\x1E\x1D",
    ),
    // At once: LengthDigits, EntryDigits, Tag, Tiling, ControlNumber, Fixed008.
    (
        Rule::LengthDigits,
        0,
        b"x0174nam a2200085 a 450000100660000000800a1000662!5999900072500000600080005000200086\x1Exxxxxxxxxxxxxxxxxxxxxxxxxxxxxxxxxxxxxxxxxxxxxxxxxxxxxxxxxxxxxxxxx\x1Eshort\x1E00\x1FaCat\x1E  \x1Fax\x1Ey\x1E\x1D",
    ),
    // Length says 0, the frame has 114 bytes.
    (
        Rule::LengthDiffers,
        0,
        b"00000nam a2200061 a 4500001000300000008004100003245000800044\x1Eid\x1E240101s1999    xx                  eng d\x1E00\x1FaCat\x1E\x1D",
    ),
    // Length says 26, the frame has 114 bytes.
    (
        Rule::LengthDiffers,
        0,
        b"00026nam a2200061 a 4500001000300000008004100003245000800044\x1Eid\x1E240101s1999    xx                  eng d\x1E00\x1FaCat\x1E\x1D",
    ),
    // Length says 113, the frame has 114 bytes.
    (
        Rule::LengthDiffers,
        0,
        b"00113nam a2200061 a 4500001000300000008004100003245000800044\x1Eid\x1E240101s1999    xx                  eng d\x1E00\x1FaCat\x1E\x1D",
    ),
    // Length says 115, the frame has 114 bytes.
    (
        Rule::LengthDiffers,
        0,
        b"00115nam a2200061 a 4500001000300000008004100003245000800044\x1Eid\x1E240101s1999    xx                  eng d\x1E00\x1FaCat\x1E\x1D",
    ),
    // Length says 99999, the frame has 114 bytes.
    (
        Rule::LengthDiffers,
        0,
        b"99999nam a2200061 a 4500001000300000008004100003245000800044\x1Eid\x1E240101s1999    xx                  eng d\x1E00\x1FaCat\x1E\x1D",
    ),
    // Length says 11400, the frame has 114 bytes.
    (
        Rule::LengthDiffers,
        0,
        b"11400nam a2200061 a 4500001000300000008004100003245000800044\x1Eid\x1E240101s1999    xx                  eng d\x1E00\x1FaCat\x1E\x1D",
    ),
    // Length says 141, the frame has 114 bytes.
    (
        Rule::LengthDiffers,
        0,
        b"00141nam a2200061 a 4500001000300000008004100003245000800044\x1Eid\x1E240101s1999    xx                  eng d\x1E00\x1FaCat\x1E\x1D",
    ),
    // One byte more than the length says.
    (
        Rule::LengthDiffers,
        0,
        b"00114nam a2200061 a 4500001000300000008004100003245000800044\x1Eid\x1E240101s1999    xx                  eng d\x1E00\x1FaCat\x1E\x0A\x1D",
    ),
    // At once: LengthDiffers, BaseAddress.
    (
        Rule::LengthDiffers,
        0,
        b"00999nam a22x0085 a 4500001000300000008004100003245000800044500000600052005000200058\x1Eid\x1E240101s1999    xx                  eng d\x1E00\x1FaCat\x1E  \x1Fax\x1Ey\x1E\x1D",
    ),
    // At once: LengthDiffers, LeaderCounts.
    (
        Rule::LengthDiffers,
        0,
        b"00999nam a9200085 a 4500001000300000008004100003245000800044500000600052005000200058\x1Eid\x1E240101s1999    xx                  eng d\x1E00\x1FaCat\x1E  \x1Fax\x1Ey\x1E\x1D",
    ),
    // At once: LengthDiffers, Repeated.
    (
        Rule::LengthDiffers,
        0,
        b"00999nam a2200097 a 4500001000300000008004100003245000800044500000600052005000200058005000200060\x1Eid\x1E240101s1999    xx                  eng d\x1E00\x1FaCat\x1E  \x1Fax\x1Ey\x1Ez\x1E\x1D",
    ),
    // At once: LengthDiffers, Fixed008.
    (
        Rule::LengthDiffers,
        0,
        b"00999nam a2200085 a 4500001000300000008000600003245000800009500000600017005000200023\x1Eid\x1Eshort\x1E00\x1FaCat\x1E  \x1Fax\x1Ey\x1E\x1D",
    ),
    // At once: LengthDiffers, NotUtf8.
    (
        Rule::LengthDiffers,
        0,
        b"00999nam a2200085 a 4500001000300000008004100003245000800044500000600052005000200058\x1Eid\x1E240101s1999    xx                  eng d\x1E00\x1FaCat\x1E  \x1Fa\xE9\x1Ey\x1E\x1D",
    ),
    // At once: LengthDiffers, DataShape.
    (
        Rule::LengthDiffers,
        0,
        b"00999nam a2200097 a 4500001000300000008004100003245000800044500000600052005000200058700000200060\x1Eid\x1E240101s1999    xx                  eng d\x1E00\x1FaCat\x1E  \x1Fax\x1Ey\x1Ex\x1E\x1D",
    ),
    // At once: LengthDiffers, Title245.
    (
        Rule::LengthDiffers,
        0,
        b"00999nam a2200097 a 4500001000300000008004100003245000800044500000600052005000200058245000800060\x1Eid\x1E240101s1999    xx                  eng d\x1E00\x1FaCat\x1E  \x1Fax\x1Ey\x1E00\x1FaDog\x1E\x1D",
    ),
    // Base has a letter.
    (
        Rule::BaseAddress,
        0,
        b"00114nam a220006x a 4500001000300000008004100003245000800044\x1Eid\x1E240101s1999    xx                  eng d\x1E00\x1FaCat\x1E\x1D",
    ),
    // Base has a blank.
    (
        Rule::BaseAddress,
        0,
        b"00114nam a22 0061 a 4500001000300000008004100003245000800044\x1Eid\x1E240101s1999    xx                  eng d\x1E00\x1FaCat\x1E\x1D",
    ),
    // Base 24.
    (
        Rule::BaseAddress,
        0,
        b"00114nam a2200024 a 4500001000300000008004100003245000800044\x1Eid\x1E240101s1999    xx                  eng d\x1E00\x1FaCat\x1E\x1D",
    ),
    // Base 0.
    (
        Rule::BaseAddress,
        0,
        b"00114nam a2200000 a 4500001000300000008004100003245000800044\x1Eid\x1E240101s1999    xx                  eng d\x1E00\x1FaCat\x1E\x1D",
    ),
    // Base is the frame's length.
    (
        Rule::BaseAddress,
        0,
        b"00114nam a2200114 a 4500001000300000008004100003245000800044\x1Eid\x1E240101s1999    xx                  eng d\x1E00\x1FaCat\x1E\x1D",
    ),
    // Base is far out.
    (
        Rule::BaseAddress,
        0,
        b"00114nam a2299997 a 4500001000300000008004100003245000800044\x1Eid\x1E240101s1999    xx                  eng d\x1E00\x1FaCat\x1E\x1D",
    ),
    // Base one more.
    (
        Rule::BaseAddress,
        0,
        b"00114nam a2200062 a 4500001000300000008004100003245000800044\x1Eid\x1E240101s1999    xx                  eng d\x1E00\x1FaCat\x1E\x1D",
    ),
    // Base one less.
    (
        Rule::BaseAddress,
        0,
        b"00114nam a2200060 a 4500001000300000008004100003245000800044\x1Eid\x1E240101s1999    xx                  eng d\x1E00\x1FaCat\x1E\x1D",
    ),
    // Base one entry more.
    (
        Rule::BaseAddress,
        0,
        b"00114nam a2200073 a 4500001000300000008004100003245000800044\x1Eid\x1E240101s1999    xx                  eng d\x1E00\x1FaCat\x1E\x1D",
    ),
    // Base one entry less.
    (
        Rule::BaseAddress,
        0,
        b"00114nam a2200049 a 4500001000300000008004100003245000800044\x1Eid\x1E240101s1999    xx                  eng d\x1E00\x1FaCat\x1E\x1D",
    ),
    // Base 25 in a record with entries.
    (
        Rule::BaseAddress,
        0,
        b"00114nam a2200025 a 4500001000300000008004100003245000800044\x1Eid\x1E240101s1999    xx                  eng d\x1E00\x1FaCat\x1E\x1D",
    ),
    // Byte before the base is 0x1F.
    (
        Rule::BaseAddress,
        0,
        b"00114nam a2200061 a 4500001000300000008004100003245000800044\x1Fid\x1E240101s1999    xx                  eng d\x1E00\x1FaCat\x1E\x1D",
    ),
    // Byte before the base is a digit.
    (
        Rule::BaseAddress,
        0,
        b"00114nam a2200061 a 45000010003000000080041000032450008000440id\x1E240101s1999    xx                  eng d\x1E00\x1FaCat\x1E\x1D",
    ),
    // No directory terminator.
    (
        Rule::BaseAddress,
        0,
        b"00113nam a2200061 a 4500001000300000008004100003245000800044id\x1E240101s1999    xx                  eng d\x1E00\x1FaCat\x1E\x1D",
    ),
    // Base over the length less 1 in the least frame.
    (Rule::BaseAddress, 0, b"00026nam a2200026 a 4500\x1E\x1D"),
    // At once: BaseAddress, LeaderCounts.
    (
        Rule::BaseAddress,
        0,
        b"00146nam a92x0085 a 4500001000300000008004100003245000800044500000600052005000200058\x1Eid\x1E240101s1999    xx                  eng d\x1E00\x1FaCat\x1E  \x1Fax\x1Ey\x1E\x1D",
    ),
    // At once: BaseAddress, EntryDigits.
    (
        Rule::BaseAddress,
        0,
        b"00146nam a22x0085 a 450000100030000000800a100003245000800044500000600052005000200058\x1Eid\x1E240101s1999    xx                  eng d\x1E00\x1FaCat\x1E  \x1Fax\x1Ey\x1E\x1D",
    ),
    // At once: BaseAddress, Coding.
    (
        Rule::BaseAddress,
        0,
        b"00146nam b22x0085 a 4500001000300000008004100003245000800044500000600052005000200058\x1Eid\x1E240101s1999    xx                  eng d\x1E00\x1FaCat\x1E  \x1Fax\x1Ey\x1E\x1D",
    ),
    // At once: BaseAddress, ControlShape.
    (
        Rule::BaseAddress,
        0,
        b"00147nam a22x0085 a 4500001000300000008004100003245000800044500000600052005000300058\x1Eid\x1E240101s1999    xx                  eng d\x1E00\x1FaCat\x1E  \x1Fax\x1Ey\x1F\x1E\x1D",
    ),
    // At once: BaseAddress, Tiling.
    (
        Rule::BaseAddress,
        0,
        b"00146nam a22x0085 a 4500001000300000008004100003245999900044500000600052005000200058\x1Eid\x1E240101s1999    xx                  eng d\x1E00\x1FaCat\x1E  \x1Fax\x1Ey\x1E\x1D",
    ),
    // At once: BaseAddress, Status, NotUtf8.
    (
        Rule::BaseAddress,
        0,
        b"00146xam a22x0085 a 4500001000300000008004100003245000800044500000600052005000200058\x1Eid\x1E240101s1999    xx                  eng d\x1E00\x1FaCat\x1E  \x1Fa\xE9\x1Ey\x1E\x1D",
    ),
    // At once: BaseAddress, ControlNumber, Title245.
    (
        Rule::BaseAddress,
        0,
        b"00229nam a22x0097 a 4500001006600000008004100066245000800107500000600115005000200121245000800123\x1Exxxxxxxxxxxxxxxxxxxxxxxxxxxxxxxxxxxxxxxxxxxxxxxxxxxxxxxxxxxxxxxxx\x1E240101s1999    xx                  eng d\x1E00\x1FaCat\x1E  \x1Fax\x1Ey\x1E00\x1FaDog\x1E\x1D",
    ),
    // At once: BaseAddress, Coding, Title245.
    (
        Rule::BaseAddress,
        0,
        b"00166nam b22x0097 a 4500001000300000008004100003245000800044500000600052005000200058245000800060\x1Eid\x1E240101s1999    xx                  eng d\x1E00\x1FaCat\x1E  \x1Fax\x1Ey\x1E00\x1FaDog\x1E\x1D",
    ),
    // At once: BaseAddress, Tiling, ControlNumber.
    (
        Rule::BaseAddress,
        0,
        b"00209nam a22x0085 a 4500001006600000008004100066245999900107500000600115005000200121\x1Exxxxxxxxxxxxxxxxxxxxxxxxxxxxxxxxxxxxxxxxxxxxxxxxxxxxxxxxxxxxxxxxx\x1E240101s1999    xx                  eng d\x1E00\x1FaCat\x1E  \x1Fax\x1Ey\x1E\x1D",
    ),
    // At once: BaseAddress, Coding, DataShape, ControlNumber, Fixed008, Title245.
    (
        Rule::BaseAddress,
        0,
        b"00208nam b22x0109 a 4500001006600000008000600066245000800072500000600080005000200086700000200088245000800090\x1Exxxxxxxxxxxxxxxxxxxxxxxxxxxxxxxxxxxxxxxxxxxxxxxxxxxxxxxxxxxxxxxxx\x1Eshort\x1E00\x1FaCat\x1E  \x1Fax\x1Ey\x1Ex\x1E00\x1FaDog\x1E\x1D",
    ),
    // The base address is in the leader.
    (Rule::BaseAddress, 0, b"00026nam a2200024 a 4500\x1E\x1D"),
    // Leader byte 10 is '1'.
    (
        Rule::LeaderCounts,
        10,
        b"00114nam a1200061 a 4500001000300000008004100003245000800044\x1Eid\x1E240101s1999    xx                  eng d\x1E00\x1FaCat\x1E\x1D",
    ),
    // Leader byte 10 is ' '.
    (
        Rule::LeaderCounts,
        10,
        b"00114nam a 200061 a 4500001000300000008004100003245000800044\x1Eid\x1E240101s1999    xx                  eng d\x1E00\x1FaCat\x1E\x1D",
    ),
    // Leader byte 11 is '3'.
    (
        Rule::LeaderCounts,
        11,
        b"00114nam a2300061 a 4500001000300000008004100003245000800044\x1Eid\x1E240101s1999    xx                  eng d\x1E00\x1FaCat\x1E\x1D",
    ),
    // Leader byte 20 is '5'.
    (
        Rule::LeaderCounts,
        20,
        b"00114nam a2200061 a 5500001000300000008004100003245000800044\x1Eid\x1E240101s1999    xx                  eng d\x1E00\x1FaCat\x1E\x1D",
    ),
    // Leader byte 21 is '4'.
    (
        Rule::LeaderCounts,
        21,
        b"00114nam a2200061 a 4400001000300000008004100003245000800044\x1Eid\x1E240101s1999    xx                  eng d\x1E00\x1FaCat\x1E\x1D",
    ),
    // Leader byte 22 is '1'.
    (
        Rule::LeaderCounts,
        22,
        b"00114nam a2200061 a 4510001000300000008004100003245000800044\x1Eid\x1E240101s1999    xx                  eng d\x1E00\x1FaCat\x1E\x1D",
    ),
    // Leader byte 22 is ' '.
    (
        Rule::LeaderCounts,
        22,
        b"00114nam a2200061 a 45 0001000300000008004100003245000800044\x1Eid\x1E240101s1999    xx                  eng d\x1E00\x1FaCat\x1E\x1D",
    ),
    // Leader byte 5 is 0x1f.
    (
        Rule::LeaderCounts,
        5,
        b"00114\x1Fam a2200061 a 4500001000300000008004100003245000800044\x1Eid\x1E240101s1999    xx                  eng d\x1E00\x1FaCat\x1E\x1D",
    ),
    // Leader byte 6 is 0x1e.
    (
        Rule::LeaderCounts,
        6,
        b"00114n\x1Em a2200061 a 4500001000300000008004100003245000800044\x1Eid\x1E240101s1999    xx                  eng d\x1E00\x1FaCat\x1E\x1D",
    ),
    // Leader byte 7 is 0x7f.
    (
        Rule::LeaderCounts,
        7,
        b"00114na\x7F a2200061 a 4500001000300000008004100003245000800044\x1Eid\x1E240101s1999    xx                  eng d\x1E00\x1FaCat\x1E\x1D",
    ),
    // Leader byte 8 is 0x80.
    (
        Rule::LeaderCounts,
        8,
        b"00114nam\x80a2200061 a 4500001000300000008004100003245000800044\x1Eid\x1E240101s1999    xx                  eng d\x1E00\x1FaCat\x1E\x1D",
    ),
    // Leader byte 9 is 0xff.
    (
        Rule::LeaderCounts,
        9,
        b"00114nam \xFF2200061 a 4500001000300000008004100003245000800044\x1Eid\x1E240101s1999    xx                  eng d\x1E00\x1FaCat\x1E\x1D",
    ),
    // Leader byte 17 is 0x00.
    (
        Rule::LeaderCounts,
        17,
        b"00114nam a2200061\x00a 4500001000300000008004100003245000800044\x1Eid\x1E240101s1999    xx                  eng d\x1E00\x1FaCat\x1E\x1D",
    ),
    // Leader byte 18 is 0x0a.
    (
        Rule::LeaderCounts,
        18,
        b"00114nam a2200061 \x0A 4500001000300000008004100003245000800044\x1Eid\x1E240101s1999    xx                  eng d\x1E00\x1FaCat\x1E\x1D",
    ),
    // Leader byte 19 is 0x7f.
    (
        Rule::LeaderCounts,
        19,
        b"00114nam a2200061 a\x7F4500001000300000008004100003245000800044\x1Eid\x1E240101s1999    xx                  eng d\x1E00\x1FaCat\x1E\x1D",
    ),
    // Leader byte 23 is 0x80.
    (
        Rule::LeaderCounts,
        23,
        b"00114nam a2200061 a 450\x80001000300000008004100003245000800044\x1Eid\x1E240101s1999    xx                  eng d\x1E00\x1FaCat\x1E\x1D",
    ),
    // Leader bytes 6 and 23 wrong: the least.
    (
        Rule::LeaderCounts,
        6,
        b"00114n\x1Fm a2200061 a 450\x7F001000300000008004100003245000800044\x1Eid\x1E240101s1999    xx                  eng d\x1E00\x1FaCat\x1E\x1D",
    ),
    // At once: LeaderCounts, EntryDigits.
    (
        Rule::LeaderCounts,
        10,
        b"00146nam a9200085 a 450000100030000000800a100003245000800044500000600052005000200058\x1Eid\x1E240101s1999    xx                  eng d\x1E00\x1FaCat\x1E  \x1Fax\x1Ey\x1E\x1D",
    ),
    // At once: LeaderCounts, Tag.
    (
        Rule::LeaderCounts,
        10,
        b"00146nam a9200085 a 45000010003000000080041000032!5000800044500000600052005000200058\x1Eid\x1E240101s1999    xx                  eng d\x1E00\x1FaCat\x1E  \x1Fax\x1Ey\x1E\x1D",
    ),
    // At once: LeaderCounts, Repeated.
    (
        Rule::LeaderCounts,
        10,
        b"00160nam a9200097 a 4500001000300000008004100003245000800044500000600052005000200058005000200060\x1Eid\x1E240101s1999    xx                  eng d\x1E00\x1FaCat\x1E  \x1Fax\x1Ey\x1Ez\x1E\x1D",
    ),
    // At once: LeaderCounts, DataShape.
    (
        Rule::LeaderCounts,
        10,
        b"00160nam a9200097 a 4500001000300000008004100003245000800044500000600052005000200058700000200060\x1Eid\x1E240101s1999    xx                  eng d\x1E00\x1FaCat\x1E  \x1Fax\x1Ey\x1Ex\x1E\x1D",
    ),
    // At once: LeaderCounts, ControlNumber.
    (
        Rule::LeaderCounts,
        10,
        b"00209nam a9200085 a 4500001006600000008004100066245000800107500000600115005000200121\x1Exxxxxxxxxxxxxxxxxxxxxxxxxxxxxxxxxxxxxxxxxxxxxxxxxxxxxxxxxxxxxxxxx\x1E240101s1999    xx                  eng d\x1E00\x1FaCat\x1E  \x1Fax\x1Ey\x1E\x1D",
    ),
    // At once: LeaderCounts, Status.
    (
        Rule::LeaderCounts,
        10,
        b"00146xam a9200085 a 4500001000300000008004100003245000800044500000600052005000200058\x1Eid\x1E240101s1999    xx                  eng d\x1E00\x1FaCat\x1E  \x1Fax\x1Ey\x1E\x1D",
    ),
    // At once: LeaderCounts, Coding, DataShape, Title245.
    (
        Rule::LeaderCounts,
        10,
        b"00180nam b9200109 a 4500001000300000008004100003245000800044500000600052005000200058700000200060245000800062\x1Eid\x1E240101s1999    xx                  eng d\x1E00\x1FaCat\x1E  \x1Fax\x1Ey\x1Ex\x1E00\x1FaDog\x1E\x1D",
    ),
    // At once: LeaderCounts, DataShape, Fixed008.
    (
        Rule::LeaderCounts,
        10,
        b"00125nam a9200097 a 4500001000300000008000600003245000800009500000600017005000200023700000200025\x1Eid\x1Eshort\x1E00\x1FaCat\x1E  \x1Fax\x1Ey\x1Ex\x1E\x1D",
    ),
    // At once: LeaderCounts, ControlNumber, Fixed008.
    (
        Rule::LeaderCounts,
        10,
        b"00174nam a9200085 a 4500001006600000008000600066245000800072500000600080005000200086\x1Exxxxxxxxxxxxxxxxxxxxxxxxxxxxxxxxxxxxxxxxxxxxxxxxxxxxxxxxxxxxxxxxx\x1Eshort\x1E00\x1FaCat\x1E  \x1Fax\x1Ey\x1E\x1D",
    ),
];

static DIRECTORIES: [Refused; 95] = [
    // Letter in the first length.
    (
        Rule::EntryDigits,
        1,
        b"00114nam a2200061 a 450000100a300000008004100003245000800044\x1Eid\x1E240101s1999    xx                  eng d\x1E00\x1FaCat\x1E\x1D",
    ),
    // Blank in the last length.
    (
        Rule::EntryDigits,
        3,
        b"00114nam a2200061 a 4500001000300000008004100003245 00800044\x1Eid\x1E240101s1999    xx                  eng d\x1E00\x1FaCat\x1E\x1D",
    ),
    // Letter in the second start.
    (
        Rule::EntryDigits,
        2,
        b"00114nam a2200061 a 450000100030000000800410000x245000800044\x1Eid\x1E240101s1999    xx                  eng d\x1E00\x1FaCat\x1E\x1D",
    ),
    // 0xFF in the last start.
    (
        Rule::EntryDigits,
        3,
        b"00114nam a2200061 a 45000010003000000080041000032450008\xFF0044\x1Eid\x1E240101s1999    xx                  eng d\x1E00\x1FaCat\x1E\x1D",
    ),
    // Minus in the first start.
    (
        Rule::EntryDigits,
        1,
        b"00114nam a2200061 a 45000010003-0000008004100003245000800044\x1Eid\x1E240101s1999    xx                  eng d\x1E00\x1FaCat\x1E\x1D",
    ),
    // Field terminator in a length.
    (
        Rule::EntryDigits,
        2,
        b"00114nam a2200061 a 4500001000300000008004\x1E00003245000800044\x1Eid\x1E240101s1999    xx                  eng d\x1E00\x1FaCat\x1E\x1D",
    ),
    // Entries 2 and 3: the least.
    (
        Rule::EntryDigits,
        2,
        b"00114nam a2200061 a 450000100030000000800410000y245x00800044\x1Eid\x1E240101s1999    xx                  eng d\x1E00\x1FaCat\x1E\x1D",
    ),
    // At once: EntryDigits, Tag.
    (
        Rule::EntryDigits,
        2,
        b"00146nam a2200085 a 450000100030000000800a1000032!5000800044500000600052005000200058\x1Eid\x1E240101s1999    xx                  eng d\x1E00\x1FaCat\x1E  \x1Fax\x1Ey\x1E\x1D",
    ),
    // At once: EntryDigits, Tiling.
    (
        Rule::EntryDigits,
        2,
        b"00146nam a2200085 a 450000100030000000800a100003245999900044500000600052005000200058\x1Eid\x1E240101s1999    xx                  eng d\x1E00\x1FaCat\x1E  \x1Fax\x1Ey\x1E\x1D",
    ),
    // At once: EntryDigits, DataShape.
    (
        Rule::EntryDigits,
        2,
        b"00160nam a2200097 a 450000100030000000800a100003245000800044500000600052005000200058700000200060\x1Eid\x1E240101s1999    xx                  eng d\x1E00\x1FaCat\x1E  \x1Fax\x1Ey\x1Ex\x1E\x1D",
    ),
    // At once: EntryDigits, ControlNumber.
    (
        Rule::EntryDigits,
        2,
        b"00209nam a2200085 a 450000100660000000800a100066245000800107500000600115005000200121\x1Exxxxxxxxxxxxxxxxxxxxxxxxxxxxxxxxxxxxxxxxxxxxxxxxxxxxxxxxxxxxxxxxx\x1E240101s1999    xx                  eng d\x1E00\x1FaCat\x1E  \x1Fax\x1Ey\x1E\x1D",
    ),
    // At once: EntryDigits, Fixed008.
    (
        Rule::EntryDigits,
        2,
        b"00111nam a2200085 a 450000100030000000800a100003245000800009500000600017005000200023\x1Eid\x1Eshort\x1E00\x1FaCat\x1E  \x1Fax\x1Ey\x1E\x1D",
    ),
    // At once: EntryDigits, ControlShape, DataShape, Fixed008.
    (
        Rule::EntryDigits,
        2,
        b"00126nam a2200097 a 450000100030000000800a100003245000800009500000600017005000300023700000200026\x1Eid\x1Eshort\x1E00\x1FaCat\x1E  \x1Fax\x1Ey\x1F\x1Ex\x1E\x1D",
    ),
    // At once: EntryDigits, Tag, Tiling, Status, Coding, NotUtf8, ControlShape, DataShape, ControlNumber, Repeated, Fixed008, Title245.
    (
        Rule::EntryDigits,
        2,
        b"00223xam b2200121 a 450000100660000000800a1000662!5999900072500000600080005000300086700000200089005000200091245000800093\x1Exxxxxxxxxxxxxxxxxxxxxxxxxxxxxxxxxxxxxxxxxxxxxxxxxxxxxxxxxxxxxxxxx\x1Eshort\x1E00\x1FaCat\x1E  \x1Fa\xE9\x1Ey\x1F\x1Ex\x1Ez\x1E00\x1FaDog\x1E\x1D",
    ),
    // Tag of entry 1 is 0x302131.
    (
        Rule::Tag,
        1,
        b"00114nam a2200061 a 45000!1000300000008004100003245000800044\x1Eid\x1E240101s1999    xx                  eng d\x1E00\x1FaCat\x1E\x1D",
    ),
    // Tag of entry 2 is 0x203038.
    (
        Rule::Tag,
        2,
        b"00114nam a2200061 a 4500001000300000 08004100003245000800044\x1Eid\x1E240101s1999    xx                  eng d\x1E00\x1FaCat\x1E\x1D",
    ),
    // Tag of entry 3 is 0x323480.
    (
        Rule::Tag,
        3,
        b"00114nam a2200061 a 450000100030000000800410000324\x80000800044\x1Eid\x1E240101s1999    xx                  eng d\x1E00\x1FaCat\x1E\x1D",
    ),
    // Tag of entry 3 is 0x322d35.
    (
        Rule::Tag,
        3,
        b"00114nam a2200061 a 45000010003000000080041000032-5000800044\x1Eid\x1E240101s1999    xx                  eng d\x1E00\x1FaCat\x1E\x1D",
    ),
    // Tag of entry 2 is 0x000000.
    (
        Rule::Tag,
        2,
        b"00114nam a2200061 a 4500001000300000\x00\x00\x00004100003245000800044\x1Eid\x1E240101s1999    xx                  eng d\x1E00\x1FaCat\x1E\x1D",
    ),
    // Tag of entry 1 is 0x3030ff.
    (
        Rule::Tag,
        1,
        b"00114nam a2200061 a 450000\xFF000300000008004100003245000800044\x1Eid\x1E240101s1999    xx                  eng d\x1E00\x1FaCat\x1E\x1D",
    ),
    // Tag of entry 3 is 0x323a35.
    (
        Rule::Tag,
        3,
        b"00114nam a2200061 a 45000010003000000080041000032:5000800044\x1Eid\x1E240101s1999    xx                  eng d\x1E00\x1FaCat\x1E\x1D",
    ),
    // Tag of entry 2 is 0x304038.
    (
        Rule::Tag,
        2,
        b"00114nam a2200061 a 45000010003000000@8004100003245000800044\x1Eid\x1E240101s1999    xx                  eng d\x1E00\x1FaCat\x1E\x1D",
    ),
    // Tags of entries 2 and 3: the least.
    (
        Rule::Tag,
        2,
        b"00114nam a2200061 a 4500001000300000   004100003   000800044\x1Eid\x1E240101s1999    xx                  eng d\x1E00\x1FaCat\x1E\x1D",
    ),
    // At once: Tag, Tiling.
    (
        Rule::Tag,
        3,
        b"00146nam a2200085 a 45000010003000000080041000032!5999900044500000600052005000200058\x1Eid\x1E240101s1999    xx                  eng d\x1E00\x1FaCat\x1E  \x1Fax\x1Ey\x1E\x1D",
    ),
    // At once: Tag, Status.
    (
        Rule::Tag,
        3,
        b"00146xam a2200085 a 45000010003000000080041000032!5000800044500000600052005000200058\x1Eid\x1E240101s1999    xx                  eng d\x1E00\x1FaCat\x1E  \x1Fax\x1Ey\x1E\x1D",
    ),
    // At once: Tag, ControlShape.
    (
        Rule::Tag,
        3,
        b"00147nam a2200085 a 45000010003000000080041000032!5000800044500000600052005000300058\x1Eid\x1E240101s1999    xx                  eng d\x1E00\x1FaCat\x1E  \x1Fax\x1Ey\x1F\x1E\x1D",
    ),
    // Base is the length less 1, so the data are empty.
    (
        Rule::Tiling,
        1,
        b"00038nam a2200037 a 4500001000100000\x1E\x1D",
    ),
    // Empty data, empty range.
    (
        Rule::Tiling,
        1,
        b"00038nam a2200037 a 4500001000000000\x1E\x1D",
    ),
    // Entry 2: entry begins one byte too early and has the terminator before it inside.
    (
        Rule::Tiling,
        2,
        b"00114nam a2200061 a 4500001000300000008004100002245000800044\x1Eid\x1E240101s1999    xx                  eng d\x1E00\x1FaCat\x1E\x1D",
    ),
    // Entry 2: entries 1 and 2 overlap by one byte.
    (
        Rule::Tiling,
        2,
        b"00114nam a2200061 a 4500001000300000008004200002245000800044\x1Eid\x1E240101s1999    xx                  eng d\x1E00\x1FaCat\x1E\x1D",
    ),
    // Entry 3: entries 2 and 3 overlap by one byte.
    (
        Rule::Tiling,
        3,
        b"00114nam a2200061 a 4500001000300000008004100003245000900043\x1Eid\x1E240101s1999    xx                  eng d\x1E00\x1FaCat\x1E\x1D",
    ),
    // Entry 2: range ends one byte before its terminator.
    (
        Rule::Tiling,
        2,
        b"00114nam a2200061 a 4500001000300000008004000003245000800044\x1Eid\x1E240101s1999    xx                  eng d\x1E00\x1FaCat\x1E\x1D",
    ),
    // Entry 2: range ends one byte past its terminator.
    (
        Rule::Tiling,
        2,
        b"00114nam a2200061 a 4500001000300000008004200003245000800044\x1Eid\x1E240101s1999    xx                  eng d\x1E00\x1FaCat\x1E\x1D",
    ),
    // Entry 2: empty range.
    (
        Rule::Tiling,
        2,
        b"00114nam a2200061 a 4500001000300000008000000003245000800044\x1Eid\x1E240101s1999    xx                  eng d\x1E00\x1FaCat\x1E\x1D",
    ),
    // Entry 3: empty range at the end of the data.
    (
        Rule::Tiling,
        3,
        b"00114nam a2200061 a 4500001000300000008004100003245000000052\x1Eid\x1E240101s1999    xx                  eng d\x1E00\x1FaCat\x1E\x1D",
    ),
    // Entry 3: range one byte past the end of the data.
    (
        Rule::Tiling,
        3,
        b"00114nam a2200061 a 4500001000300000008004100003245000900044\x1Eid\x1E240101s1999    xx                  eng d\x1E00\x1FaCat\x1E\x1D",
    ),
    // Entry 3: range far past the end.
    (
        Rule::Tiling,
        3,
        b"00114nam a2200061 a 4500001000300000008004100003245999900044\x1Eid\x1E240101s1999    xx                  eng d\x1E00\x1FaCat\x1E\x1D",
    ),
    // Entry 3: start past the end.
    (
        Rule::Tiling,
        3,
        b"00114nam a2200061 a 4500001000300000008004100003245000899999\x1Eid\x1E240101s1999    xx                  eng d\x1E00\x1FaCat\x1E\x1D",
    ),
    // Entry 3: range is the record terminator.
    (
        Rule::Tiling,
        3,
        b"00114nam a2200061 a 4500001000300000008004100003245000100052\x1Eid\x1E240101s1999    xx                  eng d\x1E00\x1FaCat\x1E\x1D",
    ),
    // Entry 3: gap of one byte before the last field.
    (
        Rule::Tiling,
        4,
        b"00114nam a2200061 a 4500001000300000008004100003245000700045\x1Eid\x1E240101s1999    xx                  eng d\x1E00\x1FaCat\x1E\x1D",
    ),
    // Entry 2: gap of one byte before the second field.
    (
        Rule::Tiling,
        4,
        b"00114nam a2200061 a 4500001000300000008004000004245000800044\x1Eid\x1E240101s1999    xx                  eng d\x1E00\x1FaCat\x1E\x1D",
    ),
    // Entry 1: gap at the beginning of the data.
    (
        Rule::Tiling,
        4,
        b"00114nam a2200061 a 4500001000100002008004100003245000800044\x1Eid\x1E240101s1999    xx                  eng d\x1E00\x1FaCat\x1E\x1D",
    ),
    // Entry 1: two fields in one range.
    (
        Rule::Tiling,
        1,
        b"00114nam a2200061 a 4500001004400000008004100003245000800044\x1Eid\x1E240101s1999    xx                  eng d\x1E00\x1FaCat\x1E\x1D",
    ),
    // Entry 2: the first field's range a second time.
    (
        Rule::Tiling,
        2,
        b"00114nam a2200061 a 4500001000300000008000300000245000800044\x1Eid\x1E240101s1999    xx                  eng d\x1E00\x1FaCat\x1E\x1D",
    ),
    // Entry 3: the terminator of another field.
    (
        Rule::Tiling,
        3,
        b"00114nam a2200061 a 4500001000300000008004100003245000100043\x1Eid\x1E240101s1999    xx                  eng d\x1E00\x1FaCat\x1E\x1D",
    ),
    // Entry 3: the last two fields in one range.
    (
        Rule::Tiling,
        3,
        b"00114nam a2200061 a 4500001000300000008004100003245004900003\x1Eid\x1E240101s1999    xx                  eng d\x1E00\x1FaCat\x1E\x1D",
    ),
    // One byte after the last field.
    (
        Rule::Tiling,
        4,
        b"00115nam a2200061 a 4500001000300000008004100003245000800044\x1Eid\x1E240101s1999    xx                  eng d\x1E00\x1FaCat\x1Ex\x1D",
    ),
    // A lone field terminator after the last field.
    (
        Rule::Tiling,
        4,
        b"00115nam a2200061 a 4500001000300000008004100003245000800044\x1Eid\x1E240101s1999    xx                  eng d\x1E00\x1FaCat\x1E\x1E\x1D",
    ),
    // A field that no entry names.
    (
        Rule::Tiling,
        4,
        b"00117nam a2200061 a 4500001000300000008004100003245000800044\x1Eid\x1E240101s1999    xx                  eng d\x1E00\x1FaCat\x1Exx\x1E\x1D",
    ),
    // Field terminator inside the first field.
    (
        Rule::Tiling,
        1,
        b"00115nam a2200061 a 4500001000400000008004100004245000800045\x1Ei\x1Ed\x1E240101s1999    xx                  eng d\x1E00\x1FaCat\x1E\x1D",
    ),
    // Field terminator inside the last field.
    (
        Rule::Tiling,
        3,
        b"00115nam a2200061 a 4500001000300000008004100003245000900044\x1Eid\x1E240101s1999    xx                  eng d\x1E00\x1E\x1FaCat\x1E\x1D",
    ),
    // Entry 1 of a record whose fields stand the other way round.
    (
        Rule::Tiling,
        1,
        b"00114nam a2200061 a 4500245000700000008004100008001000300049\x1E00\x1FaCat\x1E240101s1999    xx                  eng d\x1Eid\x1E\x1D",
    ),
    // Two entries of the same range, the second field named by none.
    (
        Rule::Tiling,
        2,
        b"00056dam a2200049 a 4500001000300000001000300000\x1Eid\x1Eid\x1E\x1D",
    ),
    // At once: Tiling, Status.
    (
        Rule::Tiling,
        3,
        b"00146xam a2200085 a 4500001000300000008004100003245999900044500000600052005000200058\x1Eid\x1E240101s1999    xx                  eng d\x1E00\x1FaCat\x1E  \x1Fax\x1Ey\x1E\x1D",
    ),
    // At once: Tiling, Coding.
    (
        Rule::Tiling,
        3,
        b"00146nam b2200085 a 4500001000300000008004100003245999900044500000600052005000200058\x1Eid\x1E240101s1999    xx                  eng d\x1E00\x1FaCat\x1E  \x1Fax\x1Ey\x1E\x1D",
    ),
    // At once: Tiling, Repeated.
    (
        Rule::Tiling,
        3,
        b"00160nam a2200097 a 4500001000300000008004100003245999900044500000600052005000200058005000200060\x1Eid\x1E240101s1999    xx                  eng d\x1E00\x1FaCat\x1E  \x1Fax\x1Ey\x1Ez\x1E\x1D",
    ),
    // At once: Tiling, NotUtf8.
    (
        Rule::Tiling,
        3,
        b"00146nam a2200085 a 4500001000300000008004100003245999900044500000600052005000200058\x1Eid\x1E240101s1999    xx                  eng d\x1E00\x1FaCat\x1E  \x1Fa\xE9\x1Ey\x1E\x1D",
    ),
    // At once: Tiling, ControlNumber, Fixed008.
    (
        Rule::Tiling,
        3,
        b"00174nam a2200085 a 4500001006600000008000600066245999900072500000600080005000200086\x1Exxxxxxxxxxxxxxxxxxxxxxxxxxxxxxxxxxxxxxxxxxxxxxxxxxxxxxxxxxxxxxxxx\x1Eshort\x1E00\x1FaCat\x1E  \x1Fax\x1Ey\x1E\x1D",
    ),
    // Data that no entry has.
    (
        Rule::Tiling,
        3,
        b"00102nam a2200049 a 4500001000300000008004100003\x1Eid\x1E240101s1999    xx                  eng d\x1E00\x1FaCat\x1E\x1D",
    ),
    // An empty range.
    (
        Rule::Tiling,
        3,
        b"00114nam a2200061 a 4500001000300000008004100003245000000044\x1Eid\x1E240101s1999    xx                  eng d\x1E00\x1FaCat\x1E\x1D",
    ),
    // 0x1F in 001.
    (
        Rule::ControlShape,
        1,
        b"00115nam a2200061 a 4500001000400000008004100004245000800045\x1Ei\x1Fd\x1E240101s1999    xx                  eng d\x1E00\x1FaCat\x1E\x1D",
    ),
    // 0x1F in 001.
    (
        Rule::ControlShape,
        1,
        b"00113nam a2200061 a 4500001000200000008004100002245000800043\x1E\x1F\x1E240101s1999    xx                  eng d\x1E00\x1FaCat\x1E\x1D",
    ),
    // 0x1F in 008.
    (
        Rule::ControlShape,
        2,
        b"00114nam a2200061 a 4500001000300000008004100003245000800044\x1Eid\x1Exxxxxxxxxxxxxxxxxxxxxxxxxxxxxxxxxxxxxxx\x1F\x1E00\x1FaCat\x1E\x1D",
    ),
    // 0x1F in 005.
    (
        Rule::ControlShape,
        4,
        b"00133nam a2200073 a 4500001000300000008004100003245000800044005000700052\x1Eid\x1E240101s1999    xx                  eng d\x1E00\x1FaCat\x1E\x1Fa2020\x1E\x1D",
    ),
    // 0x1F in 00X.
    (
        Rule::ControlShape,
        4,
        b"00129nam a2200073 a 450000100030000000800410000324500080004400X000300052\x1Eid\x1E240101s1999    xx                  eng d\x1E00\x1FaCat\x1Ex\x1F\x1E\x1D",
    ),
    // 0x1F in 007.
    (
        Rule::ControlShape,
        4,
        b"00130nam a2200073 a 4500001000300000008004100003245000800044007000400052\x1Eid\x1E240101s1999    xx                  eng d\x1E00\x1FaCat\x1E\x1F\x1F\x1F\x1E\x1D",
    ),
    // 0x1F in 00z.
    (
        Rule::ControlShape,
        4,
        b"00132nam a2200073 a 450000100030000000800410000324500080004400z000600052\x1Eid\x1E240101s1999    xx                  eng d\x1E00\x1FaCat\x1E  \x1Fax\x1E\x1D",
    ),
    // At once: ControlShape, DataShape.
    (
        Rule::ControlShape,
        5,
        b"00161nam a2200097 a 4500001000300000008004100003245000800044500000600052005000300058700000200061\x1Eid\x1E240101s1999    xx                  eng d\x1E00\x1FaCat\x1E  \x1Fax\x1Ey\x1F\x1Ex\x1E\x1D",
    ),
    // At once: ControlShape, ControlNumber.
    (
        Rule::ControlShape,
        5,
        b"00210nam a2200085 a 4500001006600000008004100066245000800107500000600115005000300121\x1Exxxxxxxxxxxxxxxxxxxxxxxxxxxxxxxxxxxxxxxxxxxxxxxxxxxxxxxxxxxxxxxxx\x1E240101s1999    xx                  eng d\x1E00\x1FaCat\x1E  \x1Fax\x1Ey\x1F\x1E\x1D",
    ),
    // At once: ControlShape, Fixed008.
    (
        Rule::ControlShape,
        5,
        b"00112nam a2200085 a 4500001000300000008000600003245000800009500000600017005000300023\x1Eid\x1Eshort\x1E00\x1FaCat\x1E  \x1Fax\x1Ey\x1F\x1E\x1D",
    ),
    // At once: ControlShape, Title245.
    (
        Rule::ControlShape,
        5,
        b"00167nam a2200097 a 4500001000300000008004100003245000800044500000600052005000300058245000800061\x1Eid\x1E240101s1999    xx                  eng d\x1E00\x1FaCat\x1E  \x1Fax\x1Ey\x1F\x1E00\x1FaDog\x1E\x1D",
    ),
    // A two-byte character in place of the indicators.
    (
        Rule::DataShape,
        4,
        b"00132nam a2200073 a 4500001000300000008004100003245000800044500000600052\x1Eid\x1E240101s1999    xx                  eng d\x1E00\x1FaCat\x1E\xC3\xA9\x1Fax\x1E\x1D",
    ),
    // 500: empty.
    (
        Rule::DataShape,
        4,
        b"00127nam a2200073 a 4500001000300000008004100003245000800044500000100052\x1Eid\x1E240101s1999    xx                  eng d\x1E00\x1FaCat\x1E\x1E\x1D",
    ),
    // 500: one byte.
    (
        Rule::DataShape,
        4,
        b"00128nam a2200073 a 4500001000300000008004100003245000800044500000200052\x1Eid\x1E240101s1999    xx                  eng d\x1E00\x1FaCat\x1E \x1E\x1D",
    ),
    // 500: two bytes.
    (
        Rule::DataShape,
        4,
        b"00129nam a2200073 a 4500001000300000008004100003245000800044500000300052\x1Eid\x1E240101s1999    xx                  eng d\x1E00\x1FaCat\x1E  \x1E\x1D",
    ),
    // 500: three blanks.
    (
        Rule::DataShape,
        4,
        b"00130nam a2200073 a 4500001000300000008004100003245000800044500000400052\x1Eid\x1E240101s1999    xx                  eng d\x1E00\x1FaCat\x1E   \x1E\x1D",
    ),
    // 500: only 0x1F.
    (
        Rule::DataShape,
        4,
        b"00128nam a2200073 a 4500001000300000008004100003245000800044500000200052\x1Eid\x1E240101s1999    xx                  eng d\x1E00\x1FaCat\x1E\x1F\x1E\x1D",
    ),
    // 500: third byte is no 0x1F.
    (
        Rule::DataShape,
        4,
        b"00131nam a2200073 a 4500001000300000008004100003245000800044500000500052\x1Eid\x1E240101s1999    xx                  eng d\x1E00\x1FaCat\x1E  ax\x1E\x1D",
    ),
    // 500: 0x1F with nothing after it.
    (
        Rule::DataShape,
        4,
        b"00130nam a2200073 a 4500001000300000008004100003245000800044500000400052\x1Eid\x1E240101s1999    xx                  eng d\x1E00\x1FaCat\x1E  \x1F\x1E\x1D",
    ),
    // 500: code is a blank.
    (
        Rule::DataShape,
        4,
        b"00132nam a2200073 a 4500001000300000008004100003245000800044500000600052\x1Eid\x1E240101s1999    xx                  eng d\x1E00\x1FaCat\x1E  \x1F x\x1E\x1D",
    ),
    // 500: last 0x1F with nothing after it.
    (
        Rule::DataShape,
        4,
        b"00133nam a2200073 a 4500001000300000008004100003245000800044500000700052\x1Eid\x1E240101s1999    xx                  eng d\x1E00\x1FaCat\x1E  \x1Fax\x1F\x1E\x1D",
    ),
    // 500: two 0x1F together.
    (
        Rule::DataShape,
        4,
        b"00133nam a2200073 a 4500001000300000008004100003245000800044500000700052\x1Eid\x1E240101s1999    xx                  eng d\x1E00\x1FaCat\x1E  \x1F\x1Fax\x1E\x1D",
    ),
    // 500: 0x1F as first indicator.
    (
        Rule::DataShape,
        4,
        b"00132nam a2200073 a 4500001000300000008004100003245000800044500000600052\x1Eid\x1E240101s1999    xx                  eng d\x1E00\x1FaCat\x1E\x1F \x1Fax\x1E\x1D",
    ),
    // 500: 0x7F as second indicator.
    (
        Rule::DataShape,
        4,
        b"00132nam a2200073 a 4500001000300000008004100003245000800044500000600052\x1Eid\x1E240101s1999    xx                  eng d\x1E00\x1FaCat\x1E \x7F\x1Fax\x1E\x1D",
    ),
    // 500: tab as first indicator.
    (
        Rule::DataShape,
        4,
        b"00132nam a2200073 a 4500001000300000008004100003245000800044500000600052\x1Eid\x1E240101s1999    xx                  eng d\x1E00\x1FaCat\x1E\x09 \x1Fax\x1E\x1D",
    ),
    // 500: code is 0x7F.
    (
        Rule::DataShape,
        4,
        b"00132nam a2200073 a 4500001000300000008004100003245000800044500000600052\x1Eid\x1E240101s1999    xx                  eng d\x1E00\x1FaCat\x1E  \x1F\x7Fx\x1E\x1D",
    ),
    // 500: code is a two-byte character.
    (
        Rule::DataShape,
        4,
        b"00133nam a2200073 a 4500001000300000008004100003245000800044500000700052\x1Eid\x1E240101s1999    xx                  eng d\x1E00\x1FaCat\x1E  \x1F\xC3\xA9x\x1E\x1D",
    ),
    // 500: only one indicator.
    (
        Rule::DataShape,
        4,
        b"00131nam a2200073 a 4500001000300000008004100003245000800044500000500052\x1Eid\x1E240101s1999    xx                  eng d\x1E00\x1FaCat\x1E0\x1Fax\x1E\x1D",
    ),
    // 500: no indicators.
    (
        Rule::DataShape,
        4,
        b"00130nam a2200073 a 4500001000300000008004100003245000800044500000400052\x1Eid\x1E240101s1999    xx                  eng d\x1E00\x1FaCat\x1E\x1Fax\x1E\x1D",
    ),
    // 500: second code is a blank.
    (
        Rule::DataShape,
        4,
        b"00135nam a2200073 a 4500001000300000008004100003245000800044500000900052\x1Eid\x1E240101s1999    xx                  eng d\x1E00\x1FaCat\x1E  \x1Fax\x1F y\x1E\x1D",
    ),
    // 245 without a subfield.
    (
        Rule::DataShape,
        3,
        b"00112nam a2200061 a 4500001000300000008004100003245000600044\x1Eid\x1E240101s1999    xx                  eng d\x1E00Cat\x1E\x1D",
    ),
    // An empty data field in entry 1.
    (
        Rule::DataShape,
        1,
        b"00127nam a2200073 a 4500500000100000001000300001008004100004245000800045\x1E\x1Eid\x1E240101s1999    xx                  eng d\x1E00\x1FaCat\x1E\x1D",
    ),
    // Status d, a data field out of shape.
    (
        Rule::DataShape,
        2,
        b"00057dam a2200049 a 4500001000300000245000400003\x1Eid\x1Ebad\x1E\x1D",
    ),
    // At once: DataShape, ControlNumber.
    (
        Rule::DataShape,
        6,
        b"00223nam a2200097 a 4500001006600000008004100066245000800107500000600115005000200121700000200123\x1Exxxxxxxxxxxxxxxxxxxxxxxxxxxxxxxxxxxxxxxxxxxxxxxxxxxxxxxxxxxxxxxxx\x1E240101s1999    xx                  eng d\x1E00\x1FaCat\x1E  \x1Fax\x1Ey\x1Ex\x1E\x1D",
    ),
    // At once: DataShape, Repeated.
    (
        Rule::DataShape,
        6,
        b"00174nam a2200109 a 4500001000300000008004100003245000800044500000600052005000200058700000200060005000200062\x1Eid\x1E240101s1999    xx                  eng d\x1E00\x1FaCat\x1E  \x1Fax\x1Ey\x1Ex\x1Ez\x1E\x1D",
    ),
];

static CONTENT: [Refused; 109] = [
    // Status 'b'.
    (
        Rule::Status,
        0,
        b"00114bam a2200061 a 4500001000300000008004100003245000800044\x1Eid\x1E240101s1999    xx                  eng d\x1E00\x1FaCat\x1E\x1D",
    ),
    // Status 'x'.
    (
        Rule::Status,
        0,
        b"00114xam a2200061 a 4500001000300000008004100003245000800044\x1Eid\x1E240101s1999    xx                  eng d\x1E00\x1FaCat\x1E\x1D",
    ),
    // Status 's'.
    (
        Rule::Status,
        0,
        b"00114sam a2200061 a 4500001000300000008004100003245000800044\x1Eid\x1E240101s1999    xx                  eng d\x1E00\x1FaCat\x1E\x1D",
    ),
    // Status ' '.
    (
        Rule::Status,
        0,
        b"00114 am a2200061 a 4500001000300000008004100003245000800044\x1Eid\x1E240101s1999    xx                  eng d\x1E00\x1FaCat\x1E\x1D",
    ),
    // Status 'D'.
    (
        Rule::Status,
        0,
        b"00114Dam a2200061 a 4500001000300000008004100003245000800044\x1Eid\x1E240101s1999    xx                  eng d\x1E00\x1FaCat\x1E\x1D",
    ),
    // Status '0'.
    (
        Rule::Status,
        0,
        b"001140am a2200061 a 4500001000300000008004100003245000800044\x1Eid\x1E240101s1999    xx                  eng d\x1E00\x1FaCat\x1E\x1D",
    ),
    // Status '-'.
    (
        Rule::Status,
        0,
        b"00114-am a2200061 a 4500001000300000008004100003245000800044\x1Eid\x1E240101s1999    xx                  eng d\x1E00\x1FaCat\x1E\x1D",
    ),
    // Status '~'.
    (
        Rule::Status,
        0,
        b"00114~am a2200061 a 4500001000300000008004100003245000800044\x1Eid\x1E240101s1999    xx                  eng d\x1E00\x1FaCat\x1E\x1D",
    ),
    // At once: Status, Coding.
    (
        Rule::Status,
        0,
        b"00146xam b2200085 a 4500001000300000008004100003245000800044500000600052005000200058\x1Eid\x1E240101s1999    xx                  eng d\x1E00\x1FaCat\x1E  \x1Fax\x1Ey\x1E\x1D",
    ),
    // At once: Status, NotUtf8.
    (
        Rule::Status,
        0,
        b"00146xam a2200085 a 4500001000300000008004100003245000800044500000600052005000200058\x1Eid\x1E240101s1999    xx                  eng d\x1E00\x1FaCat\x1E  \x1Fa\xE9\x1Ey\x1E\x1D",
    ),
    // At once: Status, Title245.
    (
        Rule::Status,
        0,
        b"00166xam a2200097 a 4500001000300000008004100003245000800044500000600052005000200058245000800060\x1Eid\x1E240101s1999    xx                  eng d\x1E00\x1FaCat\x1E  \x1Fax\x1Ey\x1E00\x1FaDog\x1E\x1D",
    ),
    // Coding 'b'.
    (
        Rule::Coding,
        0,
        b"00114nam b2200061 a 4500001000300000008004100003245000800044\x1Eid\x1E240101s1999    xx                  eng d\x1E00\x1FaCat\x1E\x1D",
    ),
    // Coding '#'.
    (
        Rule::Coding,
        0,
        b"00114nam #2200061 a 4500001000300000008004100003245000800044\x1Eid\x1E240101s1999    xx                  eng d\x1E00\x1FaCat\x1E\x1D",
    ),
    // Coding 'A'.
    (
        Rule::Coding,
        0,
        b"00114nam A2200061 a 4500001000300000008004100003245000800044\x1Eid\x1E240101s1999    xx                  eng d\x1E00\x1FaCat\x1E\x1D",
    ),
    // Coding '0'.
    (
        Rule::Coding,
        0,
        b"00114nam 02200061 a 4500001000300000008004100003245000800044\x1Eid\x1E240101s1999    xx                  eng d\x1E00\x1FaCat\x1E\x1D",
    ),
    // Coding '~'.
    (
        Rule::Coding,
        0,
        b"00114nam ~2200061 a 4500001000300000008004100003245000800044\x1Eid\x1E240101s1999    xx                  eng d\x1E00\x1FaCat\x1E\x1D",
    ),
    // Coding blank, 0x80 in the title.
    (
        Rule::Coding,
        3,
        b"00114nam  2200061 a 4500001000300000008004100003245000800044\x1Eid\x1E240101s1999    xx                  eng d\x1E00\x1FaC\x80t\x1E\x1D",
    ),
    // Coding blank, 0xE9 in the title.
    (
        Rule::Coding,
        3,
        b"00114nam  2200061 a 4500001000300000008004100003245000800044\x1Eid\x1E240101s1999    xx                  eng d\x1E00\x1FaC\xE9t\x1E\x1D",
    ),
    // Coding blank, UTF-8 in the title.
    (
        Rule::Coding,
        3,
        b"00119nam  2200061 a 4500001000300000008004100003245001300044\x1Eid\x1E240101s1999    xx                  eng d\x1E00\x1FaDvo\xC5\x99\xC3\xA1k\x1E\x1D",
    ),
    // Coding blank, escape byte in the title.
    (
        Rule::Coding,
        3,
        b"00115nam  2200061 a 4500001000300000008004100003245000900044\x1Eid\x1E240101s1999    xx                  eng d\x1E00\x1Fa\x1B(2x\x1E\x1D",
    ),
    // Coding blank, 0xFF as last byte.
    (
        Rule::Coding,
        3,
        b"00115nam  2200061 a 4500001000300000008004100003245000900044\x1Eid\x1E240101s1999    xx                  eng d\x1E00\x1FaCat\xFF\x1E\x1D",
    ),
    // Coding blank, 0x80 in 001.
    (
        Rule::Coding,
        1,
        b"00114nam  2200061 a 4500001000300000008004100003245000800044\x1Ei\x80\x1E240101s1999    xx                  eng d\x1E00\x1FaCat\x1E\x1D",
    ),
    // Coding blank, entries 2 and 3: the least.
    (
        Rule::Coding,
        2,
        b"00112nam  2200061 a 4500001000300000008004100003245000600044\x1Eid\x1E240101s1999    xx                  eng \x1B\x1E00\x1Fa\x80\x1E\x1D",
    ),
    // At once: Coding, NotUtf8.
    (
        Rule::Coding,
        0,
        b"00146nam b2200085 a 4500001000300000008004100003245000800044500000600052005000200058\x1Eid\x1E240101s1999    xx                  eng d\x1E00\x1FaCat\x1E  \x1Fa\xE9\x1Ey\x1E\x1D",
    ),
    // Lone 0xE9 within a text.
    (
        Rule::NotUtf8,
        3,
        b"00114nam a2200061 a 4500001000300000008004100003245000800044\x1Eid\x1E240101s1999    xx                  eng d\x1E00\x1FaC\xE9t\x1E\x1D",
    ),
    // Lone continuation within a text.
    (
        Rule::NotUtf8,
        3,
        b"00114nam a2200061 a 4500001000300000008004100003245000800044\x1Eid\x1E240101s1999    xx                  eng d\x1E00\x1FaC\x80t\x1E\x1D",
    ),
    // Overlong of two bytes, NUL within a text.
    (
        Rule::NotUtf8,
        3,
        b"00115nam a2200061 a 4500001000300000008004100003245000900044\x1Eid\x1E240101s1999    xx                  eng d\x1E00\x1FaC\xC0\x80t\x1E\x1D",
    ),
    // Overlong of two bytes, 0x7F within a text.
    (
        Rule::NotUtf8,
        3,
        b"00115nam a2200061 a 4500001000300000008004100003245000900044\x1Eid\x1E240101s1999    xx                  eng d\x1E00\x1FaC\xC1\xBFt\x1E\x1D",
    ),
    // Overlong of three bytes, least within a text.
    (
        Rule::NotUtf8,
        3,
        b"00116nam a2200061 a 4500001000300000008004100003245001000044\x1Eid\x1E240101s1999    xx                  eng d\x1E00\x1FaC\xE0\x80\x80t\x1E\x1D",
    ),
    // Overlong of three bytes, greatest within a text.
    (
        Rule::NotUtf8,
        3,
        b"00116nam a2200061 a 4500001000300000008004100003245001000044\x1Eid\x1E240101s1999    xx                  eng d\x1E00\x1FaC\xE0\x9F\xBFt\x1E\x1D",
    ),
    // First surrogate within a text.
    (
        Rule::NotUtf8,
        3,
        b"00116nam a2200061 a 4500001000300000008004100003245001000044\x1Eid\x1E240101s1999    xx                  eng d\x1E00\x1FaC\xED\xA0\x80t\x1E\x1D",
    ),
    // Last surrogate within a text.
    (
        Rule::NotUtf8,
        3,
        b"00116nam a2200061 a 4500001000300000008004100003245001000044\x1Eid\x1E240101s1999    xx                  eng d\x1E00\x1FaC\xED\xBF\xBFt\x1E\x1D",
    ),
    // Surrogate pair within a text.
    (
        Rule::NotUtf8,
        3,
        b"00119nam a2200061 a 4500001000300000008004100003245001300044\x1Eid\x1E240101s1999    xx                  eng d\x1E00\x1FaC\xED\xA0\xBD\xED\xB8\x80t\x1E\x1D",
    ),
    // Overlong of four bytes within a text.
    (
        Rule::NotUtf8,
        3,
        b"00117nam a2200061 a 4500001000300000008004100003245001100044\x1Eid\x1E240101s1999    xx                  eng d\x1E00\x1FaC\xF0\x80\x80\x80t\x1E\x1D",
    ),
    // Overlong of four bytes, greatest within a text.
    (
        Rule::NotUtf8,
        3,
        b"00117nam a2200061 a 4500001000300000008004100003245001100044\x1Eid\x1E240101s1999    xx                  eng d\x1E00\x1FaC\xF0\x8F\xBF\xBFt\x1E\x1D",
    ),
    // Past U+10FFFF within a text.
    (
        Rule::NotUtf8,
        3,
        b"00117nam a2200061 a 4500001000300000008004100003245001100044\x1Eid\x1E240101s1999    xx                  eng d\x1E00\x1FaC\xF4\x90\x80\x80t\x1E\x1D",
    ),
    // 0xF5 within a text.
    (
        Rule::NotUtf8,
        3,
        b"00117nam a2200061 a 4500001000300000008004100003245001100044\x1Eid\x1E240101s1999    xx                  eng d\x1E00\x1FaC\xF5\x80\x80\x80t\x1E\x1D",
    ),
    // 0xFE within a text.
    (
        Rule::NotUtf8,
        3,
        b"00114nam a2200061 a 4500001000300000008004100003245000800044\x1Eid\x1E240101s1999    xx                  eng d\x1E00\x1FaC\xFEt\x1E\x1D",
    ),
    // 0xFF within a text.
    (
        Rule::NotUtf8,
        3,
        b"00114nam a2200061 a 4500001000300000008004100003245000800044\x1Eid\x1E240101s1999    xx                  eng d\x1E00\x1FaC\xFFt\x1E\x1D",
    ),
    // Five bytes within a text.
    (
        Rule::NotUtf8,
        3,
        b"00118nam a2200061 a 4500001000300000008004100003245001200044\x1Eid\x1E240101s1999    xx                  eng d\x1E00\x1FaC\xF8\x88\x80\x80\x80t\x1E\x1D",
    ),
    // Lead byte and an ASCII byte within a text.
    (
        Rule::NotUtf8,
        3,
        b"00115nam a2200061 a 4500001000300000008004100003245000900044\x1Eid\x1E240101s1999    xx                  eng d\x1E00\x1FaC\xC3(t\x1E\x1D",
    ),
    // One of two bytes at the end of a field.
    (
        Rule::NotUtf8,
        3,
        b"00115nam a2200061 a 4500001000300000008004100003245000900044\x1Eid\x1E240101s1999    xx                  eng d\x1E00\x1FaCat\xC3\x1E\x1D",
    ),
    // One of two bytes at the end of a subfield.
    (
        Rule::NotUtf8,
        3,
        b"00118nam a2200061 a 4500001000300000008004100003245001200044\x1Eid\x1E240101s1999    xx                  eng d\x1E00\x1FaCat\xC3\x1Fbx\x1E\x1D",
    ),
    // Two of three bytes at the end of a field.
    (
        Rule::NotUtf8,
        3,
        b"00116nam a2200061 a 4500001000300000008004100003245001000044\x1Eid\x1E240101s1999    xx                  eng d\x1E00\x1FaCat\xE2\x82\x1E\x1D",
    ),
    // Two of three bytes at the end of a subfield.
    (
        Rule::NotUtf8,
        3,
        b"00119nam a2200061 a 4500001000300000008004100003245001300044\x1Eid\x1E240101s1999    xx                  eng d\x1E00\x1FaCat\xE2\x82\x1Fbx\x1E\x1D",
    ),
    // One of three bytes at the end of a field.
    (
        Rule::NotUtf8,
        3,
        b"00115nam a2200061 a 4500001000300000008004100003245000900044\x1Eid\x1E240101s1999    xx                  eng d\x1E00\x1FaCat\xE2\x1E\x1D",
    ),
    // One of three bytes at the end of a subfield.
    (
        Rule::NotUtf8,
        3,
        b"00118nam a2200061 a 4500001000300000008004100003245001200044\x1Eid\x1E240101s1999    xx                  eng d\x1E00\x1FaCat\xE2\x1Fbx\x1E\x1D",
    ),
    // Three of four bytes at the end of a field.
    (
        Rule::NotUtf8,
        3,
        b"00117nam a2200061 a 4500001000300000008004100003245001100044\x1Eid\x1E240101s1999    xx                  eng d\x1E00\x1FaCat\xF0\x9F\x98\x1E\x1D",
    ),
    // Three of four bytes at the end of a subfield.
    (
        Rule::NotUtf8,
        3,
        b"00120nam a2200061 a 4500001000300000008004100003245001400044\x1Eid\x1E240101s1999    xx                  eng d\x1E00\x1FaCat\xF0\x9F\x98\x1Fbx\x1E\x1D",
    ),
    // 0xE9 in 001.
    (
        Rule::NotUtf8,
        1,
        b"00113nam a2200061 a 4500001000200000008004100002245000800043\x1E\xE9\x1E240101s1999    xx                  eng d\x1E00\x1FaCat\x1E\x1D",
    ),
    // A character parted by a delimiter.
    (
        Rule::NotUtf8,
        3,
        b"00116nam a2200061 a 4500001000300000008004100003245001000044\x1Eid\x1E240101s1999    xx                  eng d\x1E00\x1FaC\xC3\x1Fb\xA9\x1E\x1D",
    ),
    // At once: NotUtf8, Title245.
    (
        Rule::NotUtf8,
        4,
        b"00166nam a2200097 a 4500001000300000008004100003245000800044500000600052005000200058245000800060\x1Eid\x1E240101s1999    xx                  eng d\x1E00\x1FaCat\x1E  \x1Fa\xE9\x1Ey\x1E00\x1FaDog\x1E\x1D",
    ),
    // At once: NotUtf8, ControlNumber.
    (
        Rule::NotUtf8,
        4,
        b"00209nam a2200085 a 4500001006600000008004100066245000800107500000600115005000200121\x1Exxxxxxxxxxxxxxxxxxxxxxxxxxxxxxxxxxxxxxxxxxxxxxxxxxxxxxxxxxxxxxxxx\x1E240101s1999    xx                  eng d\x1E00\x1FaCat\x1E  \x1Fa\xE9\x1Ey\x1E\x1D",
    ),
    // 26 bytes, the least frame: no field at all.
    (Rule::ControlNumber, 0, b"00026nam a2200025 a 4500\x1E\x1D"),
    // Data order differs, empty 001 in entry 3.
    (
        Rule::ControlNumber,
        3,
        b"00112nam a2200061 a 4500008004100001245000800042001000100000\x1E\x1E240101s1999    xx                  eng d\x1E00\x1FaCat\x1E\x1D",
    ),
    // Control number of 65 bytes.
    (
        Rule::ControlNumber,
        1,
        b"00177nam a2200061 a 4500001006600000008004100066245000800107\x1Exxxxxxxxxxxxxxxxxxxxxxxxxxxxxxxxxxxxxxxxxxxxxxxxxxxxxxxxxxxxxxxxx\x1E240101s1999    xx                  eng d\x1E00\x1FaCat\x1E\x1D",
    ),
    // Control number of 66 bytes.
    (
        Rule::ControlNumber,
        1,
        b"00178nam a2200061 a 4500001006700000008004100067245000800108\x1Exxxxxxxxxxxxxxxxxxxxxxxxxxxxxxxxxxxxxxxxxxxxxxxxxxxxxxxxxxxxxxxxxx\x1E240101s1999    xx                  eng d\x1E00\x1FaCat\x1E\x1D",
    ),
    // Control number of 200 bytes.
    (
        Rule::ControlNumber,
        1,
        b"00312nam a2200061 a 4500001020100000008004100201245000800242\x1Exxxxxxxxxxxxxxxxxxxxxxxxxxxxxxxxxxxxxxxxxxxxxxxxxxxxxxxxxxxxxxxxxxxxxxxxxxxxxxxxxxxxxxxxxxxxxxxxxxxxxxxxxxxxxxxxxxxxxxxxxxxxxxxxxxxxxxxxxxxxxxxxxxxxxxxxxxxxxxxxxxxxxxxxxxxxxxxxxxxxxxxxxxxxxxxxxxxxxxxx\x1E240101s1999    xx                  eng d\x1E00\x1FaCat\x1E\x1D",
    ),
    // 65 bytes after trimming.
    (
        Rule::ControlNumber,
        1,
        b"00182nam a2200061 a 4500001007100000008004100071245000800112\x1E   xxxxxxxxxxxxxxxxxxxxxxxxxxxxxxxxxxxxxxxxxxxxxxxxxxxxxxxxxxxxxxxxx  \x1E240101s1999    xx                  eng d\x1E00\x1FaCat\x1E\x1D",
    ),
    // 001: empty.
    (
        Rule::ControlNumber,
        1,
        b"00112nam a2200061 a 4500001000100000008004100001245000800042\x1E\x1E240101s1999    xx                  eng d\x1E00\x1FaCat\x1E\x1D",
    ),
    // 001: blanks only.
    (
        Rule::ControlNumber,
        1,
        b"00115nam a2200061 a 4500001000400000008004100004245000800045\x1E   \x1E240101s1999    xx                  eng d\x1E00\x1FaCat\x1E\x1D",
    ),
    // 001: tab at the beginning.
    (
        Rule::ControlNumber,
        1,
        b"00115nam a2200061 a 4500001000400000008004100004245000800045\x1E\x09id\x1E240101s1999    xx                  eng d\x1E00\x1FaCat\x1E\x1D",
    ),
    // 001: 0x7F.
    (
        Rule::ControlNumber,
        1,
        b"00115nam a2200061 a 4500001000400000008004100004245000800045\x1Ei\x7Fd\x1E240101s1999    xx                  eng d\x1E00\x1FaCat\x1E\x1D",
    ),
    // 001: two-byte character.
    (
        Rule::ControlNumber,
        1,
        b"00114nam a2200061 a 4500001000300000008004100003245000800044\x1E\xC3\xA9\x1E240101s1999    xx                  eng d\x1E00\x1FaCat\x1E\x1D",
    ),
    // 001: LF at the end.
    (
        Rule::ControlNumber,
        1,
        b"00115nam a2200061 a 4500001000400000008004100004245000800045\x1Eid\x0A\x1E240101s1999    xx                  eng d\x1E00\x1FaCat\x1E\x1D",
    ),
    // 001: 0x1B.
    (
        Rule::ControlNumber,
        1,
        b"00115nam a2200061 a 4500001000400000008004100004245000800045\x1Ei\x1Bd\x1E240101s1999    xx                  eng d\x1E00\x1FaCat\x1E\x1D",
    ),
    // 001: 0x00.
    (
        Rule::ControlNumber,
        1,
        b"00113nam a2200061 a 4500001000200000008004100002245000800043\x1E\x00\x1E240101s1999    xx                  eng d\x1E00\x1FaCat\x1E\x1D",
    ),
    // No 001.
    (
        Rule::ControlNumber,
        0,
        b"00099nam a2200049 a 4500008004100000245000800041\x1E240101s1999    xx                  eng d\x1E00\x1FaCat\x1E\x1D",
    ),
    // Two 001, the second in entry 4.
    (
        Rule::ControlNumber,
        4,
        b"00129nam a2200073 a 4500001000300000008004100003245000800044001000300052\x1Eid\x1E240101s1999    xx                  eng d\x1E00\x1FaCat\x1Eid\x1E\x1D",
    ),
    // Two 001, both bad: the second one's entry.
    (
        Rule::ControlNumber,
        2,
        b"00195nam a2200073 a 4500001000100000001007100001008004100072245000800113\x1E\x1Exxxxxxxxxxxxxxxxxxxxxxxxxxxxxxxxxxxxxxxxxxxxxxxxxxxxxxxxxxxxxxxxxxxxxx\x1E240101s1999    xx                  eng d\x1E00\x1FaCat\x1E\x1D",
    ),
    // Status d without 001.
    (
        Rule::ControlNumber,
        0,
        b"00046dam a2200037 a 4500245000800000\x1E00\x1FaCat\x1E\x1D",
    ),
    // Status d with two 001.
    (
        Rule::ControlNumber,
        2,
        b"00054dam a2200049 a 4500001000200000001000200002\x1Ea\x1Eb\x1E\x1D",
    ),
    // At once: ControlNumber, Repeated.
    (
        Rule::ControlNumber,
        1,
        b"00223nam a2200097 a 4500001006600000008004100066245000800107500000600115005000200121005000200123\x1Exxxxxxxxxxxxxxxxxxxxxxxxxxxxxxxxxxxxxxxxxxxxxxxxxxxxxxxxxxxxxxxxx\x1E240101s1999    xx                  eng d\x1E00\x1FaCat\x1E  \x1Fax\x1Ey\x1Ez\x1E\x1D",
    ),
    // At once: ControlNumber, Fixed008.
    (
        Rule::ControlNumber,
        1,
        b"00174nam a2200085 a 4500001006600000008000600066245000800072500000600080005000200086\x1Exxxxxxxxxxxxxxxxxxxxxxxxxxxxxxxxxxxxxxxxxxxxxxxxxxxxxxxxxxxxxxxxx\x1Eshort\x1E00\x1FaCat\x1E  \x1Fax\x1Ey\x1E\x1D",
    ),
    // At once: ControlNumber, Repeated, Fixed008, Title245.
    (
        Rule::ControlNumber,
        1,
        b"00208nam a2200109 a 4500001006600000008000600066245000800072500000600080005000200086005000200088245000800090\x1Exxxxxxxxxxxxxxxxxxxxxxxxxxxxxxxxxxxxxxxxxxxxxxxxxxxxxxxxxxxxxxxxx\x1Eshort\x1E00\x1FaCat\x1E  \x1Fax\x1Ey\x1Ez\x1E00\x1FaDog\x1E\x1D",
    ),
    // 003 twice, in entries 4 and 5.
    (
        Rule::Repeated,
        5,
        b"00142nam a2200085 a 4500001000300000008004100003245000800044003000200052003000200054\x1Eid\x1E240101s1999    xx                  eng d\x1E00\x1FaCat\x1Ex\x1Ex\x1E\x1D",
    ),
    // 005 twice, in entries 4 and 5.
    (
        Rule::Repeated,
        5,
        b"00142nam a2200085 a 4500001000300000008004100003245000800044005000200052005000200054\x1Eid\x1E240101s1999    xx                  eng d\x1E00\x1FaCat\x1Ex\x1Ex\x1E\x1D",
    ),
    // 010 twice, in entries 4 and 5.
    (
        Rule::Repeated,
        5,
        b"00150nam a2200085 a 4500001000300000008004100003245000800044010000600052010000600058\x1Eid\x1E240101s1999    xx                  eng d\x1E00\x1FaCat\x1E  \x1Fax\x1E  \x1Fax\x1E\x1D",
    ),
    // 040 twice, in entries 4 and 5.
    (
        Rule::Repeated,
        5,
        b"00150nam a2200085 a 4500001000300000008004100003245000800044040000600052040000600058\x1Eid\x1E240101s1999    xx                  eng d\x1E00\x1FaCat\x1E  \x1Fax\x1E  \x1Fax\x1E\x1D",
    ),
    // 240 twice, in entries 4 and 5.
    (
        Rule::Repeated,
        5,
        b"00150nam a2200085 a 4500001000300000008004100003245000800044240000600052240000600058\x1Eid\x1E240101s1999    xx                  eng d\x1E00\x1FaCat\x1E  \x1Fax\x1E  \x1Fax\x1E\x1D",
    ),
    // 100 and 100.
    (
        Rule::Repeated,
        5,
        b"00150nam a2200085 a 4500001000300000008004100003245000800044100000600052100000600058\x1Eid\x1E240101s1999    xx                  eng d\x1E00\x1FaCat\x1E1 \x1Faa\x1E1 \x1Fab\x1E\x1D",
    ),
    // 100 and 110.
    (
        Rule::Repeated,
        5,
        b"00150nam a2200085 a 4500001000300000008004100003245000800044100000600052110000600058\x1Eid\x1E240101s1999    xx                  eng d\x1E00\x1FaCat\x1E1 \x1Faa\x1E1 \x1Fab\x1E\x1D",
    ),
    // 111 and 130.
    (
        Rule::Repeated,
        5,
        b"00150nam a2200085 a 4500001000300000008004100003245000800044111000600052130000600058\x1Eid\x1E240101s1999    xx                  eng d\x1E00\x1FaCat\x1E1 \x1Faa\x1E1 \x1Fab\x1E\x1D",
    ),
    // 130 and 100.
    (
        Rule::Repeated,
        5,
        b"00150nam a2200085 a 4500001000300000008004100003245000800044130000600052100000600058\x1Eid\x1E240101s1999    xx                  eng d\x1E00\x1FaCat\x1E1 \x1Faa\x1E1 \x1Fab\x1E\x1D",
    ),
    // 110 and 110.
    (
        Rule::Repeated,
        5,
        b"00150nam a2200085 a 4500001000300000008004100003245000800044110000600052110000600058\x1Eid\x1E240101s1999    xx                  eng d\x1E00\x1FaCat\x1E1 \x1Faa\x1E1 \x1Fab\x1E\x1D",
    ),
    // 130 and 130.
    (
        Rule::Repeated,
        5,
        b"00150nam a2200085 a 4500001000300000008004100003245000800044130000600052130000600058\x1Eid\x1E240101s1999    xx                  eng d\x1E00\x1FaCat\x1E1 \x1Faa\x1E1 \x1Fab\x1E\x1D",
    ),
    // 111 and 100.
    (
        Rule::Repeated,
        5,
        b"00150nam a2200085 a 4500001000300000008004100003245000800044111000600052100000600058\x1Eid\x1E240101s1999    xx                  eng d\x1E00\x1FaCat\x1E1 \x1Faa\x1E1 \x1Fab\x1E\x1D",
    ),
    // 005 and 003 twice: the least entry that repeats.
    (
        Rule::Repeated,
        2,
        b"00170nam a2200109 a 4500005000200000005000200002003000200004003000200006001000300008008004100011245000800052\x1Ex\x1Ey\x1Ex\x1Ey\x1Eid\x1E240101s1999    xx                  eng d\x1E00\x1FaCat\x1E\x1D",
    ),
    // 1XX and 240 repeat: the least entry.
    (
        Rule::Repeated,
        3,
        b"00185nam a2200109 a 4500100000500000240000600005130000600011240000600017001000300023008004100026245000800067\x1E1 \x1Fa\x1E10\x1Fax\x1E0 \x1Fax\x1E10\x1Fax\x1Eid\x1E240101s1999    xx                  eng d\x1E00\x1FaCat\x1E\x1D",
    ),
    // Three main entries: the second one's entry.
    (
        Rule::Repeated,
        5,
        b"00168nam a2200097 a 4500001000300000008004100003245000800044100000600052110000600058111000600064\x1Eid\x1E240101s1999    xx                  eng d\x1E00\x1FaCat\x1E1 \x1Faa\x1E1 \x1Fab\x1E1 \x1Fac\x1E\x1D",
    ),
    // At once: Repeated, Fixed008.
    (
        Rule::Repeated,
        6,
        b"00125nam a2200097 a 4500001000300000008000600003245000800009500000600017005000200023005000200025\x1Eid\x1Eshort\x1E00\x1FaCat\x1E  \x1Fax\x1Ey\x1Ez\x1E\x1D",
    ),
    // At once: Repeated, Title245.
    (
        Rule::Repeated,
        6,
        b"00180nam a2200109 a 4500001000300000008004100003245000800044500000600052005000200058005000200060245000800062\x1Eid\x1E240101s1999    xx                  eng d\x1E00\x1FaCat\x1E  \x1Fax\x1Ey\x1Ez\x1E00\x1FaDog\x1E\x1D",
    ),
    // 008 of 0 bytes.
    (
        Rule::Fixed008,
        2,
        b"00074nam a2200061 a 4500001000300000008000100003245000800004\x1Eid\x1E\x1E00\x1FaCat\x1E\x1D",
    ),
    // 008 of 1 bytes.
    (
        Rule::Fixed008,
        2,
        b"00075nam a2200061 a 4500001000300000008000200003245000800005\x1Eid\x1Ex\x1E00\x1FaCat\x1E\x1D",
    ),
    // 008 of 39 bytes.
    (
        Rule::Fixed008,
        2,
        b"00113nam a2200061 a 4500001000300000008004000003245000800043\x1Eid\x1Exxxxxxxxxxxxxxxxxxxxxxxxxxxxxxxxxxxxxxx\x1E00\x1FaCat\x1E\x1D",
    ),
    // 008 of 41 bytes.
    (
        Rule::Fixed008,
        2,
        b"00115nam a2200061 a 4500001000300000008004200003245000800045\x1Eid\x1Exxxxxxxxxxxxxxxxxxxxxxxxxxxxxxxxxxxxxxxxx\x1E00\x1FaCat\x1E\x1D",
    ),
    // 008 of 80 bytes.
    (
        Rule::Fixed008,
        2,
        b"00154nam a2200061 a 4500001000300000008008100003245000800084\x1Eid\x1Exxxxxxxxxxxxxxxxxxxxxxxxxxxxxxxxxxxxxxxxxxxxxxxxxxxxxxxxxxxxxxxxxxxxxxxxxxxxxxxx\x1E00\x1FaCat\x1E\x1D",
    ),
    // 008 of 40 characters, 80 bytes.
    (
        Rule::Fixed008,
        2,
        b"00154nam a2200061 a 4500001000300000008008100003245000800084\x1Eid\x1E\xC3\xA9\xC3\xA9\xC3\xA9\xC3\xA9\xC3\xA9\xC3\xA9\xC3\xA9\xC3\xA9\xC3\xA9\xC3\xA9\xC3\xA9\xC3\xA9\xC3\xA9\xC3\xA9\xC3\xA9\xC3\xA9\xC3\xA9\xC3\xA9\xC3\xA9\xC3\xA9\xC3\xA9\xC3\xA9\xC3\xA9\xC3\xA9\xC3\xA9\xC3\xA9\xC3\xA9\xC3\xA9\xC3\xA9\xC3\xA9\xC3\xA9\xC3\xA9\xC3\xA9\xC3\xA9\xC3\xA9\xC3\xA9\xC3\xA9\xC3\xA9\xC3\xA9\xC3\xA9\x1E00\x1FaCat\x1E\x1D",
    ),
    // No 008.
    (
        Rule::Fixed008,
        0,
        b"00061nam a2200049 a 4500001000300000245000800003\x1Eid\x1E00\x1FaCat\x1E\x1D",
    ),
    // Two 008, the second in entry 4.
    (
        Rule::Fixed008,
        4,
        b"00167nam a2200073 a 4500001000300000008004100003245000800044008004100052\x1Eid\x1E240101s1999    xx                  eng d\x1E00\x1FaCat\x1E240101s1999    xx                  eng d\x1E\x1D",
    ),
    // Two 008, the first short: the second one's entry.
    (
        Rule::Fixed008,
        2,
        b"00132nam a2200073 a 4500008000600000008004100006001000300047245000800050\x1Eshort\x1E240101s1999    xx                  eng d\x1Eid\x1E00\x1FaCat\x1E\x1D",
    ),
    // At once: Fixed008, Title245.
    (
        Rule::Fixed008,
        2,
        b"00131nam a2200097 a 4500001000300000008000600003245000800009500000600017005000200023245000800025\x1Eid\x1Eshort\x1E00\x1FaCat\x1E  \x1Fax\x1Ey\x1E00\x1FaDog\x1E\x1D",
    ),
    // Data order differs and no 245.
    (
        Rule::Title245,
        0,
        b"00112nam a2200061 a 4500001000300047008004100006500000600000\x1E  \x1Fax\x1E240101s1999    xx                  eng d\x1Eid\x1E\x1D",
    ),
    // No 245.
    (
        Rule::Title245,
        0,
        b"00094nam a2200049 a 4500001000300000008004100003\x1Eid\x1E240101s1999    xx                  eng d\x1E\x1D",
    ),
    // Two 245, the second in entry 4.
    (
        Rule::Title245,
        4,
        b"00134nam a2200073 a 4500001000300000008004100003245000800044245000800052\x1Eid\x1E240101s1999    xx                  eng d\x1E00\x1FaCat\x1E00\x1FaDog\x1E\x1D",
    ),
    // Three 245: the second one's entry.
    (
        Rule::Title245,
        2,
        b"00148nam a2200085 a 4500245000600000245000600006245000600012001000300018008004100021\x1E00\x1Faa\x1E00\x1Fab\x1E00\x1Fac\x1Eid\x1E240101s1999    xx                  eng d\x1E\x1D",
    ),
    // 246 is no 245.
    (
        Rule::Title245,
        0,
        b"00114nam a2200061 a 4500001000300000008004100003246000800044\x1Eid\x1E240101s1999    xx                  eng d\x1E00\x1FaCat\x1E\x1D",
    ),
    // 24A is no 245.
    (
        Rule::Title245,
        0,
        b"00114nam a2200061 a 450000100030000000800410000324A000800044\x1Eid\x1E240101s1999    xx                  eng d\x1E00\x1FaCat\x1E\x1D",
    ),
    // No 245, status c.
    (
        Rule::Title245,
        0,
        b"00094cam a2200049 a 4500001000300000008004100003\x1Eid\x1E240101s1999    xx                  eng d\x1E\x1D",
    ),
];

static SHAPES_BEHIND: [ShapeBehind; 8] = [
    // At once: Status, ControlShape, Repeated.
    (
        (Rule::Status, 0),
        (Rule::ControlShape, 5),
        b"00161xam a2200097 a 4500001000300000008004100003245000800044500000600052005000300058005000200061\x1Eid\x1E240101s1999    xx                  eng d\x1E00\x1FaCat\x1E  \x1Fax\x1Ey\x1F\x1Ez\x1E\x1D",
    ),
    // Coding blank, 0x80 as an indicator.
    (
        (Rule::Coding, 4),
        (Rule::DataShape, 4),
        b"00132nam  2200073 a 4500001000300000008004100003245000800044500000600052\x1Eid\x1E240101s1999    xx                  eng d\x1E00\x1FaCat\x1E\x80 \x1Fax\x1E\x1D",
    ),
    // Coding blank, 0x80 as a code.
    (
        (Rule::Coding, 4),
        (Rule::DataShape, 4),
        b"00132nam  2200073 a 4500001000300000008004100003245000800044500000600052\x1Eid\x1E240101s1999    xx                  eng d\x1E00\x1FaCat\x1E  \x1F\x80x\x1E\x1D",
    ),
    // At once: Coding, ControlShape.
    (
        (Rule::Coding, 0),
        (Rule::ControlShape, 5),
        b"00147nam b2200085 a 4500001000300000008004100003245000800044500000600052005000300058\x1Eid\x1E240101s1999    xx                  eng d\x1E00\x1FaCat\x1E  \x1Fax\x1Ey\x1F\x1E\x1D",
    ),
    // At once: Coding, NotUtf8, ControlShape, DataShape, ControlNumber, Repeated, Fixed008, Title245.
    (
        (Rule::Coding, 0),
        (Rule::ControlShape, 5),
        b"00223nam b2200121 a 4500001006600000008000600066245000800072500000600080005000300086700000200089005000200091245000800093\x1Exxxxxxxxxxxxxxxxxxxxxxxxxxxxxxxxxxxxxxxxxxxxxxxxxxxxxxxxxxxxxxxxx\x1Eshort\x1E00\x1FaCat\x1E  \x1Fa\xE9\x1Ey\x1F\x1Ex\x1Ez\x1E00\x1FaDog\x1E\x1D",
    ),
    // 0xE9 as an indicator is not UTF-8 before it is out of shape.
    (
        (Rule::NotUtf8, 4),
        (Rule::DataShape, 4),
        b"00132nam a2200073 a 4500001000300000008004100003245000800044500000600052\x1Eid\x1E240101s1999    xx                  eng d\x1E00\x1FaCat\x1E\xE9 \x1Fax\x1E\x1D",
    ),
    // At once: NotUtf8, ControlShape.
    (
        (Rule::NotUtf8, 4),
        (Rule::ControlShape, 5),
        b"00147nam a2200085 a 4500001000300000008004100003245000800044500000600052005000300058\x1Eid\x1E240101s1999    xx                  eng d\x1E00\x1FaCat\x1E  \x1Fa\xE9\x1Ey\x1F\x1E\x1D",
    ),
    // At once: NotUtf8, DataShape.
    (
        (Rule::NotUtf8, 4),
        (Rule::DataShape, 6),
        b"00160nam a2200097 a 4500001000300000008004100003245000800044500000600052005000200058700000200060\x1Eid\x1E240101s1999    xx                  eng d\x1E00\x1FaCat\x1E  \x1Fa\xE9\x1Ey\x1Ex\x1E\x1D",
    ),
];
