//! The nineteen rules that a frame has to keep, in their order, with their names; and a rule's failure, with its place.
ghost use Rattle.std.specs.Prelude.{◌≡◌};
ghost use Rattle.marc_fields.specs.RuleNames.{rule_name};

/// A rule for frames. They are looked at in this order, and the first that fails is named (this project's own).
#[derive(Clone, Copy, Debug, PartialEq, Eq)]
pub enum Rule {
    /// The stream ends within the frame.
    Truncated,
    /// The frame has more than 99,999 bytes.
    TooLong,
    /// The frame has fewer than 26 bytes.
    TooShort,
    /// Bytes 00-04 of the leader are not five digits.
    LengthDigits,
    /// The length in the leader is not the frame's.
    LengthDiffers,
    /// Bytes 12-16 of the leader are not the base address of data: 25 and 12 for each entry, after a field terminator.
    BaseAddress,
    /// A byte of the leader may not stand at its offset, which is the place.
    LeaderCounts,
    /// An entry's length or start is not all digits. The place of this and the later rules on fields is the entry's number.
    EntryDigits,
    /// A tag is not three ASCII letters or digits.
    Tag,
    /// The entries' ranges do not partition the data into fields, each with its terminator.
    Tiling,
    /// The status is none of `a`, `c`, `d`, `n`, `p`.
    Status,
    /// The character coding is neither blank nor `a`, or a field has a byte that a blank coding excludes.
    Coding,
    /// A field is not UTF-8, though the character coding says so.
    NotUtf8,
    /// A control field has a delimiter.
    ControlShape,
    /// A data field has not two indicators and then subfields.
    DataShape,
    /// There is not one control number, or it is not 1 to 64 printable bytes.
    ControlNumber,
    /// A field that may occur once occurs twice.
    Repeated,
    /// There is not one field 008 of 40 bytes.
    Fixed008,
    /// There is not one field 245.
    Title245,
}

impl Rule {
    /// The rule's name, as every report writes it (docs/FORMATS.md). Takes no memory.
    pub fn name(self) -> &'static [u8]
        ensures { result.now ≡ rule_name self }
    {
        match self {
            Rule::Truncated => b"Truncated",
            Rule::TooLong => b"TooLong",
            Rule::TooShort => b"TooShort",
            Rule::LengthDigits => b"LengthDigits",
            Rule::LengthDiffers => b"LengthDiffers",
            Rule::BaseAddress => b"BaseAddress",
            Rule::LeaderCounts => b"LeaderCounts",
            Rule::EntryDigits => b"EntryDigits",
            Rule::Tag => b"Tag",
            Rule::Tiling => b"Tiling",
            Rule::Status => b"Status",
            Rule::Coding => b"Coding",
            Rule::NotUtf8 => b"NotUtf8",
            Rule::ControlShape => b"ControlShape",
            Rule::DataShape => b"DataShape",
            Rule::ControlNumber => b"ControlNumber",
            Rule::Repeated => b"Repeated",
            Rule::Fixed008 => b"Fixed008",
            Rule::Title245 => b"Title245",
        }
    }
}

/// A rule that fails, and where.
#[derive(Clone, Copy, Debug, PartialEq, Eq)]
pub struct Failure {
    pub rule: Rule,
    /// 0, an offset in the leader, or the number of an entry, counted from 1 (see `Rule`).
    pub place: u32,
}
