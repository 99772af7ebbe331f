//! What is said of the rules.
ghost use Rattle.std.specs.Prelude.{◌≡◌};
ghost use Rattle.union_explain.specs.Rules.{rule_named, points_at_entry, meaning_of, advice_of};

use crate::texts;
use marc_fields::rules::Rule;

/// The rule of that name, as a report writes it: None where no rule has it. Takes no memory.
pub fn rule_named(text: &[u8]) -> Option<Rule>
    ensures { result ≡ rule_named text.now }
{
    if text == b"Truncated".as_slice() {
        Some(Rule::Truncated)
    } else if text == b"TooLong".as_slice() {
        Some(Rule::TooLong)
    } else if text == b"TooShort".as_slice() {
        Some(Rule::TooShort)
    } else if text == b"LengthDigits".as_slice() {
        Some(Rule::LengthDigits)
    } else if text == b"LengthDiffers".as_slice() {
        Some(Rule::LengthDiffers)
    } else if text == b"BaseAddress".as_slice() {
        Some(Rule::BaseAddress)
    } else if text == b"LeaderCounts".as_slice() {
        Some(Rule::LeaderCounts)
    } else if text == b"EntryDigits".as_slice() {
        Some(Rule::EntryDigits)
    } else if text == b"Tag".as_slice() {
        Some(Rule::Tag)
    } else if text == b"Tiling".as_slice() {
        Some(Rule::Tiling)
    } else if text == b"Status".as_slice() {
        Some(Rule::Status)
    } else if text == b"Coding".as_slice() {
        Some(Rule::Coding)
    } else if text == b"NotUtf8".as_slice() {
        Some(Rule::NotUtf8)
    } else if text == b"ControlShape".as_slice() {
        Some(Rule::ControlShape)
    } else if text == b"DataShape".as_slice() {
        Some(Rule::DataShape)
    } else if text == b"ControlNumber".as_slice() {
        Some(Rule::ControlNumber)
    } else if text == b"Repeated".as_slice() {
        Some(Rule::Repeated)
    } else if text == b"Fixed008".as_slice() {
        Some(Rule::Fixed008)
    } else if text == b"Title245".as_slice() {
        Some(Rule::Title245)
    } else {
        None
    }
}

/// Whether the place of a refusal by that rule is the number of an entry of the directory, where it is not 0. Takes no memory.
pub fn points_at_entry(rule: Rule) -> bool
    ensures { result ≡ points_at_entry rule }
{
    match rule {
        Rule::Truncated
        | Rule::TooLong
        | Rule::TooShort
        | Rule::LengthDigits
        | Rule::LengthDiffers
        | Rule::BaseAddress
        | Rule::LeaderCounts
        | Rule::Status => false,
        Rule::EntryDigits
        | Rule::Tag
        | Rule::Tiling
        | Rule::Coding
        | Rule::NotUtf8
        | Rule::ControlShape
        | Rule::DataShape
        | Rule::ControlNumber
        | Rule::Repeated
        | Rule::Fixed008
        | Rule::Title245 => true,
    }
}

/// What the rule finds in a record, where the refusal has that place. Takes no memory.
pub fn meaning(rule: Rule, place: u64) -> &'static [u8]
    ensures { result.now ≡ meaning_of rule place }
{
    match rule {
        Rule::Truncated => texts::TRUNCATED,
        Rule::TooLong => texts::TOO_LONG,
        Rule::TooShort => texts::TOO_SHORT,
        Rule::LengthDigits => texts::LENGTH_DIGITS,
        Rule::LengthDiffers => texts::LENGTH_DIFFERS,
        Rule::BaseAddress => texts::BASE_ADDRESS,
        Rule::LeaderCounts => texts::LEADER_COUNTS,
        Rule::EntryDigits => texts::ENTRY_DIGITS,
        Rule::Tag => texts::TAG,
        Rule::Tiling => texts::TILING,
        Rule::Status => texts::STATUS,
        Rule::Coding => {
            if place == 0 {
                texts::UNKNOWN_CODING
            } else {
                texts::CODED
            }
        }
        Rule::NotUtf8 => texts::NOT_UTF8,
        Rule::ControlShape => texts::CONTROL_SHAPE,
        Rule::DataShape => texts::DATA_SHAPE,
        Rule::ControlNumber => {
            if place == 0 {
                texts::NO_CONTROL_NUMBER
            } else {
                texts::BAD_CONTROL_NUMBER
            }
        }
        Rule::Repeated => texts::REPEATED,
        Rule::Fixed008 => {
            if place == 0 {
                texts::NO_FIXED_008
            } else {
                texts::BAD_FIXED_008
            }
        }
        Rule::Title245 => {
            if place == 0 {
                texts::NO_TITLE
            } else {
                texts::SECOND_TITLE
            }
        }
    }
}

/// What to do about a refusal by that rule with that place. Takes no memory.
pub fn advice(rule: Rule, place: u64) -> &'static [u8]
    ensures { result.now ≡ advice_of rule place }
{
    match rule {
        Rule::Truncated => texts::TRUNCATED_ADVICE,
        Rule::TooLong => texts::TOO_LONG_ADVICE,
        Rule::TooShort => texts::TOO_SHORT_ADVICE,
        Rule::LengthDigits => texts::LENGTH_DIGITS_ADVICE,
        Rule::LengthDiffers => texts::LENGTH_DIFFERS_ADVICE,
        Rule::BaseAddress => texts::BASE_ADDRESS_ADVICE,
        Rule::LeaderCounts => texts::LEADER_COUNTS_ADVICE,
        Rule::EntryDigits => texts::ENTRY_DIGITS_ADVICE,
        Rule::Tag => texts::TAG_ADVICE,
        Rule::Tiling => texts::TILING_ADVICE,
        Rule::Status => texts::STATUS_ADVICE,
        Rule::Coding => {
            if place == 0 {
                texts::UNKNOWN_CODING_ADVICE
            } else {
                texts::CODED_ADVICE
            }
        }
        Rule::NotUtf8 => texts::NOT_UTF8_ADVICE,
        Rule::ControlShape => texts::CONTROL_SHAPE_ADVICE,
        Rule::DataShape => texts::DATA_SHAPE_ADVICE,
        Rule::ControlNumber => {
            if place == 0 {
                texts::NO_CONTROL_NUMBER_ADVICE
            } else {
                texts::BAD_CONTROL_NUMBER_ADVICE
            }
        }
        Rule::Repeated => texts::REPEATED_ADVICE,
        Rule::Fixed008 => {
            if place == 0 {
                texts::NO_FIXED_008_ADVICE
            } else {
                texts::BAD_FIXED_008_ADVICE
            }
        }
        Rule::Title245 => {
            if place == 0 {
                texts::NO_TITLE_ADVICE
            } else {
                texts::SECOND_TITLE_ADVICE
            }
        }
    }
}
