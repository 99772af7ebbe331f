//! The leader, the 24 bytes at the beginning of a record: `leader_of` says what is read of them, `leader_text` what is written.
ghost use Rattle.std.specs.Prelude.{◌≡◌, ◌≤◌, length, IfOk, Ok};
ghost use Rattle.marc_leader.specs.Leader.{leader_text, leader_of, may_stand, misfit};

use crate::codes::LeaderCodes;
use crate::numeral::{digits, last_digit};

/// How many bytes a leader has.
pub const LEADER_SIZE: usize = 24;

/// Where the record's length ends, which five digits at the beginning give.
pub const LENGTH_END: usize = 5;
/// The offset of the record's status.
pub const STATUS: usize = 5;
/// The offset of the type of record.
pub const KIND: usize = 6;
/// The offset of the bibliographic level.
pub const LEVEL: usize = 7;
/// The offset of the type of control.
pub const CONTROL: usize = 8;
/// The offset of the character coding scheme.
pub const CODING: usize = 9;
/// The offset of the count of a field's indicators, always `2`.
pub const INDICATOR_COUNT: usize = 10;
/// The offset of the count of a subfield code's bytes, delimiter included, always `2`.
pub const CODE_COUNT: usize = 11;
/// Where the base address of data begins, five digits.
pub const BASE: usize = 12;
/// Where the base address of data ends.
pub const BASE_END: usize = 17;
/// The offset of the encoding level.
pub const ENCODING: usize = 17;
/// The offset of the descriptive cataloguing form.
pub const FORM: usize = 18;
/// The offset of the multipart resource record level.
pub const PART: usize = 19;
/// The offset of the entry map's count of an entry's digits of length, always `4`.
pub const LENGTH_PORTION: usize = 20;
/// The offset of the entry map's count of an entry's digits of start, always `5`.
pub const START_PORTION: usize = 21;
/// The offset of the entry map's count of an entry's further bytes, always `0`.
pub const OWN_PORTION: usize = 22;
/// The offset of the entry map's last byte.
pub const LAST: usize = 23;

/// A leader's content (MARC 21, 'Leader'): what its 24 bytes say beside the bytes that are the same in each record.
#[derive(Clone, Copy, Debug, PartialEq, Eq)]
pub struct Leader {
    /// 00-04, the record's length in bytes, leader and record terminator included.
    pub length: u32,
    /// 12-16, the base address of data: the length of leader and directory with its terminator.
    pub base: u32,
    /// The record's own codes.
    pub codes: LeaderCodes,
}

/// Why 24 bytes are no leader.
#[derive(Clone, Copy, Debug, PartialEq, Eq)]
pub enum LeaderRule {
    /// Bytes 00-04 are not five digits.
    LengthDigits,
    /// Bytes 12-16 are not five digits.
    BaseDigits,
    /// The byte at this offset, and none before it, is outside 0x20 to 0x7E, or is not the byte that MARC 21 fixes
    /// there: `2` at 10 and 11, `4`, `5` and `0` at 20 to 22.
    Counts { at: u32 },
}

/// Whether the byte may stand at that offset of a leader.
fn stands(at: usize, byte: u8) -> bool
    ensures { result ≡ may_stand at byte }
{
    match at {
        INDICATOR_COUNT | CODE_COUNT => byte == b'2',
        LENGTH_PORTION => byte == b'4',
        START_PORTION => byte == b'5',
        OWN_PORTION => byte == b'0',
        _ => b' ' <= byte && byte <= b'~',
    }
}

/// The offset of the first byte that may not stand there.
fn first_misfit(text: &[u8]) -> Option<u32>
    requires { length text.now ≡ 24 }
    ensures { result ≡ misfit text.now }
{
    for (at, byte) in text.iter().enumerate() {
        if !stands(at, *byte) {
            return Some(at as u32);
        }
    }
    None
}

impl Leader {
    /// The leader that stands in 24 bytes, or the first rule of `LeaderRule` that they break. Takes no memory.
    pub fn read(text: &[u8]) -> Result<Leader, LeaderRule>
        requires { length text.now ≡ 24 }
        ensures value { result ≡ leader_of text.now }
        // What was read is written as the same bytes.
        ensures spelled { IfOk result (λ leader. text.now ≡ leader_text leader) }
        ensures length { IfOk result (λ leader. leader.length ≤ 99999) }
        ensures base { IfOk result (λ leader. leader.base ≤ 99999) }
    {
        let Some(length) = digits(&text[..LENGTH_END]) else {
            return Err(LeaderRule::LengthDigits);
        };
        let Some(base) = digits(&text[BASE..BASE_END]) else {
            return Err(LeaderRule::BaseDigits);
        };
        if let Some(at) = first_misfit(text) {
            return Err(LeaderRule::Counts { at });
        }
        Ok(Leader {
            length,
            base,
            codes: LeaderCodes {
                status: text[STATUS],
                kind: text[KIND],
                level: text[LEVEL],
                control: text[CONTROL],
                coding: text[CODING],
                encoding: text[ENCODING],
                form: text[FORM],
                part: text[PART],
                last: text[LAST],
            },
        })
    }
}

/// Writes the leader's 24 bytes. Takes no memory.
pub fn write_leader(leader: &Leader, into: &mut [u8])
    requires room { length into.old ≡ 24 }
    requires length { leader.now.length ≤ 99999 }
    requires base { leader.now.base ≤ 99999 }
    ensures text { into.new ≡ leader_text leader.now }
    // What was written is read as the same leader.
    ensures read { leader_of into.new ≡ Ok leader.now }
{
    let size = leader.length;
    let base = leader.base;
    let codes = leader.codes;
    into.copy_from_slice(&[
        last_digit(size / 10 / 10 / 10 / 10),
        last_digit(size / 10 / 10 / 10),
        last_digit(size / 10 / 10),
        last_digit(size / 10),
        last_digit(size),
        codes.status,
        codes.kind,
        codes.level,
        codes.control,
        codes.coding,
        b'2',
        b'2',
        last_digit(base / 10 / 10 / 10 / 10),
        last_digit(base / 10 / 10 / 10),
        last_digit(base / 10 / 10),
        last_digit(base / 10),
        last_digit(base),
        codes.encoding,
        codes.form,
        codes.part,
        b'4',
        b'5',
        b'0',
        codes.last,
    ]);
}
