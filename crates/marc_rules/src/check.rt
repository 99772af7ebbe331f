//! The first rule that a frame breaks, or its record, or its status alone.
ghost use Rattle.std.specs.Prelude.{◌≡◌, ◌*◌, ◌≤◌, true, length, None, Option, IfOk};
ghost use Rattle.std.specs.List.{list_all};
ghost use Rattle.iso2709_frame.specs.Frames.{IsWhole};
ghost use Rattle.marc_fields.specs.Fronts.{IsFront};
ghost use Rattle.marc_fields.specs.Rows.{Answers, Checks, IsRefusal, or_then};
ghost use Rattle.marc_fields.specs.Rules.{IsFrame, is_tile, entry_texts, texts_of, data_in, leader_of_frame, tiling_failure, shape_failure};
ghost use Rattle.marc_fields.specs.Spelling.{Spells};
ghost use Rattle.marc_fields.specs.declared.rules.Failure.{Failure};
ghost use Rattle.marc_rules.specs.Accepted.{IsAccepted};
ghost use Rattle.marc_rules.specs.Checked.{AreSound, AreSoundIn, IsSound};
ghost use Rattle.marc_rules.specs.Contents.{content_failure};
ghost use Rattle.marc_rules.specs.NineteenRules.{status_of, coding_of, fields_failure, record_failure, whole_failure, first_rule};
ghost use Rattle.marc_rules.specs.RequiredFields.{number_failure};
ghost use Rattle.marc_rules.specs.Refusals.{AnswersFrame, IsFrameRefusal};

use crate::contents::check_content;
use crate::required_fields::check_numbers;
use iso2709_frame::cut::Cut;
use marc_fields::decoding::DecodeRefusal;
use marc_fields::directory::check_directory;
use marc_fields::fields::{check_shapes, read_fields};
use marc_fields::head::{Front, SMALLEST_BASE, check_head};
use marc_fields::parts::split_frame;
use marc_fields::rules::{Failure, Rule};
use marc_fields::tiling::check_tiling;
use marc_leader::entry::{ENTRY_SIZE, Entry};
use marc_parts::marc_record::Record;
use std::alloc::Global;
use union_base::memory::Memory;
use union_base::sequence::Sequence;

/// Where the leader has the record's status, and its character coding (MARC 21, 'Leader').
const STATUS: usize = 5;

const CODING: usize = 9;

/// Why a frame is refused.
#[derive(Clone, Copy, Debug, PartialEq, Eq)]
pub enum Refusal {
    /// The first of the nineteen rules that the frame breaks, and its place (see `Failure`).
    Rule { rule: Rule, place: u32 },
    /// Memory ran out.
    Memory,
}

/// The refusals of frames that were not cut whole.
const TRUNCATED: Refusal = Refusal::Rule {
    rule: Rule::Truncated,
    place: 0,
};

const TOO_LONG: Refusal = Refusal::Rule {
    rule: Rule::TooLong,
    place: 0,
};

/// Refuses fields that have not their shape, and a record that has not the fields that it has to have. Takes no memory.
fn check_shaped(status: u8, entries: &[Entry], bytes: &[u8]) -> Result<(), Failure>
    requires few { length entries.now ≤ 9999 }
    requires tiles { list_all (is_tile bytes.now) entries.now ≡ true }
    ensures { Checks result (or_then (shape_failure bytes.now entries.now)
        (number_failure status bytes.now entries.now))
        (λ _. shape_failure bytes.now entries.now ≡ None) }
{
    match check_shapes(entries, bytes) {
        Ok(()) => check_numbers(status, entries, bytes),
        Err(failure) => Err(failure),
    }
}

/// Refuses entries that partition the data, at the first rule on their content that fails. Takes no memory.
fn check_tiled(status: u8, coding: u8, entries: &[Entry], bytes: &[u8]) -> Result<(), Failure>
    requires few { length entries.now ≤ 9999 }
    requires tiles { list_all (is_tile bytes.now) entries.now ≡ true }
    ensures { Checks result (or_then (content_failure status coding bytes.now entries.now)
        (or_then (shape_failure bytes.now entries.now)
        (number_failure status bytes.now entries.now)))
        (λ _. shape_failure bytes.now entries.now ≡ None) }
{
    match check_content(status, coding, entries, bytes) {
        Ok(()) => check_shaped(status, entries, bytes),
        Err(failure) => Err(failure),
    }
}

/// Refuses entries at the first rule on the data that fails.
fn check_entries(
    alloc: Global,
    status: u8,
    coding: u8,
    entries: &[Entry],
    bytes: &[u8],
) -> Result<(), DecodeRefusal>
    requires { length entries.now ≤ 9999 }
    ensures { Answers result (fields_failure status coding bytes.now entries.now)
        (λ _. (tiling_failure bytes.now entries.now ≡ None)
        × (shape_failure bytes.now entries.now ≡ None)) }
{
    match check_tiling(alloc, entries, bytes) {
        Ok(()) => match check_tiled(status, coding, entries, bytes) {
            Ok(()) => Ok(()),
            Err(failure) => Err(DecodeRefusal::from(failure)),
        },
        Err(refusal) => Err(refusal),
    }
}

/// The `count` entries of a directory, or the first rule on them and the data that fails.
fn check_record(
    alloc: Global,
    status: u8,
    coding: u8,
    directory: &[u8],
    bytes: &[u8],
    count: usize,
) -> Result<Vec<Entry>, DecodeRefusal>
    requires size { length directory.now ≡ 12 * count }
    requires few { count ≤ 9999 }
    ensures { Answers result (record_failure status coding (entry_texts count directory.now)
        bytes.now)
        (λ entries. AreSound directory.now bytes.now count entries.items) }
{
    match check_directory(alloc, directory, count) {
        Ok(entries) => match check_entries(alloc, status, coding, entries.as_slice(), bytes) {
            Ok(()) => Ok(entries),
            Err(refusal) => Err(refusal),
        },
        Err(refusal) => Err(refusal),
    }
}

/// The entries of the frame with that base address, or the first rule after those on the leader that fails.
fn check_behind(alloc: Global, frame: &[u8], front: &Front) -> Result<Vec<Entry>, DecodeRefusal>
    requires frame { IsFrame frame.now }
    requires front { IsFront (leader_of_frame frame.now) frame.now front.now.codes front.now.base }
    ensures { Answers result (record_failure (status_of frame.now) (coding_of frame.now)
        (texts_of frame.now) (data_in frame.now))
        (λ entries. AreSoundIn frame.now front.now.base entries.items) }
{
    let base = front.base;
    let parts = split_frame(frame, base);
    let count = (base - SMALLEST_BASE) / ENTRY_SIZE;
    check_record(
        alloc,
        frame[STATUS],
        frame[CODING],
        parts.directory,
        parts.bytes,
        count,
    )
}

/// The leader's content and the entries of a frame in which no rule fails.
#[derive(Drop)]
struct Sound {
    front: Front,
    entries: Vec<Entry>,
}

/// The leader's content and the entries of a whole frame, or the first rule that it breaks.
fn check_whole(alloc: Global, frame: &[u8]) -> Result<Sound, DecodeRefusal>
    requires { IsFrame frame.now }
    ensures { Answers result (whole_failure frame.now)
        (λ found. IsSound frame.now found.front.codes found.front.base found.entries.items) }
{
    match check_head(frame) {
        Ok(front) => match check_behind(alloc, frame, &front) {
            Ok(entries) => Ok(Sound { front, entries }),
            Err(refusal) => Err(refusal),
        },
        Err(failure) => Err(DecodeRefusal::from(failure)),
    }
}

/// The record that a whole frame spells in which no rule fails.
fn read_record(alloc: Global, frame: &[u8], sound: &Sound) -> Result<Record, Memory>
    requires frame { IsFrame frame.now }
    requires sound { IsSound frame.now sound.now.front.codes sound.now.front.base
        sound.now.entries.items }
    ensures { IfOk result (λ found. Spells frame.now found) }
{
    let parts = split_frame(frame, sound.front.base);
    let fields = read_fields(alloc, sound.entries.as_slice(), parts.bytes)?;
    Ok(Record {
        leader: sound.front.codes,
        fields: Sequence::from(fields),
    })
}

/// The refusal of a frame that was cut whole.
fn refusal_of(refusal: DecodeRefusal) -> Refusal
    ensures { (failure : Option Failure) → IsRefusal refusal failure
        → IsFrameRefusal result failure }
{
    match refusal {
        DecodeRefusal::Rule { rule, place } => Refusal::Rule { rule, place },
        DecodeRefusal::Memory => Refusal::Memory,
    }
}

/// The status (MARC 21, leader/05) of a frame that breaks none of the nineteen rules, or the first rule that it breaks,
/// with its place, as `check_frame` names it. No record is made: memory is taken for the directory's entries alone, and for
/// a byte of marks for each byte of the data where the data are not in the order of the directory.
pub fn accepted_status(alloc: Global, cut: Cut, bytes: &[u8]) -> Result<u8, Refusal>
    requires { cut ≡ Cut.Whole → IsWhole bytes.now }
    ensures { AnswersFrame result (first_rule cut bytes.now)
        (λ status. status ≡ status_of bytes.now) }
{
    match cut {
        Cut::Truncated => Err(TRUNCATED),
        Cut::TooLong => Err(TOO_LONG),
        Cut::Whole => match check_whole(alloc, bytes) {
            Ok(_) => Ok(bytes[STATUS]),
            Err(refusal) => Err(refusal_of(refusal)),
        },
    }
}

/// The record that the frame spells, or the first of the nineteen rules that it breaks, with its place (ISO 2709; MARC 21;
/// the rules, their order and their places are this project's own). The bytes of a frame that was not cut whole are not
/// looked at.
pub fn check_frame(alloc: Global, cut: Cut, bytes: &[u8]) -> Result<Record, Refusal>
    requires { cut ≡ Cut.Whole → IsWhole bytes.now }
    ensures first { AnswersFrame result (first_rule cut bytes.now)
        (λ found. Spells bytes.now found) }
    ensures accepted { IfOk result (λ found. IsAccepted found) }
{
    match cut {
        Cut::Truncated => Err(TRUNCATED),
        Cut::TooLong => Err(TOO_LONG),
        Cut::Whole => match check_whole(alloc, bytes) {
            Ok(sound) => match read_record(alloc, bytes, &sound) {
                Ok(found) => Ok(found),
                Err(_memory) => Err(Refusal::Memory),
            },
            Err(refusal) => Err(refusal_of(refusal)),
        },
    }
}
