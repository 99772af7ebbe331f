//! What comes of one line.
ghost use Rattle.std.specs.Prelude.{◌≡◌, ◌≢◌, ℕ, [], List, None, IfOk};
ghost use Rattle.std.specs.Option.{option_copied};
ghost use Rattle.iso2709_frame.specs.Frames.{IsWhole};
ghost use Rattle.marc_fields.specs.Appending.{too_long};
ghost use Rattle.marc_fields.specs.Spelling.{spelling};
ghost use Rattle.marc_parts.specs.declared.marc_record.Record.{Record as RecordModel};
ghost use Rattle.union_json.specs.Outcomes.{EndsAs, IsOutcomeOf, IsOutcomeWithin};

use crate::outcome::{Outcome, Reason};
use iso2709_frame::cut::Cut;
use marc_fields::encoding::{EncodeRefusal, encode};
use marc_json::reading::{JsonRefusal, from_json};
use marc_parts::marc_record::Record;
use marc_rules::check::{Refusal, accepted_status};
use std::alloc::Global;
use union_base::memory::Memory;

/// What comes of a line, by the record that it stands for and by the record's frame, which is emptied where it is refused.
fn judge_frame(alloc: Global, frame: &mut Vec<u8>) -> Result<Outcome, Memory>
    requires { IsWhole frame.old.items }
    ensures { IfOk result (λ outcome. (r : RecordModel)
        → too_long r ≡ None → frame.old.items ≡ spelling r
        → IsOutcomeOf r outcome frame.new.items) }
{
    match accepted_status(alloc, Cut::Whole, frame.as_slice()) {
        Ok(_) => Ok(Outcome::Written),
        Err(Refusal::Rule { rule, place }) => {
            frame.clear();
            Ok(Outcome::Refused(Reason::Breaks { rule, place }))
        }
        Err(Refusal::Memory) => Err(Memory),
    }
}

/// What comes of a line, by the record that it stands for. Its frame is put in `frame`.
fn judge_record(alloc: Global, rec: &Record, frame: &mut Vec<u8>) -> Result<Outcome, Memory>
    requires { frame.old.items ≡ [] }
    ensures { IfOk result (λ outcome. IsOutcomeOf rec.now outcome frame.new.items) }
{
    match encode(rec, frame) {
        Ok(()) => judge_frame(alloc, frame),
        Err(EncodeRefusal::FieldTooLong) => Ok(Outcome::Refused(Reason::FieldTooLong)),
        Err(EncodeRefusal::RecordTooLong) => Ok(Outcome::Refused(Reason::RecordTooLong)),
        Err(EncodeRefusal::Memory) => Err(Memory),
    }
}

/// What comes of a line that is not empty.
fn judge_text(alloc: Global, line: &[u8], frame: &mut Vec<u8>) -> Result<Outcome, Memory>
    requires some { line.now ≢ [] }
    requires empty { frame.old.items ≡ [] }
    ensures { IfOk result (λ outcome. IsOutcomeWithin line.now outcome frame.new.items) }
{
    match from_json(alloc, line) {
        Ok(rec) => judge_record(alloc, &rec, frame),
        Err(JsonRefusal::Json) => Ok(Outcome::Refused(Reason::Json)),
        Err(JsonRefusal::Shape { at }) => Ok(Outcome::Refused(Reason::Shape { at })),
        Err(JsonRefusal::Memory) => Err(Memory),
    }
}

/// What comes of a line; None stands for one that is too long. The frame that is to be written is put in place of what
/// stands in `frame`; it is empty where there is none.
pub fn judge(alloc: Global, line: Option<&[u8]>, frame: &mut Vec<u8>) -> Result<Outcome, Memory>
    ensures { IfOk result (λ outcome. EndsAs (option_copied line.entry)
        (outcome, frame.new.items)) }
{
    frame.clear();
    let Some(line) = line else {
        return Ok(Outcome::Refused(Reason::LineTooLong));
    };
    if line.is_empty() {
        return Ok(Outcome::Skipped);
    }
    judge_text(alloc, line, frame)
}
