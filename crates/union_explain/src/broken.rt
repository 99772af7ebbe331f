//! Which rule the frame of a refused record breaks.
ghost use Rattle.std.specs.Prelude.{◌≡◌, IfOk};
ghost use Rattle.std.specs.declared.option.Option.{Option};
ghost use Rattle.iso2709_frame.specs.Frames.{IsWhole};
ghost use Rattle.marc_fields.specs.declared.rules.Failure.{Failure as FailureModel};
ghost use Rattle.union_explain.specs.Broken.{is_whole, cut_in, broken_by, is_as_told};

use crate::frame::Frame;
use crate::reported::Reported;
use iso2709_frame::cut::{Cut, LARGEST_FRAME, RECORD_TERMINATOR};
use marc_fields::ending::ends_in_only;
use marc_fields::rules::Failure;
use marc_rules::check::{Refusal, accepted_status};
use std::alloc::Global;
use union_base::memory::Memory;

/// Whether the bytes are no more than a frame may have, and their only record terminator ends them.
fn is_whole(bytes: &[u8]) -> bool
    ensures { result ≡ is_whole bytes.now }
{
    bytes.len() <= LARGEST_FRAME && ends_in_only(RECORD_TERMINATOR, bytes)
}

/// How the frame is cut.
fn cut(frame: &Frame) -> Cut
    ensures value { result ≡ cut_in frame.now }
    ensures whole { result ≡ Cut.Whole → IsWhole frame.now.bytes }
{
    if is_whole(frame.bytes()) {
        Cut::Whole
    } else if frame.is_ended() {
        Cut::TooLong
    } else {
        Cut::Truncated
    }
}

/// The first rule that the frame breaks, and where: None where it breaks none. Returns `Memory` if allocation fails.
pub fn broken_by(alloc: Global, frame: &Frame) -> Result<Option<Failure>, Memory>
    ensures { IfOk result (λ found. found ≡ broken_by frame.now) }
{
    match accepted_status(alloc, cut(frame), frame.bytes()) {
        Ok(_) => Ok(None),
        Err(Refusal::Rule { rule, place }) => Ok(Some(Failure { rule, place })),
        Err(Refusal::Memory) => Err(Memory),
    }
}

/// Whether the frame breaks the rule that the report names, at that place. Takes no memory.
pub fn is_as_told(told: &Reported, found: Option<Failure>) -> bool
    ensures { result ≡ is_as_told told.now found }
{
    match found {
        Some(failure) => {
            failure.rule.name() == told.rule.name() && u64::from(failure.place) == told.place
        }
        None => false,
    }
}
