//! The cutter, which is fed a stream in pieces.
ghost use Rattle.std.specs.Prelude.{◌≡◌, ◌≢◌, ℕ, ◌<◌, ◌≤◌, false, ◌||◌, nat_lt, if◌then◌else◌, List, [], ◌++◌, length, drop, Some, None, is_some, vec_len, vec_capacity, IfOk, IfSome};
ghost use Rattle.std.specs.List.{list_any};
ghost use Rattle.iso2709_frame.specs.Frames.{frames, first_piece, skip_breaks, is_terminator, IsWhole};
ghost use Rattle.iso2709_frame.specs.Cutting.{told, fresh, too_long};
ghost use Rattle.iso2709_frame.specs.Phases.{settled_of, pending_of, IsGathered};

use crate::cut::{CARRIAGE_RETURN, Cut, LARGEST_FRAME, LINE_FEED, RECORD_TERMINATOR};
use memchr::memchr;
use std::alloc::Global;
use std::marker::Model;
use union_base::memory::Memory;

/// Cuts a stream that comes in pieces. Contracts see the bytes that wait for the end of their frame, and the frame that
/// is lent. It holds room for the largest frame, and takes no memory after `open`.
#[derive(Drop)]
pub struct Cutter {
    held: Vec<u8>,
    phase: Phase,
}

/// What the bytes held are.
#[derive(Clone, Copy)]
enum Phase {
    /// The front of a frame that is not ended.
    Gathering,
    /// Nothing: the frame that is not ended is too long already.
    Overfull,
    /// A whole frame.
    Ended,
}

impl Model for Cutter {
    ghost use Rattle.iso2709_frame.specs.Cutting.{Cutting};

    ghost Value = { Cutting };

    ghost use Rattle.iso2709_frame.specs.Phases.{cutting_of, IsReady};

    ghost view = { cutting_of };

    ghost invariant = { IsReady };
}

/// The text without the CR and LF at its beginning.
fn behind_breaks(text: &[u8]) -> &[u8]
    ensures { result.now ≡ skip_breaks text.now }
{
    let mut rest = text;
    while let [CARRIAGE_RETURN | LINE_FEED, behind @ ..] = rest {
        rest = behind;
    }
    rest
}

/// The piece up to and with its first record terminator, and whether it has one.
fn first_part(piece: &[u8]) -> (&[u8], bool)
    ensures part { result.0.now ≡ first_piece piece.now }
    ensures ended { result.1 ≡ list_any is_terminator piece.now }
{
    match memchr(RECORD_TERMINATOR, piece) {
        Some(at) => {
            let (part, _) = piece.split_at(at + 1);
            (part, true)
        }
        None => (piece, false),
    }
}

/// What of a part is kept after the bytes held of its frame.
fn kept_part<'a>(held: &[u8], part: &'a [u8]) -> &'a [u8]
    requires { skip_breaks held.now ≡ held.now }
    ensures { held.now ++ result.now ≡ skip_breaks (held.now ++ part.now) }
{
    if held.is_empty() {
        behind_breaks(part)
    } else {
        part
    }
}

/// Adds a part to the bytes held of a frame, and answers whether the frame is too long. Of one that is, nothing is held.
fn gather(held: &mut Vec<u8>, overfull: bool, part: &[u8]) -> bool
    requires room { 99999 ≤ vec_capacity held.old }
    requires size { vec_len held.old ≤ 99999 }
    requires front { skip_breaks held.old.items ≡ held.old.items }
    ensures room { 99999 ≤ vec_capacity held.new }
    ensures size { vec_len held.new ≤ 99999 }
    ensures overfull { result ≡ (overfull || nat_lt 99999
        (length (skip_breaks (held.old.items ++ part.now)))) }
    ensures held { held.new.items ≡ (if result then [] else skip_breaks
        (held.old.items ++ part.now)) }
{
    if overfull {
        held.clear();
        return true;
    }
    let part = kept_part(held.as_slice(), part);
    if LARGEST_FRAME - held.len() < part.len() {
        held.clear();
        return true;
    }
    held.extend_from_slice(part).unwrap();
    false
}

/// Goes on with what is held in that phase: answers whether its frame is too long already, and lets go of a frame that
/// was lent.
fn resumed(held: &mut Vec<u8>, phase: Phase) -> bool
    requires room { 99999 ≤ vec_capacity held.old }
    requires size { vec_len held.old ≤ 99999 }
    requires gathered { IsGathered phase held.old.items }
    ensures room { 99999 ≤ vec_capacity held.new }
    ensures size { vec_len held.new ≤ 99999 }
    ensures pending { pending_of phase held.old.items
        ≡ (if result then too_long else held.new.items) }
    ensures open_text { list_any is_terminator held.new.items ≡ false }
    ensures front { skip_breaks held.new.items ≡ held.new.items }
{
    match phase {
        Phase::Gathering => false,
        Phase::Overfull => true,
        Phase::Ended => {
            held.clear();
            false
        }
    }
}

/// Whether bytes of a frame are left where the stream ends.
fn is_left(held: &[u8], phase: Phase) -> bool
    requires { IsGathered phase held.now }
    ensures { frames (pending_of phase held.now)
        ≡ told (if result then Some Cut.Truncated else None) [] }
{
    match phase {
        Phase::Gathering => !held.is_empty(),
        Phase::Overfull => true,
        Phase::Ended => false,
    }
}

/// What comes of a part: how it leaves the bytes held, and the cut where the part ends its frame.
fn settled(overfull: bool, ended: bool) -> (Phase, Option<Cut>)
    ensures { result ≡ settled_of overfull ended }
{
    match (ended, overfull) {
        (false, false) => (Phase::Gathering, None),
        (false, true) => (Phase::Overfull, None),
        (true, false) => (Phase::Ended, Some(Cut::Whole)),
        (true, true) => (Phase::Gathering, Some(Cut::TooLong)),
    }
}

impl Cutter {
    /// A cutter that was fed nothing. It reserves `LARGEST_FRAME` bytes.
    pub fn open(alloc: Global) -> Result<Cutter, Memory>
        ensures { IfOk result (λ cutter. cutter ≡ fresh) }
    {
        Ok(Cutter {
            held: Vec::with_capacity(alloc, LARGEST_FRAME)?,
            phase: Phase::Gathering,
        })
    }

    /// Takes the bytes of the piece up to and with its first record terminator, and answers how many these are and how
    /// their frame is cut, Whole or TooLong. Without a terminator it takes the whole piece and answers None. Takes no
    /// memory.
    pub fn feed(&mut self, piece: &[u8]) -> (usize, Option<Cut>)
        // Whatever follows: the frames of what waited, the piece and that, are the one told and those of what is left.
        ensures frames { (more : List ℕ) → frames (self.old.pending ++ (piece.now ++ more))
            ≡ told result.1 self.new.frame ++ frames (self.new.pending
            ++ (drop result.0 piece.now ++ more)) }
        ensures taken { result.0 ≡ length (first_piece piece.now) }
        ensures within { result.0 ≤ length piece.now }
        ensures some { 0 < length piece.now → 0 < result.0 }
        ensures cut { is_some result.1 ≡ list_any is_terminator piece.now }
        ensures kind { result.1 ≢ Some Cut.Truncated }
        ensures whole { result.1 ≡ Some Cut.Whole → IsWhole self.new.frame }
        ensures lent { result.1 ≢ Some Cut.Whole → self.new.frame ≡ [] }
    {
        let overfull = resumed(&mut self.held, self.phase);
        let (part, ended) = first_part(piece);
        let overfull = gather(&mut self.held, overfull, part);
        let (phase, cut) = settled(overfull, ended);
        self.phase = phase;
        (part.len(), cut)
    }

    /// Ends the stream: answers Truncated exactly where bytes are left after the CR and LF before them, else None.
    /// Afterwards the cutter is as opened. Takes no memory.
    pub fn finish(&mut self) -> Option<Cut>
        ensures frames { frames self.old.pending ≡ told result [] }
        ensures kind { IfSome result (λ cut. cut ≡ Cut.Truncated) }
        ensures opened { self.new ≡ fresh }
    {
        let left = is_left(self.held.as_slice(), self.phase);
        self.held.clear();
        self.phase = Phase::Gathering;
        if left { Some(Cut::Truncated) } else { None }
    }

    /// The frame after an answer Whole, until the next call of `feed`, and else empty. Takes no memory.
    pub fn frame(&self) -> &[u8]
        ensures { result.now ≡ self.now.frame }
    {
        match self.phase {
            Phase::Ended => self.held.as_slice(),
            Phase::Gathering | Phase::Overfull => &[],
        }
    }
}
