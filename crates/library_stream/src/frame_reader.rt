//! The reader of frames.
ghost use Rattle.std.specs.Prelude.{◌≡◌, ◌<◌, ◌≤◌, ◌+◌, ℕ, suc, List, [], ◌++◌, length, Ok, Some, None, IfOk, MatchOption, MatchResult, OnSome, IfSome};
ghost use Rattle.std.specs.declared.option.Option.{Option};
ghost use Rattle.std.specs.Io.KnownBytes.{Keeps};
ghost use Rattle.union_io.specs.Causes.{HasCause};
ghost use Rattle.iso2709_frame.specs.Frames.{frames};
ghost use Rattle.iso2709_frame.specs.Cutting.{told, fresh};
ghost use Rattle.library_stream.specs.Streaming.{streaming, opened, stopped, most_on, most_ahead};
ghost use Rattle.library_stream.specs.Answering.{AnswersFrame, CountsFault, Fewer, IsLast, Lends, LendsCut, ReadsWithin, Steps};

use crate::answer::Next;
use crate::course::Course;
use crate::piece::Piece;
use iso2709_frame::cut::Cut;
use iso2709_frame::cutter::Cutter;
use std::alloc::Global;
use std::marker::Model;
use union_base::memory::Memory;
use union_io::failed::Failed;
use union_io::source::Source;

/// The most bytes that a library's source may be allowed, 2^40. A reader itself takes any limit.
pub const LARGEST_SOURCE: u64 = 1_099_511_627_776;

/// Reads a source piece by piece, and hands out its frames one after the other. Contracts see what waits for the end of its
/// frame, what is unread after it, how far the source was read, and the frame that is lent.
#[derive(Drop)]
pub struct FrameReader {
    cutter: Cutter,
    piece: Piece,
    course: Course,
}

impl Model for FrameReader {
    ghost use Rattle.library_stream.specs.Streaming.{Streaming};

    ghost Value = { Streaming };

    ghost use Rattle.library_stream.specs.Streaming.{streaming};

    ghost view = { λ reader. streaming reader.cutter reader.piece reader.course };
}

/// Cuts the next frame from what is unread; None where it ends there in no frame, and all of it waits then.
fn cut_unread(cutter: &mut Cutter, piece: &mut Piece) -> Option<Cut>
    ensures frames { (more : List ℕ) → frames (cutter.old.pending ++ (piece.old ++ more))
        ≡ told result cutter.new.frame ++ frames (cutter.new.pending ++ (piece.new ++ more)) }
    ensures none { result ≡ None → piece.new ≡ [] }
    ensures empty { piece.old ≡ [] → result ≡ None }
    ensures bound { length piece.new ≤ length piece.old }
    ensures fewer { OnSome result (length piece.new < length piece.old) }
    ensures cut { IfSome result (λ cut. LendsCut cut cutter.new.frame) }
    ensures lent { result ≡ None → cutter.new.frame ≡ [] }
{
    let (taken, cut) = cutter.feed(piece.unread());
    piece.skip(taken);
    cut
}

/// Reads the next piece, keeps of it what is within the limit, to which so much room is left, and answers how far the source
/// is read then.
fn read_within<S: Source>(piece: &mut Piece, room: u64, source: &mut S) -> Result<Course, Failed>
    ensures name { S.name source.new ≡ S.name source.old }
    ensures given { MatchResult result
        (λ course. ReadsWithin (S.left source.old) room (S.left source.new) piece.new course)
        (λ _. Keeps (S.left source.old) (S.left source.new)) }
    ensures bound { MatchResult result (λ course. length piece.new + most_on course ≤ suc room)
        (λ _. piece.new ≡ []) }
    ensures fewer { IfOk result (λ course. most_on course < suc room) }
    ensures end { result ≡ Ok Course.Ended → piece.new ≡ [] }
    ensures cause { HasCause (S.faults source.old) (S.faults source.new) result }
{
    let count = piece.fill(source)?;
    if count == 0 {
        return Ok(Course::Ended);
    }
    if count as u64 > room {
        piece.keep(room as usize);
        return Ok(Course::Passed);
    }
    Ok(Course::Open(room - count as u64))
}

/// One step with so much room to the limit: the next frame of what is unread, or else a read; answers how far the source is
/// read then, and the answer if there is one yet.
fn step<S: Source>(
    cutter: &mut Cutter,
    piece: &mut Piece,
    room: u64,
    source: &mut S,
) -> (Course, Option<Next>)
    ensures name { S.name source.new ≡ S.name source.old }
    ensures answers { Steps result.1 (streaming cutter.old piece.old (Course.Open room))
        (S.left source.old)
        (streaming cutter.new piece.new result.0) (S.left source.new) }
    ensures faults { MatchOption result.1 (S.faults source.new ≡ S.faults source.old)
        (λ answer. CountsFault answer (S.faults source.old) (S.faults source.new)) }
    ensures fewer { MatchOption result.1 (length piece.new + most_on result.0
        ≤ length piece.old + suc room)
        (λ answer. Fewer answer (length piece.old + suc room)
        (length piece.new + most_on result.0)) }
    ensures further { result.1 ≡ None → most_on result.0 < suc room }
    ensures lends { IfSome result.1 (λ answer. Lends answer cutter.new.frame) }
{
    match cut_unread(cutter, piece) {
        Some(cut) => (Course::Open(room), Some(Next::Frame(cut))),
        None => match read_within(piece, room, source) {
            Ok(Course::Ended) => (Course::Ended, Some(last_answer(cutter))),
            Ok(course) => (course, None),
            Err(Failed) => (Course::Open(room), Some(Next::Failed)),
        },
    }
}

/// The last answer on a source that ended: the rest that no terminator ends, if there is one.
fn last_answer(cutter: &mut Cutter) -> Next
    ensures frames { IsLast result (frames cutter.old.pending) }
    ensures lends { Lends result cutter.new.frame }
    ensures fresh { cutter.new ≡ fresh }
{
    match cutter.finish() {
        Some(cut) => Next::Frame(cut),
        None => Next::End,
    }
}

/// The next answer on a source that passed the limit.
fn passed_answer(cutter: &mut Cutter, piece: &mut Piece) -> Next
    ensures answers { (left : Option (List ℕ))
        → AnswersFrame result (streaming cutter.old piece.old Course.Passed) left
        (streaming cutter.new piece.new Course.Passed) left }
    ensures faults { (count : ℕ) → CountsFault result count count }
    ensures fewer { Fewer result (length piece.old) (length piece.new) }
    ensures lends { Lends result cutter.new.frame }
    ensures again { piece.old ≡ [] → result ≡ Next.TooLong }
{
    if let Some(cut) = cut_unread(cutter, piece) {
        return Next::Frame(cut);
    }
    let _cut_off = cutter.finish();
    Next::TooLong
}

/// The next answer on a source that was read so far, and how far it is read then.
fn next_answer<S: Source>(
    cutter: &mut Cutter,
    piece: &mut Piece,
    course: Course,
    source: &mut S,
) -> (Course, Next)
    ensures name { S.name source.new ≡ S.name source.old }
    ensures answers { AnswersFrame result.1 (streaming cutter.old piece.old course)
        (S.left source.old)
        (streaming cutter.new piece.new result.0) (S.left source.new) }
    ensures faults { CountsFault result.1 (S.faults source.old) (S.faults source.new) }
    ensures fewer { Fewer result.1 (length piece.old + most_on course)
        (length piece.new + most_on result.0) }
    ensures lends { Lends result.1 cutter.new.frame }
    ensures ended { course ≡ Course.Ended → result.1 ≡ Next.End }
    ensures stopped { course ≡ Course.Passed → piece.old ≡ [] → result.1 ≡ Next.TooLong }
{
    let mut course = course;
    loop {
        match course {
            Course::Open(room) => match step(cutter, piece, room, source) {
                (now, Some(answer)) => return (now, answer),
                (now, None) => course = now,
            },
            Course::Ended => {
                let _none = cutter.finish();
                return (Course::Ended, Next::End);
            }
            Course::Passed => return (Course::Passed, passed_answer(cutter, piece)),
        }
    }
}

impl FrameReader {
    /// A new reader for a source that may give `limit` bytes. It takes the room of a piece and of the
    /// largest frame.
    pub fn open(alloc: Global, limit: u64) -> Result<FrameReader, Memory>
        ensures { IfOk result (λ reader. reader ≡ opened limit) }
    {
        Ok(FrameReader {
            cutter: Cutter::open(alloc)?,
            piece: Piece::open(alloc)?,
            course: Course::Open(limit),
        })
    }

    /// The next frame of the source, or why there is none. Each frame that ends within the limit is handed out before
    /// TooLong is answered; a rest that is not ended there is not handed out as Truncated. It answers Failed only where the
    /// source's count of faults rose.
    ///
    /// After End a further call answers End, and after TooLong a further call answers TooLong; neither reads. After Failed
    /// the frames ahead are as before, and a further call reads again. A source that does not tell its bytes ends where a
    /// read gives none. Takes no memory.
    pub fn next<S: Source>(&mut self, source: &mut S) -> Next
        ensures name { S.name source.new ≡ S.name source.old }
        ensures answers { AnswersFrame result self.old (S.left source.old) self.new
            (S.left source.new) }
        ensures faults { CountsFault result (S.faults source.old) (S.faults source.new) }
        // A measure for a caller's loop, whether the source tells its bytes or not.
        ensures fewer { Fewer result (most_ahead self.old) (most_ahead self.new) }
        ensures lends { Lends result self.new.frame }
        ensures ended { self.old.course ≡ Course.Ended → result ≡ Next.End }
        ensures stopped { self.old ≡ stopped → result ≡ Next.TooLong }
    {
        let (course, answer) = next_answer(&mut self.cutter, &mut self.piece, self.course, source);
        self.course = course;
        answer
    }

    /// The frame after an answer `Frame(Whole)`, until the next call of `next`, and else empty. Takes no memory.
    pub fn frame(&self) -> &[u8]
        ensures { result.now ≡ self.now.frame }
    {
        self.cutter.frame()
    }
}
