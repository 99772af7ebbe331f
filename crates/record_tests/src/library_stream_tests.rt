//! The streams from outside in several pieces, limits that are met and passed, and a read that fails. `count_frames` is the
//! loop of a caller that keeps no frame, and `frames_of` of one that keeps each.
ghost use Rattle.std.specs.Prelude.{◌≡◌, ◌≢◌, ◌<◌, ◌≤◌, length, IfOk, IfSome};
ghost use Rattle.iso2709_frame.specs.Frames.{frames};
ghost use Rattle.library_stream.specs.Answering.{AllHanded, FrontHanded};

use crate::frames::ONE;
use crate::streams::{MOST_PIECES, STREAMS, cuts_of, stream_of};
use iso2709_frame::cut::Cut;
use library_stream::answer::Next;
use library_stream::frame_reader::{FrameReader, LARGEST_SOURCE};
use std::alloc::Global;
use std::test::Fail;
use union_base::bytes::Bytes;
use union_base::copied::Copied;
use union_base::memory::Memory;
use union_io::mem_source::MemSource;
use union_io::source::Source;
use union_io::sure_source::SureSource;

/// How many frames the source has, and why it was read no further.
fn count_frames<S: Source>(alloc: Global, limit: u64, source: &mut S) -> Result<(u64, Next), Memory>
    requires { limit ≤ LARGEST_SOURCE }
    ensures name { S.name source.new ≡ S.name source.old }
    ensures all { IfOk result (λ counted. counted.1 ≡ Next.End
        → IfSome (S.left source.old) (λ bytes. (length bytes ≤ limit)
        × (counted.0 ≡ length (frames bytes)))) }
    ensures passes { IfOk result (λ counted. counted.1 ≡ Next.TooLong
        → IfSome (S.left source.old) (λ bytes. limit < length bytes)) }
    ensures calm { IfOk result (λ counted. counted.1 ≢ Next.Failed
        → S.faults source.new ≡ S.faults source.old) }
{
    let mut reader = FrameReader::open(alloc, limit)?;
    let mut count = 0;
    loop {
        match reader.next(source) {
            Next::Frame(_) => count += 1,
            Next::End => return Ok((count, Next::End)),
            Next::TooLong => return Ok((count, Next::TooLong)),
            Next::Failed => return Ok((count, Next::Failed)),
        }
    }
}

/// The frames of the source, and why it was read no further.
fn frames_of<S: Source>(
    alloc: Global,
    limit: u64,
    source: &mut S,
) -> Result<(Vec<(Cut, Bytes)>, Next), Memory>
    ensures all { IfOk result (λ read. read.1 ≡ Next.End
        → IfSome (S.left source.old) (λ bytes. AllHanded limit bytes read.0.items)) }
    ensures front { IfOk result (λ read. read.1 ≡ Next.TooLong
        → IfSome (S.left source.old) (λ bytes. FrontHanded limit bytes read.0.items)) }
{
    let mut reader = FrameReader::open(alloc, limit)?;
    let mut cuts = Vec::new(alloc);
    loop {
        match reader.next(source) {
            Next::Frame(cut) => cuts.push((cut, Bytes::of(alloc, reader.frame())?))?,
            Next::End => return Ok((cuts, Next::End)),
            Next::TooLong => return Ok((cuts, Next::TooLong)),
            Next::Failed => return Ok((cuts, Next::Failed)),
        }
    }
}

#[test]
fn streams_are_read_whatever_their_pieces(rt: HostRuntime) -> Result<(), Fail> {
    let alloc = rt.alloc();
    for number in 0..STREAMS {
        let stream = stream_of(alloc, number)?;
        let want = cuts_of(alloc, number, stream.bytes())?;
        for most in [1, 7, 65_536] {
            if stream.bytes().len() / most < MOST_PIECES {
                let mut source = SureSource::of(stream.copied(alloc)?, most);
                let (cuts, why) = frames_of(alloc, LARGEST_SOURCE, &mut source)?;
                assert!(rt;
                    why == Next::End && cuts.as_slice() == want.as_slice(),
                    "stream {number} in pieces of {most}"
                );
            }
        }
    }
    Ok(())
}

/// `times` records, and a text after them.
fn records(alloc: Global, times: usize, tail: &[u8]) -> Result<Bytes, Memory> {
    let mut stream = Vec::new(alloc);
    for _ in 0..times {
        stream.extend_from_slice(ONE)?;
    }
    stream.extend_from_slice(tail)?;
    Ok(Bytes::from(stream))
}

/// How many records, what is after them, the limit, how many frames are handed out, and what comes then.
static LIMITS: [(usize, &[u8], u32, u64, Next); 14] = [
    (0, b"", 1, 0, Next::End),
    (0, b"\r\n", 2, 0, Next::End),
    (0, b"\r\n", 1, 0, Next::TooLong),
    (0, b"\x1d", 1, 1, Next::End),
    (2, b"", 228, 2, Next::End),
    (3, b"", 228, 2, Next::TooLong),
    (2, b"\n", 228, 2, Next::TooLong),
    (2, b"\n", 229, 2, Next::End),
    (2, b"", 227, 1, Next::TooLong),
    (2, b"ab", 228, 2, Next::TooLong),
    (2, b"ab", 229, 2, Next::TooLong),
    (2, b"ab", 230, 3, Next::End),
    (600, b"", 68_400, 600, Next::End),
    (600, b"", 68_399, 599, Next::TooLong),
];

#[test]
fn limits_are_met_and_passed(rt: HostRuntime) -> Result<(), Fail> {
    let alloc = rt.alloc();
    for (times, tail, limit, count, why) in &LIMITS {
        for most in [1, 100, 65_536] {
            let mut source = SureSource::of(records(alloc, *times, tail)?, most);
            let got = count_frames(alloc, u64::from(*limit), &mut source)?;
            assert!(rt; got == (*count, *why), "limit {limit} in pieces of {most}");
        }
    }
    Ok(())
}

/// What `calls` calls answer, a letter each: W whole, T truncated, L a frame that is too long, E the end, X too long, F
/// failed; and a small letter where a frame is lent, or else a full stop.
fn answers<S: Source>(
    alloc: Global,
    limit: u64,
    source: &mut S,
    calls: u32,
) -> Result<Vec<u8>, Memory> {
    let mut reader = FrameReader::open(alloc, limit)?;
    let mut text = Vec::new(alloc);
    for _ in 0..calls {
        text.push(match reader.next(source) {
            Next::Frame(Cut::Whole) => b'W',
            Next::Frame(Cut::Truncated) => b'T',
            Next::Frame(Cut::TooLong) => b'L',
            Next::End => b'E',
            Next::TooLong => b'X',
            Next::Failed => b'F',
        })?;
        text.push(reader.frame().first().copied().unwrap_or(b'.'))?;
    }
    Ok(text)
}

/// The number of the read that fails, the limit, and what is answered on `a%b%c` in pieces of two bytes.
static FAILS: [(u64, u64, &[u8]); 7] = [
    (0, 5, b"WaWbT.E.E.E."),
    (0, 4, b"WaWbX.X.X.X."),
    (0, 3, b"WaX.X.X.X.X."),
    (1, 5, b"F.WaWbT.E.E."),
    (2, 5, b"WaF.WbT.E.E."),
    (3, 5, b"WaWbF.T.E.E."),
    (4, 5, b"WaWbF.T.E.E."),
];

/// A source of those bytes in those pieces, whose read of that number fails.
fn failing(alloc: Global, fail: u64) -> Result<MemSource, Memory> {
    let fails = [fail].to_vec(alloc)?;
    Ok(MemSource::of(Bytes::of(alloc, b"a\x1db\x1dc")?, fails, 2))
}

#[test]
fn a_failed_read_takes_nothing(rt: HostRuntime) -> Result<(), Fail> {
    let alloc = rt.alloc();
    for (fail, limit, want) in &FAILS {
        let mut source = failing(alloc, *fail)?;
        let got = answers(alloc, *limit, &mut source, 6)?;
        assert!(rt; got.as_slice() == *want, "read {fail} fails, limit {limit}");
    }
    Ok(())
}
