//! Sources of few and of many records in pieces of several sizes, refused frames among them, limits, and a read that fails; by one
//! reader, with several workers, and in rounds. `batches_of` is the loop of a caller that keeps each batch.
ghost use Rattle.std.specs.Prelude.{◌≤◌};

use catalogue_core::batch::Batch;
use catalogue_core::op::Op;
use catalogue_core::outcome::Outcome;
use field_merge::preference::Preference;
use library_batches::batch_reader::BatchReader;
use library_batches::outcome_counts::OutcomeCounts;
use library_batches::refused::RefusedFrame;
use library_batches::several::Round;
use library_batches::stop::Stop;
use library_stream::frame_reader::LARGEST_SOURCE;
use marc_fields::rules::Rule;
use std::alloc::Global;
use std::test::Fail;
use std::thread::Threads;
use union_base::bytes::Bytes;
use union_base::library_code::LibraryCode;
use union_base::memory::Memory;
use union_io::mem_source::MemSource;
use union_io::source::Source;
use union_io::sure_source::SureSource;

/// A record with the control number `id`.
const ONE: &[u8] =
    b"00114nam a2200061 a 4500001000300000008004100003245000800044\x1Eid\x1E240101s1999    xx                  eng d\x1E00\x1FaCat\x1E\x1D";

/// A withdrawal of the record `b1`.
const WITHDRAWAL: &[u8] = b"00041dam a2200037 a 4500001000300000\x1Eb1\x1E\x1D";

/// All batches of the source, and the reader as it is then.
fn batches_of<S: Source>(
    alloc: Global,
    library: &LibraryCode,
    limit: u64,
    source: &mut S,
) -> Result<(Vec<Batch>, BatchReader), Stop>
    requires { limit ≤ LARGEST_SOURCE }
{
    let mut reader = BatchReader::open(alloc, &Preference::none(), library, limit)?;
    let mut batches = Vec::new(alloc);
    loop {
        match reader.next(alloc, source)? {
            Some(batch) => keep(&mut batches, batch)?,
            None => return Ok((batches, reader)),
        }
    }
}

/// The same with the frames checked by so many workers.
fn batches_by<R: Threads + Sync, S: Source>(
    rt: &R,
    alloc: Global,
    library: &LibraryCode,
    source: &mut S,
    workers: u32,
) -> Result<(Vec<Batch>, BatchReader), Stop>
    requires least { 1 ≤ workers }
    requires most { workers ≤ 64 }
{
    let mut reader = BatchReader::open(alloc, &Preference::none(), library, LARGEST_SOURCE)?;
    let mut batches = Vec::new(alloc);
    loop {
        match reader.next_by(rt, alloc, source, workers)? {
            Some(batch) => keep(&mut batches, batch)?,
            None => return Ok((batches, reader)),
        }
    }
}

/// The same, round by round.
fn batches_in_rounds<R: Threads + Sync, S: Source>(
    rt: &R,
    alloc: Global,
    library: &LibraryCode,
    source: &mut S,
    workers: u32,
) -> Result<(Vec<Batch>, BatchReader), Stop>
    requires { 1 ≤ workers }
{
    let mut reader = BatchReader::open(alloc, &Preference::none(), library, LARGEST_SOURCE)?;
    let mut batches = Vec::new(alloc);
    loop {
        let Round {
            batches: mut more,
            ended,
        } = reader.next_round(rt, alloc, source, workers)?;
        batches.append(&mut more)?;
        if ended {
            return Ok((batches, reader));
        }
    }
}

/// Keeps one batch more.
fn keep(batches: &mut Vec<Batch>, batch: Batch) -> Result<(), Memory> {
    batches.push(batch)?;
    Ok(())
}

/// A text for each batch: its library, and a letter for each operation, L for a load and W for a withdrawal.
fn shown(alloc: Global, batches: &[Batch]) -> Result<Vec<u8>, Memory> {
    let mut text = Vec::new(alloc);
    for batch in batches {
        text.extend_from_slice(batch.library.bytes())?;
        text.push(b':')?;
        for op in batch.ops.as_slice() {
            match op {
                Op::Load(_) => text.push(b'L')?,
                Op::Withdraw(_) => text.push(b'W')?,
            }
        }
        text.push(b'.')?;
    }
    Ok(text)
}

/// `times` records, and a text after them.
fn records(alloc: Global, times: usize, tail: &[u8]) -> Result<Bytes, Memory> {
    let mut stream = Vec::new(alloc);
    for _ in 0..times {
        stream.extend_from_slice(ONE)?;
    }
    stream.extend_from_slice(tail)?;
    Ok(Bytes::from(stream))
}

/// 321 frames: 280 records, a refused frame after each seventh of them, and a withdrawal.
fn mixed(alloc: Global) -> Result<Bytes, Memory> {
    let mut stream = Vec::new(alloc);
    for place in 1..281 {
        stream.extend_from_slice(ONE)?;
        if place % 7 == 0 {
            stream.push(b'\x1D')?;
        }
    }
    stream.extend_from_slice(WITHDRAWAL)?;
    Ok(Bytes::from(stream))
}

#[test]
fn a_refused_frame_is_between_two_operations(rt: HostRuntime) -> Result<(), Fail> {
    let alloc = rt.alloc();
    let library = LibraryCode::read(b"LIBA").ok_or("a library code")?;
    let tail: [&[u8]; 2] = [b"\x1D", WITHDRAWAL];
    let tail = tail.concat(alloc)?;
    for most in [1, 50, 4096] {
        let mut source = SureSource::of(records(alloc, 1, tail.as_slice())?, most);
        let (batches, reader) = batches_of(alloc, &library, LARGEST_SOURCE, &mut source)?;
        let text = shown(alloc, batches.as_slice())?;
        assert_eq!(rt; text.as_slice(), b"LIBA:LW.".as_slice(), "pieces of {most}");
        assert_eq!(rt; reader.frames(), 3);
        let refused = RefusedFrame {
            frame: 2,
            rule: Rule::TooShort,
            place: 0,
        };
        assert!(rt; reader.refused() == [refused].as_slice());
    }
    Ok(())
}

#[test]
fn a_second_batch_begins_after_256_frames(rt: HostRuntime) -> Result<(), Fail> {
    let alloc = rt.alloc();
    let library = LibraryCode::read(b"LIBA").ok_or("a library code")?;
    let mut source = SureSource::of(records(alloc, 257, b"")?, 4096);
    let (batches, reader) = batches_of(alloc, &library, LARGEST_SOURCE, &mut source)?;
    let lengths = (
        batches.len(),
        batches.first().map(|batch| batch.ops.as_slice().len()),
        batches.last().map(|batch| batch.ops.as_slice().len()),
    );
    assert!(rt; lengths == (2, Some(256), Some(1)));
    assert_eq!(rt; reader.frames(), 257);
    Ok(())
}

#[test]
fn the_reading_stops_at_the_limit_and_at_a_failure(rt: HostRuntime) -> Result<(), Fail> {
    let alloc = rt.alloc();
    let library = LibraryCode::read(b"LIBA").ok_or("a library code")?;
    let mut long = SureSource::of(records(alloc, 2, b"")?, 100);
    let answer = batches_of(alloc, &library, 227, &mut long);
    assert!(rt; matches!(&answer, Err(Stop::TooLong)));
    let mut met = SureSource::of(records(alloc, 2, b"")?, 100);
    let answer = batches_of(alloc, &library, 228, &mut met);
    assert!(rt; answer.is_ok());
    let mut failing = MemSource::of(records(alloc, 2, b"")?, [1].to_vec(alloc)?, 100);
    let answer = batches_of(alloc, &library, 228, &mut failing);
    assert!(rt; matches!(&answer, Err(Stop::Failed)));
    Ok(())
}

/// Whether so many workers hand out batches with this text, of all 321 frames, and refuse these.
fn are_handed_out<R: Threads + Sync>(
    rt: &R,
    alloc: Global,
    library: &LibraryCode,
    workers: u32,
    text: &[u8],
    refused: &[RefusedFrame],
) -> Result<bool, Stop>
    requires least { 1 ≤ workers }
    requires most { workers ≤ 64 }
{
    let mut source = SureSource::of(mixed(alloc)?, 4096);
    let (batches, reader) = batches_by(rt, alloc, library, &mut source, workers)?;
    let found = shown(alloc, batches.as_slice())?;
    Ok(found.as_slice() == text && reader.frames() == 321 && reader.refused() == refused)
}

#[test]
fn several_workers_hand_out_the_same(rt: HostRuntime) -> Result<(), Fail> {
    let alloc = rt.alloc();
    let library = LibraryCode::read(b"LIBA").ok_or("a library code")?;
    let mut source = SureSource::of(mixed(alloc)?, 4096);
    let (batches, alone) = batches_of(alloc, &library, LARGEST_SOURCE, &mut source)?;
    let text = shown(alloc, batches.as_slice())?;
    assert!(rt; (batches.len(), alone.frames(), alone.refused().len()) == (2, 321, 40));
    let same = are_handed_out(&rt, alloc, &library, 1, text.as_slice(), alone.refused())?;
    assert!(rt; same, "one worker");
    let same = are_handed_out(&rt, alloc, &library, 2, text.as_slice(), alone.refused())?;
    assert!(rt; same, "two workers");
    let same = are_handed_out(&rt, alloc, &library, 3, text.as_slice(), alone.refused())?;
    assert!(rt; same, "three workers");
    Ok(())
}

/// Whether rounds by so many workers have batches with this text, of all 321 frames, and refuse these.
fn are_in_rounds<R: Threads + Sync>(
    rt: &R,
    alloc: Global,
    library: &LibraryCode,
    workers: u32,
    text: &[u8],
    refused: &[RefusedFrame],
) -> Result<bool, Stop>
    requires { 1 ≤ workers }
{
    let mut source = SureSource::of(mixed(alloc)?, 4096);
    let (batches, reader) = batches_in_rounds(rt, alloc, library, &mut source, workers)?;
    let found = shown(alloc, batches.as_slice())?;
    Ok(found.as_slice() == text && reader.frames() == 321 && reader.refused() == refused)
}

#[test]
fn rounds_have_the_same_batches(rt: HostRuntime) -> Result<(), Fail> {
    let alloc = rt.alloc();
    let library = LibraryCode::read(b"LIBA").ok_or("a library code")?;
    let mut source = SureSource::of(mixed(alloc)?, 4096);
    let (batches, alone) = batches_of(alloc, &library, LARGEST_SOURCE, &mut source)?;
    let text = shown(alloc, batches.as_slice())?;
    let same = are_in_rounds(&rt, alloc, &library, 1, text.as_slice(), alone.refused())?;
    assert!(rt; same, "one worker");
    let same = are_in_rounds(&rt, alloc, &library, 3, text.as_slice(), alone.refused())?;
    assert!(rt; same, "three workers");
    Ok(())
}

#[test]
fn a_round_stops_where_a_read_fails(rt: HostRuntime) -> Result<(), Fail> {
    let alloc = rt.alloc();
    let library = LibraryCode::read(b"LIBA").ok_or("a library code")?;
    let mut failing = MemSource::of(mixed(alloc)?, [2].to_vec(alloc)?, 4096);
    let none = Preference::none();
    let mut reader = BatchReader::open(alloc, &none, &library, LARGEST_SOURCE)?;
    let answer = reader.next_round(&rt, alloc, &mut failing, 2);
    assert!(rt; matches!(&answer, Err(Stop::Failed)));
    assert_eq!(rt; (reader.frames(), reader.refused().len()), (40, 5));
    Ok(())
}

#[test]
fn several_workers_stop_where_a_read_fails(rt: HostRuntime) -> Result<(), Fail> {
    let alloc = rt.alloc();
    let library = LibraryCode::read(b"LIBA").ok_or("a library code")?;
    for workers in [1, 2, 3] {
        let mut failing = MemSource::of(mixed(alloc)?, [2].to_vec(alloc)?, 4096);
        let none = Preference::none();
        let mut reader = BatchReader::open(alloc, &none, &library, LARGEST_SOURCE)?;
        let answer = reader.next_by(&rt, alloc, &mut failing, workers);
        assert!(rt; matches!(&answer, Err(Stop::Failed)));
        assert_eq!(rt; reader.frames(), 40, "{workers} workers");
        assert_eq!(rt; reader.refused().len(), 5, "{workers} workers");
    }
    Ok(())
}

#[test]
fn outcomes_are_counted(rt: HostRuntime) -> Result<(), Fail> {
    let mut counts = OutcomeCounts::new();
    counts.count(&[Outcome::Added, Outcome::Absent, Outcome::Added]);
    counts.count(&[Outcome::Removed, Outcome::Replaced, Outcome::Added]);
    let found = (counts.added, counts.replaced, counts.removed, counts.absent);
    assert!(rt; found == (3, 1, 1, 1));
    Ok(())
}
