//! What no clause says: the objects in memory on their scripts, and the adapters on real files, streams and pipes.
ghost use Rattle.std.specs.Prelude.{◌≡◌, ◌<◌, length};

use std::alloc::Global;
use std::fs::OpenOptions;
use std::io::{ErrorKind, Read, Write};
use std::test::Fail;
use std::{fs, io};
use union_base::bytes::Bytes;
use union_base::memory::Memory;
use union_io::failed::Failed;
use union_io::file_shelf::FileShelf;
use union_io::gate::{Gate, OpenGate};
use union_io::mem_shelf::MemShelf;
use union_io::mem_sink::MemSink;
use union_io::mem_source::MemSource;
use union_io::reader_source::ReaderSource;
use union_io::shelf::{OpenFail, Shelf};
use union_io::sink::{Sink, put_all};
use union_io::source::Source;
use union_io::sure_shelf::SureShelf;
use union_io::sure_sink::SureSink;
use union_io::sure_source::SureSource;
use union_io::writer_sink::{ErrSink, OutSink, WriterSink};

/// Appends what one read answers: its bytes, `.` for the end or `!` for a failure, and then a bar.
fn read_once<S: Source>(source: &mut S, into: &mut [u8], text: &mut Vec<u8>) -> Result<(), Memory>
    requires { 0 < length into.old }
    ensures { S.name source.new ≡ S.name source.old }
{
    let answer: &[u8] = match source.read(into) {
        Ok(0) => b".",
        Ok(count) => into.split_at(count).0,
        Err(Failed) => b"!",
    };
    text.extend_from_slice(answer)?;
    text.push(b'|')?;
    Ok(())
}

/// What `calls` reads answer.
fn reads<S: Source>(
    alloc: Global,
    source: &mut S,
    into: &mut [u8],
    calls: u32,
) -> Result<Vec<u8>, Memory>
    requires { 0 < length into.old }
    ensures { S.name source.new ≡ S.name source.old }
{
    let mut text = Vec::new(alloc);
    for _ in 0..calls {
        read_once(source, into, &mut text)?;
    }
    Ok(text)
}

/// What an open and then `calls` reads answer; `!` alone if the open fails. The source is given back.
fn opens<F: Shelf>(alloc: Global, shelf: &mut F, path: &[u8], calls: u32) -> Result<Vec<u8>, Fail> {
    let path = Bytes::of(alloc, path)?;
    match shelf.open(alloc, &path) {
        Ok(mut source) => {
            let text = reads(alloc, &mut source, &mut [0; 4], calls);
            shelf.give_back(source);
            Ok(text?)
        }
        Err(OpenFail::Failed) => Ok(b"!".to_vec(alloc)?),
        Err(OpenFail::Memory) => Err(Fail::from(OpenFail::Memory)),
    }
}

/// What three texts' writings answer: `.` for done, `!` for a failure.
fn writes<O: Sink>(alloc: Global, sink: &mut O) -> Result<Vec<u8>, Fail> {
    let mut text = Vec::new(alloc);
    for piece in [b"ab", b"cd", b"ef"] {
        match put_all(sink, piece) {
            Ok(()) => text.push(b'.')?,
            Err(Failed) => text.push(b'!')?,
        }
    }
    Ok(text)
}

/// The read of `abcdefg` that fails, and what five reads answer.
static READS: [(u64, &[u8]); 4] = [
    (0, b"abc|def|g|.|.|"),
    (1, b"!|abc|def|g|.|"),
    (2, b"abc|!|def|g|.|"),
    (3, b"abc|def|!|g|.|"),
];

/// What five reads of `abcdefg` answer, in pieces of three bytes, where the read of that number fails.
fn scripted_reads(alloc: Global, fail: u64) -> Result<Vec<u8>, Memory> {
    let fails = [fail].to_vec(alloc)?;
    let mut source = MemSource::of(Bytes::of(alloc, b"abcdefg")?, fails, 3);
    reads(alloc, &mut source, &mut [0; 8], 5)
}

#[test]
fn scripted_sources(rt: HostRuntime) -> Result<(), Fail> {
    for (fail, want) in &READS {
        let got = scripted_reads(rt.alloc(), *fail)?;
        assert_eq!(rt; got.as_slice(), *want, "fails at {fail}");
    }
    let mut sure = SureSource::of(Bytes::of(rt.alloc(), b"abcdefg")?, 5);
    let got = reads(rt.alloc(), &mut sure, &mut [0; 4], 3)?;
    assert_eq!(rt; got.as_slice(), b"abcd|efg|.|".as_slice());
    Ok(())
}

/// The writing that fails, the room, the limit, and what three writings answer, with a bar and the content after.
static WRITES: [(u64, usize, usize, &[u8]); 6] = [
    (0, 9, 9, b"...|abcdef"),
    (1, 9, 9, b"!..|cdef"),
    (2, 9, 9, b".!.|abef"),
    (3, 9, 9, b"..!|abcd"),
    (0, 9, 3, b".!!|abc"),
    (0, 2, 9, b".!!|ab"),
];

/// What three texts' writings answer, with a bar and the content after, where the writing of that number fails.
fn scripted_writes(alloc: Global, fail: u64, room: usize, limit: usize) -> Result<Vec<u8>, Fail> {
    let fails = [fail].to_vec(alloc)?;
    let mut sink = MemSink::new(fails, Vec::with_capacity(alloc, room)?, limit);
    let mut text = writes(alloc, &mut sink)?;
    text.push(b'|')?;
    text.extend_from_slice(sink.content())?;
    Ok(text)
}

#[test]
fn scripted_sinks(rt: HostRuntime) -> Result<(), Fail> {
    for (fail, room, limit, want) in &WRITES {
        let got = scripted_writes(rt.alloc(), *fail, *room, *limit)?;
        assert_eq!(rt;
            got.as_slice(),
            *want,
            "fails at {fail}, room {room}, limit {limit}"
        );
    }
    assert!(rt; takes_all(rt.alloc(), &mut SureSink::new())?);
    Ok(())
}

/// Whether three texts are written.
fn takes_all<O: Sink>(alloc: Global, sink: &mut O) -> Result<bool, Fail> {
    Ok(writes(alloc, sink)?.as_slice() == b"...".as_slice())
}

/// Whether no text is written.
fn takes_none<O: Sink>(alloc: Global, sink: &mut O) -> Result<bool, Fail> {
    Ok(writes(alloc, sink)?.as_slice() == b"!!!".as_slice())
}

/// The open that fails, and what the opens of a file that is there, of one that is not and of the first again answer.
static OPENS: [(u64, &[u8]); 4] = [
    (0, b"one!|.|!one!|.|"),
    (1, b"!!one!|.|"),
    (2, b"one!|.|!one!|.|"),
    (3, b"one!|.|!!"),
];

/// A shelf on which `a.mrc` was put twice, whose open of that number fails.
fn scripted_shelf(alloc: Global, fail: u64) -> Result<MemShelf, Memory> {
    let mut shelf = MemShelf::new(alloc);
    let name = Bytes::of(alloc, b"a.mrc")?;
    shelf.put(name, Bytes::of(alloc, b"old")?, Vec::new(alloc), 1)?;
    let name = Bytes::of(alloc, b"a.mrc")?;
    shelf.put(name, Bytes::of(alloc, b"one!")?, Vec::new(alloc), 9)?;
    shelf.fail_opens([fail].to_vec(alloc)?);
    Ok(shelf)
}

/// What the opens of `a.mrc`, `b.mrc` and `a.mrc` answer, each with `calls` reads, one after the other.
fn three_opens<F: Shelf>(alloc: Global, shelf: &mut F, calls: u32) -> Result<Vec<u8>, Fail> {
    let mut text = Vec::new(alloc);
    for path in [b"a.mrc", b"b.mrc", b"a.mrc"] {
        text.extend_from_slice(&opens(alloc, shelf, path, calls)?)?;
    }
    Ok(text)
}

#[test]
fn scripted_shelves(rt: HostRuntime) -> Result<(), Fail> {
    for (fail, want) in &OPENS {
        let got = three_opens(rt.alloc(), &mut scripted_shelf(rt.alloc(), *fail)?, 2)?;
        assert_eq!(rt; got.as_slice(), *want, "fails at {fail}");
    }
    let mut sure = SureShelf::new(rt.alloc());
    let name = Bytes::of(rt.alloc(), b"a.mrc")?;
    sure.put(name, Bytes::of(rt.alloc(), b"one")?, 2)?;
    let got = three_opens(rt.alloc(), &mut sure, 3)?;
    assert_eq!(rt; got.as_slice(), b"on|e|.|.|.|.|on|e|.|".as_slice());
    Ok(())
}

/// Paths of real files, and what an open and four reads answer.
static FILES: [(&[u8], &[u8]); 4] = [
    (b"records.mrc", b"0123|4567|89|.|"),
    (b"missing.mrc", b"!"),
    (b"\xFF.mrc", b"!"),
    // a folder can be opened, and its reads fail
    (b".", b"!|!|!|!|"),
];

#[test]
fn real_files(rt: HostRuntime) -> Result<(), Fail> {
    fs::write(&rt, "records.mrc", b"0123456789".as_slice())?;
    let mut shelf = FileShelf::new(rt.alloc(), &rt);
    for (path, want) in &FILES {
        let got = opens(rt.alloc(), &mut shelf, path, 4)?;
        assert_eq!(rt; got.as_slice(), *want);
    }
    Ok(())
}

#[test]
fn real_outputs(rt: HostRuntime) -> Result<(), Fail> {
    assert!(rt; takes_all(rt.alloc(), &mut OutSink::of(rt.stdout()))?);
    assert!(rt; takes_all(rt.alloc(), &mut ErrSink::of(rt.stderr()))?);
    let file = fs::create(&rt, "out.mrc")?;
    assert!(rt; takes_all(rt.alloc(), &mut WriterSink::of(file))?);
    assert_eq!(rt; fs::read(&rt, "out.mrc")?.as_slice(), b"abcdef".as_slice());
    Ok(())
}

/// A device that is always full, and a pipe whose reader is closed.
#[test]
fn closed_outputs(rt: HostRuntime) -> Result<(), Fail> {
    let full = OpenOptions::new().write(true).open(&rt, "/dev/full")?;
    assert!(rt; takes_none(rt.alloc(), &mut WriterSink::of(full))?);
    let (reader, writer) = io::pipe(&rt)?;
    drop(reader);
    assert!(rt; takes_none(rt.alloc(), &mut WriterSink::of(writer))?);
    Ok(())
}

/// Reads `x` but for one call in two, which fails; takes one byte a write, until `room` bytes were taken, and then none.
#[derive(Drop)]
struct Faulty {
    calls: u8,
    room: u8,
}

impl Read for Faulty {
    fn read(&mut self, buf: &mut [u8]) -> io::Result<usize> {
        self.calls = self.calls.wrapping_add(1);
        if self.calls % 2 == 0 {
            return Err(io::Error::from(ErrorKind::Other));
        }
        if buf.is_empty() {
            return Ok(0);
        }
        buf[0] = b'x';
        Ok(1)
    }
}

impl Write for Faulty {
    fn write(&mut self, buf: &[u8]) -> io::Result<usize> {
        if buf.is_empty() || self.room == 0 {
            return Ok(0);
        }
        self.room -= 1;
        Ok(1)
    }

    fn flush(&mut self) -> io::Result<()> {
        Ok(())
    }
}

/// What four reads of the faulty stream answer.
fn faulty_reads(alloc: Global) -> Result<Vec<u8>, Memory> {
    let name = Bytes::of(alloc, b"faulty")?;
    let mut source = ReaderSource::of(name, Faulty { calls: 0, room: 0 });
    reads(alloc, &mut source, &mut [0; 4], 4)
}

#[test]
fn faulty_streams(rt: HostRuntime) -> Result<(), Fail> {
    assert_eq!(rt;
        faulty_reads(rt.alloc())?.as_slice(),
        b"x|!|x|!|".as_slice()
    );
    let mut sink = WriterSink::of(Faulty { calls: 0, room: 3 });
    assert_eq!(rt;
        writes(rt.alloc(), &mut sink)?.as_slice(),
        b".!!".as_slice()
    );
    OpenGate.before_turn(0, 0);
    OpenGate.after_turn(0, 0);
    Ok(())
}
