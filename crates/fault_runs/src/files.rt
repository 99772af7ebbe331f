//! Files in memory, the calls on them that fail, and runs of the program over them.
use crate::records::{ONE, OTHER};
use key_hashing::hashing::Hashing;
use std::alloc::Global;
use std::sync::Wait;
use std::thread::Threads;
use union_base::bytes::Bytes;
use union_base::memory::Memory;
use union_io::gate::Gate;
use union_io::mem_shelf::MemShelf;
use union_io::mem_sink::MemSink;
use union_program::host::Host;
use union_program::run::union_run;
use union_words::status::Status;

/// How many bytes an output takes.
const ROOM: usize = 65_536;

/// How many bytes a read gives at most: a record takes two reads, and its end a third.
const PIECE: usize = 57;

/// The files, and the calls that fail, each by its number from 1.
#[derive(Clone, Copy)]
pub struct Files<'a> {
    /// The content of `b` and of `s`; `a` is a record and `q` is empty.
    pub second: &'a [u8],
    pub script: &'a [u8],
    /// Which openings fail.
    pub opens: &'a [u64],
    /// Which reads of `a` and of `b` fail.
    pub reads: [&'a [u64]; 2],
    /// Which writes of the two outputs fail.
    pub out: &'a [u64],
    pub notes: &'a [u64],
}

/// A record in each of the two files, an empty script, and no call that fails.
pub const NONE: Files<'static> = Files {
    second: OTHER,
    script: &[],
    opens: &[],
    reads: [&[], &[]],
    out: &[],
    notes: &[],
};

/// How a run ended: with which number, and what was written on its two outputs.
#[derive(Drop)]
pub struct Ended {
    pub number: u8,
    pub out: Vec<u8>,
    pub notes: Vec<u8>,
}

impl Ended {
    /// A run that ended with that status and wrote so on its two outputs.
    pub fn of(
        alloc: Global,
        status: Status,
        out: &MemSink,
        notes: &MemSink,
    ) -> Result<Ended, Memory> {
        Ok(Ended {
            number: status.exit_number(),
            out: out.content().to_vec(alloc)?,
            notes: notes.content().to_vec(alloc)?,
        })
    }
}

/// The words of a line, between blanks.
pub fn words_of(alloc: Global, line: &[u8]) -> Result<Vec<Bytes>, Memory> {
    let mut words = Vec::new(alloc);
    for word in line.split(|byte| *byte == b' ') {
        words.push(Bytes::of(alloc, word)?)?;
    }
    Ok(words)
}

fn put(
    alloc: Global,
    shelf: &mut MemShelf,
    name: &[u8],
    content: &[u8],
    failing: &[u64],
) -> Result<(), Memory> {
    let name = Bytes::of(alloc, name)?;
    let content = Bytes::of(alloc, content)?;
    shelf.put(name, content, failing.to_vec(alloc)?, PIECE)
}

/// A shelf with the files.
pub fn shelf_of(alloc: Global, files: &Files<'_>) -> Result<MemShelf, Memory> {
    let [of_a, of_b] = files.reads;
    let mut shelf = MemShelf::new(alloc);
    put(alloc, &mut shelf, b"a", ONE, of_a)?;
    put(alloc, &mut shelf, b"b", files.second, of_b)?;
    put(alloc, &mut shelf, b"q", b"", &[])?;
    put(alloc, &mut shelf, b"s", files.script, &[])?;
    shelf.fail_opens(files.opens.to_vec(alloc)?);
    Ok(shelf)
}

/// An output of which the writes `failing` fail.
pub fn sink(alloc: Global, failing: &[u64]) -> Result<MemSink, Memory> {
    let room = Vec::with_capacity(alloc, ROOM)?;
    Ok(MemSink::new(failing.to_vec(alloc)?, room, ROOM))
}

/// Runs the words of the line over the files.
pub fn run<R: Threads + Wait + Sync, G: Gate>(
    rt: &R,
    alloc: Global,
    line: &[u8],
    files: &Files<'_>,
    gate: &G,
) -> Result<Ended, Memory> {
    let words = words_of(alloc, line)?;
    let mut shelf = shelf_of(alloc, files)?;
    let mut out = sink(alloc, files.out)?;
    let mut notes = sink(alloc, files.notes)?;
    let host = Host {
        rt,
        alloc,
        hashing: Hashing::fixed(),
        gate,
    };
    let status = union_run(&host, words.as_slice(), &mut shelf, &mut out, &mut notes);
    Ended::of(alloc, status, &out, &notes)
}
