//! Runs of the program over three files in memory, and the faults that such a run may meet.
use crate::texts::words_between;
use key_hashing::hashing::Hashing;
use std::alloc::Global;
use std::sync::Wait;
use std::test::Fail;
use std::thread::Threads;
use union_base::bytes::Bytes;
use union_base::library_code::LibraryCode;
use union_base::memory::Memory;
use union_io::gate::{Gate, OpenGate};
use union_io::mem_shelf::MemShelf;
use union_io::mem_sink::MemSink;
use union_program::host::Host;
use union_program::run::union_run;
use union_words::input::Input;
use union_words::status::Status;

/// The files `a`, `b` and `c`, and which calls fail, each by its number from 1.
#[derive(Clone, Copy)]
pub struct Files<'a> {
    pub contents: [&'a [u8]; 3],
    /// Which openings fail.
    pub opens: &'a [u64],
    /// Which reads fail of each file.
    pub reads: [&'a [u64]; 3],
    /// How many bytes a read gives at most.
    pub most: usize,
    /// How many bytes the output takes.
    pub limit: usize,
    /// Which writes of notes fail.
    pub notes: &'a [u64],
}

/// The files of that content; no call on them fails.
pub fn calm<'a>(a: &'a [u8], b: &'a [u8], c: &'a [u8]) -> Files<'a> {
    Files {
        contents: [a, b, c],
        opens: &[],
        reads: [&[], &[], &[]],
        most: 4096,
        limit: 100_000,
        notes: &[],
    }
}

/// The library of that code, as an input.
pub fn library(code: &[u8]) -> Result<Input, Fail> {
    Ok(Input::Library(LibraryCode::read(code).ok_or("a code")?))
}

/// Puts a file into the shelf.
pub fn put(
    alloc: Global,
    shelf: &mut MemShelf,
    name: &[u8],
    content: &[u8],
    failing: &[u64],
    most: usize,
) -> Result<(), Memory> {
    let name = Bytes::of(alloc, name)?;
    let content = Bytes::of(alloc, content)?;
    let failing = failing.to_vec(alloc)?;
    shelf.put(name, content, failing, most.max(1))
}

/// A shelf with the three files.
pub fn shelf_of(alloc: Global, files: &Files<'_>) -> Result<MemShelf, Memory> {
    let [a, b, c] = files.contents;
    let [of_a, of_b, of_c] = files.reads;
    let mut shelf = MemShelf::new(alloc);
    put(alloc, &mut shelf, b"a", a, of_a, files.most)?;
    put(alloc, &mut shelf, b"b", b, of_b, files.most)?;
    put(alloc, &mut shelf, b"c", c, of_c, files.most)?;
    shelf.fail_opens(files.opens.to_vec(alloc)?);
    Ok(shelf)
}

/// A sink that takes `limit` bytes, and of which the writes `failing` fail.
fn sink(alloc: Global, failing: &[u64], limit: usize) -> Result<MemSink, Memory> {
    Ok(MemSink::new(
        failing.to_vec(alloc)?,
        Vec::with_capacity(alloc, limit)?,
        limit,
    ))
}

/// Runs the words of the line over the files: the status, and what was written on each of the two outputs.
pub fn run<R: Threads + Wait + Sync, G: Gate>(
    rt: &R,
    alloc: Global,
    line: &[u8],
    files: &Files<'_>,
    gate: &G,
) -> Result<(Status, MemSink, MemSink), Memory> {
    let words = words_between(alloc, line, b' ')?;
    let mut shelf = shelf_of(alloc, files)?;
    let mut out = sink(alloc, &[], files.limit)?;
    let mut notes = sink(alloc, files.notes, 4096)?;
    let host = Host {
        rt,
        alloc,
        hashing: Hashing::fixed(),
        gate,
    };
    let status = union_run(&host, words.as_slice(), &mut shelf, &mut out, &mut notes);
    Ok((status, out, notes))
}

/// Whether the run of the words over the files ends so and writes these texts on its two outputs.
pub fn ends<R: Threads + Wait + Sync>(
    rt: &R,
    alloc: Global,
    line: &[u8],
    files: &Files<'_>,
    status: Status,
    texts: (&[u8], &[u8]),
) -> Result<bool, Memory> {
    let (ended, out, notes) = run(rt, alloc, line, files, &OpenGate)?;
    Ok(ended == status && out.content() == texts.0 && notes.content() == texts.1)
}
