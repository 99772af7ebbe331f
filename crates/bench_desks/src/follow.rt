//! Loads files of libraries as `follow` does, and prints what that took. Beside the load a viewer asks without a pause, if it is to.
//!
//! Its words are `alone` or `beside`, and LIB=PATH for each library. The line that it prints has the microseconds of the load, the turns, the
//! answers that were given meanwhile, and the microseconds of the slowest of them. Without such words it says how it is used.
//! `bench/follow.sh` runs it.
use crate::measuring::{Measures, measured};
use std::alloc::Global;
use std::sync::Wait;
use std::thread::Threads;
use std::time::Clock;
use std::{env, io};
use union_base::bytes::Bytes;
use union_base::memory::Memory;
use union_io::file_shelf::FileShelf;
use union_words::libraries::Libraries;

/// Loads the files that the words after the first name.
pub fn measure<R: Threads + Wait + Sync + Clock>(rt: &R, host: &HostRuntime) -> io::Result<()> {
    let alloc = host.alloc();
    let words = words(host, alloc)?;
    let [first, files @ ..] = words.as_slice() else {
        println!(host; "usage: bench_desks follow alone|beside LIB=PATH ..")?;
        return Ok(());
    };
    let Some(libraries) = Libraries::read(files) else {
        println!(host; "usage: bench_desks follow alone|beside LIB=PATH ..")?;
        return Ok(());
    };
    let mut shelf = FileShelf::new(alloc, host.clone()?);
    let is_beside = first.bytes() == b"beside".as_slice();
    match measured(rt, alloc, &libraries, is_beside, &mut shelf) {
        Ok(
            Measures {
                load,
                turns,
                answers,
                slowest,
            },
        ) => println!(host; "load {load} turns {turns} answers {answers} slowest {slowest}"),
        Err(Memory) => println!(host; "not loaded"),
    }
}

/// The words after the first.
fn words(host: &HostRuntime, alloc: Global) -> io::Result<Vec<Bytes>> {
    let mut words = Vec::new(alloc);
    for word in env::args(host)?.skip(2) {
        if let Ok(word) = Bytes::of(alloc, word.as_str().as_bytes()) {
            words.push(word)?;
        }
    }
    Ok(words)
}
