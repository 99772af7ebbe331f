//! Takes turns at a desk over a machine that appends a number, and prints how many turns were finished.
//!
//! Its words are THREADS, which is 1, 2 or 4, and TURNS, which each thread takes; without them four threads take 25 each.
//! `bench/desk.sh` times it beside std's Mutex.
use crate::threads::run;
use std::sync::Wait;
use std::thread::Threads;
use std::{env, io};

/// Takes as many turns as the words after the first say.
pub fn measure<R: Threads + Wait + Sync>(rt: &R, host: &HostRuntime) -> io::Result<()> {
    let (mut threads, mut turns) = (4u64, 25u64);
    for (place, word) in env::args(host)?.enumerate() {
        match (place, word.parse::<u64>()) {
            (2, Ok(number)) => threads = number,
            (3, Ok(number)) => turns = number,
            _ => (),
        }
    }
    if let Ok(finished) = run(rt, host.alloc(), threads, turns) {
        println!(host; "{finished}")?;
    }
    Ok(())
}
