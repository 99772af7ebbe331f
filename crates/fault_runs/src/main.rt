//! Runs whose calls can fail one by one, or whose turns are held by a gate, as no run of the program alone can.
//!
//! Without words all are made, and lines for each say how it ended: the faults of files in memory, the gates, and the batch. With words
//! one is made, so that `tests/refused` can refuse its calls in turn:
//!
//! - `order WHAT LOOKS` and `meeting WHAT LOOKS`: two sessions by two workers, which load the files `a` and `b` and are held by that gate
//!   for LOOKS looks. WHAT is `sessions`, `watch` or `export`. It reads, writes and ends as the program does.
//! - `batch`: a batch on a catalogue of four records. Writes nothing, and ends with 7 if memory ran out before the batch was applied or
//!   after it, with 8 if the batch was refused for memory, what is shown stayed as before, and a second try was applied, and with 9 if
//!   that was not so.
#![tactic(auto)]

mod batch;
mod faults;
mod files;
mod gates;
mod held;
mod records;
mod report;

use crate::batch::{Applied, apply_batch};
use crate::faults::tell_faults;
use crate::gates::{MeetingGate, OrderGate};
use crate::held::{What, run_held, tell_held, what_of};
use std::alloc::Global;
use std::env;
use std::process::ExitCode;
use std::sync::Wait;
use std::thread::Threads;
use union_base::memory::Memory;
use union_io::file_shelf::FileShelf;
use union_io::shelf::Shelf;
use union_io::sink::{Sink, put_all};
use union_io::writer_sink::{ErrSink, OutSink};
use union_words::status::Status;

/// How often a gate looks before it gives up, if the words do not say it.
const LOOKS: u64 = 200_000_000;

/// Beside the numbers of statuses, that of a batch which was refused for memory and then applied.
const AGAIN: u8 = 8;

/// That of a batch which was refused for memory, and what is shown was not as it should be then.
const CHANGED: u8 = 9;

/// The lines that say how all of the runs ended.
fn told<R: Threads + Wait + Sync>(rt: &R, alloc: Global) -> Result<Vec<u8>, Memory> {
    let mut text = Vec::new(alloc);
    tell_faults(rt, alloc, &mut text)?;
    tell_held(rt, alloc, LOOKS, &mut text)?;
    Ok(text)
}

/// Makes all of the runs and writes how they ended.
fn all<R: Threads + Wait + Sync, O: Sink>(rt: &R, alloc: Global, out: &mut O) -> Status {
    match told(rt, alloc) {
        Ok(text) => match put_all(out, text.as_slice()) {
            Ok(()) => Status::Done,
            Err(_) => Status::WriteFault,
        },
        Err(Memory) => Status::Memory,
    }
}

/// Makes the run of the batch, and answers the number with which it ends.
fn batch_run<R: Threads + Sync>(rt: &R, alloc: Global) -> u8 {
    match apply_batch(rt, alloc) {
        Ok(Applied::Whole) => Status::Done.exit_number(),
        Ok(Applied::Again) => AGAIN,
        Ok(Applied::Changed) => CHANGED,
        Err(Memory) => Status::Memory.exit_number(),
    }
}

/// Makes the run of the two sessions that the gate of that name holds.
fn held_run<R: Threads + Wait + Sync, F: Shelf, O: Sink, N: Sink>(
    rt: &R,
    alloc: Global,
    gate: &str,
    what: What,
    looks: u64,
    shelf: &mut F,
    out: &mut O,
    notes: &mut N,
) -> Status {
    if gate == "order" {
        run_held(
            rt,
            alloc,
            what,
            shelf,
            out,
            notes,
            &OrderGate::new(looks, 0),
        )
    } else {
        run_held(rt, alloc, what, shelf, out, notes, &MeetingGate::new(looks))
    }
}

/// Makes the run that the words ask for, and answers the number with which it ends.
fn run<R: Threads + Wait + Sync, F: Shelf, O: Sink, N: Sink>(
    rt: &R,
    alloc: Global,
    words: &[String],
    shelf: &mut F,
    out: &mut O,
    notes: &mut N,
) -> u8 {
    match words {
        [] => all(rt, alloc, out).exit_number(),
        [_one] => batch_run(rt, alloc),
        [gate, what, looks] => match (what_of(what.as_str()), looks.as_str().parse::<u64>()) {
            (Some(what), Ok(looks)) => {
                held_run(rt, alloc, gate.as_str(), what, looks, shelf, out, notes).exit_number()
            }
            _ => Status::Usage.exit_number(),
        },
        _ => Status::Usage.exit_number(),
    }
}

/// The words after the program's name. They are ASCII, so reading them fails only for want of memory.
fn words(rt: &HostRuntime, alloc: Global) -> Result<Vec<String>, Memory> {
    let mut words = Vec::new(alloc);
    match env::args(rt) {
        Ok(args) => {
            for word in args.skip(1) {
                words.push(word)?;
            }
            Ok(words)
        }
        Err(_) => Err(Memory),
    }
}

fn main(rt: HostRuntime) -> ExitCode {
    let alloc = rt.alloc();
    let Ok(words) = words(&rt, alloc) else {
        return ExitCode::from(Status::Memory.exit_number());
    };
    let Ok(files) = rt.clone() else {
        return ExitCode::from(Status::Memory.exit_number());
    };
    let mut shelf = FileShelf::new(alloc, files);
    let mut out = OutSink::of(rt.stdout());
    let mut notes = ErrSink::of(rt.stderr());
    ExitCode::from(run(
        &rt,
        alloc,
        words.as_slice(),
        &mut shelf,
        &mut out,
        &mut notes,
    ))
}
