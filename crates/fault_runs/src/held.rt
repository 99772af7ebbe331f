//! Runs of two sessions by two workers whose turns a gate holds.
use crate::files::{Ended, Files, NONE, run, shelf_of, sink, words_of};
use crate::gates::{MeetingGate, Met, OrderGate};
use crate::records::numbered;
use crate::report::{add_ended, add_number};
use authority_names::name_table::NameTable;
use catalogue_export::by_workers::export_by_workers;
use catalogue_export::export_fail::ExportFail;
use catalogue_export::form::Iso2709;
use catalogue_query::questions::Questions;
use field_merge::preference::Preference;
use gathered_catalogue::finished::Finished;
use key_hashing::hashing::Hashing;
use std::alloc::Global;
use std::sync::Wait;
use std::thread::Threads;
use union_base::memory::Memory;
use union_io::gate::{Gate, OpenGate};
use union_io::shelf::Shelf;
use union_io::sink::{Sink, put_all};
use union_load::sessions::load_and_ask;
use union_load::start::Start;
use union_program::host::Host;
use union_program::run::union_run;
use union_watch::notes::put_early;
use union_words::libraries::Libraries;
use union_words::loading::Loading;
use union_words::status::Status;
use union_words::workers::Workers;

/// What two sessions are held at.
#[derive(Clone, Copy)]
pub enum What {
    /// The sessions alone: what is written is the export, and on the second output the numbers of the sessions in the order of their
    /// first two turns.
    Sessions,
    Watch,
    Export,
}

/// The number of records that makes a second batch.
const TWO_BATCHES: u32 = 257;

/// The words of the two commands.
const WATCH: &[u8] = b"watch --ask=q --workers=2 LIBA=a LIBB=b";

const EXPORT: &[u8] = b"export --workers=2 LIBA=a LIBB=b";

/// What that word asks for.
pub fn what_of(word: &str) -> Option<What> {
    match word {
        "sessions" => Some(What::Sessions),
        "watch" => Some(What::Watch),
        "export" => Some(What::Export),
        _ => None,
    }
}

/// The line of the sessions of the first two turns.
fn turns_line(alloc: Global, catalogue: &Finished) -> Result<Vec<u8>, Memory> {
    let mut text = Vec::new(alloc);
    text.extend_from_slice(b"turns")?;
    for turn in 0..catalogue.turns() {
        if turn < 2 {
            text.extend_from_slice(b" ")?;
            add_number(&mut text, catalogue.entry(turn).pass as u64)?;
        }
    }
    text.extend_from_slice(b"\n")?;
    Ok(text)
}

/// Writes the export of the catalogue, and then the line of its turns on the second output.
fn write_loaded<R: Threads + Sync, O: Sink, N: Sink>(
    rt: &R,
    alloc: Global,
    catalogue: &Finished,
    out: &mut O,
    notes: &mut N,
) -> Result<(), ExportFail> {
    let mut left = Vec::new(alloc);
    export_by_workers::<R, Iso2709, O>(rt, alloc, catalogue, 1, out, &mut left)?;
    let line = turns_line(alloc, catalogue)?;
    put_all(notes, line.as_slice())?;
    Ok(())
}

/// Loads the two files by sessions alone, and writes what they came to.
fn load_and_write<R: Threads + Wait + Sync, F: Shelf, O: Sink, N: Sink, G: Gate>(
    rt: &R,
    alloc: Global,
    shelf: &mut F,
    out: &mut O,
    notes: &mut N,
    gate: &G,
) -> Status {
    let Ok(words) = words_of(alloc, b"LIBA=a LIBB=b") else {
        return Status::Memory;
    };
    let (Some(libraries), Some(workers)) = (Libraries::read(words.as_slice()), Workers::read(b"2"))
    else {
        return Status::Usage;
    };
    let loading = Loading {
        workers,
        prefer: Preference::none(),
        names: None,
        libraries,
    };
    let start = Start {
        names: NameTable::empty(alloc, Hashing::fixed()),
        questions: Questions::none(alloc),
    };
    match load_and_ask(rt, alloc, &loading, start, shelf, gate) {
        Ok(watched) => match write_loaded(rt, alloc, &watched.loaded.catalogue, out, notes) {
            Ok(()) => Status::Done,
            Err(ExportFail::WriteFault) => Status::WriteFault,
            Err(ExportFail::Memory) => Status::Memory,
        },
        Err(status) => status,
    }
}

/// Runs the words of the line as the program does.
fn run_line<R: Threads + Wait + Sync, F: Shelf, O: Sink, N: Sink, G: Gate>(
    rt: &R,
    alloc: Global,
    line: &[u8],
    shelf: &mut F,
    out: &mut O,
    notes: &mut N,
    gate: &G,
) -> Status {
    let host = Host {
        rt,
        alloc,
        hashing: Hashing::fixed(),
        gate,
    };
    match words_of(alloc, line) {
        Ok(words) => union_run(&host, words.as_slice(), shelf, out, notes),
        Err(Memory) => Status::Memory,
    }
}

/// Runs two sessions, by two workers, whose turns the gate holds. They load the files `a` and `b` of the shelf.
pub fn run_held<R: Threads + Wait + Sync, F: Shelf, O: Sink, N: Sink, G: Gate>(
    rt: &R,
    alloc: Global,
    what: What,
    shelf: &mut F,
    out: &mut O,
    notes: &mut N,
    gate: &G,
) -> Status {
    match what {
        What::Sessions => {
            let status = load_and_write(rt, alloc, shelf, out, notes, gate);
            put_early(notes, &status);
            status
        }
        What::Watch => run_line(rt, alloc, WATCH, shelf, out, notes, gate),
        What::Export => run_line(rt, alloc, EXPORT, shelf, out, notes, gate),
    }
}

/// Runs the two sessions over files in memory.
fn run_in_memory<R: Threads + Wait + Sync, G: Gate>(
    rt: &R,
    alloc: Global,
    what: What,
    gate: &G,
) -> Result<Ended, Memory> {
    let mut shelf = shelf_of(alloc, &NONE)?;
    let mut out = sink(alloc, &[])?;
    let mut notes = sink(alloc, &[])?;
    let status = run_held(rt, alloc, what, &mut shelf, &mut out, &mut notes, gate);
    Ended::of(alloc, status, &out, &notes)
}

/// The runs that each gate holds, and their names.
const HELD: [(What, &[u8]); 3] = [
    (What::Sessions, b"sessions"),
    (What::Watch, b"watch"),
    (What::Export, b"export"),
];

/// Adds whether what the gate waited for came.
fn add_met<G: Met>(text: &mut Vec<u8>, gate: &G) -> Result<(), Memory> {
    if gate.is_met() {
        text.extend_from_slice(b"  the gate was passed\n")?;
    } else {
        text.extend_from_slice(b"  the looks ran out\n")?;
    }
    Ok(())
}

/// Adds how the runs ended in which the second session had its first turn before the first session had.
fn tell_ordered<R: Threads + Wait + Sync>(
    rt: &R,
    alloc: Global,
    looks: u64,
    text: &mut Vec<u8>,
) -> Result<(), Memory> {
    for (what, name) in HELD {
        let gate = OrderGate::new(looks, 0);
        let ended = run_in_memory(rt, alloc, what, &gate)?;
        text.extend_from_slice(b"the second session first, ")?;
        add_ended(text, name, &ended)?;
        add_met(text, &gate)?;
    }
    Ok(())
}

/// Adds how the runs ended whose sessions met before their first turns. Either order of the turns is right, so their outputs are not told,
/// but whether the export is that of one worker.
fn tell_meeting<R: Threads + Wait + Sync>(
    rt: &R,
    alloc: Global,
    looks: u64,
    text: &mut Vec<u8>,
) -> Result<(), Memory> {
    let line = b"export --workers=1 LIBA=a LIBB=b";
    let serial = run(rt, alloc, line, &NONE, &OpenGate)?;
    for (what, name) in HELD {
        let gate = MeetingGate::new(looks);
        let ended = run_in_memory(rt, alloc, what, &gate)?;
        text.extend_from_slice(b"sessions that meet, ")?;
        text.extend_from_slice(name)?;
        text.extend_from_slice(b": status ")?;
        add_number(text, ended.number as u64)?;
        text.extend_from_slice(b"\n")?;
        if ended.out.as_slice() == serial.out.as_slice() {
            text.extend_from_slice(b"  the export is that of one worker\n")?;
        }
        add_met(text, &gate)?;
    }
    Ok(())
}

/// Adds how the runs ended that gates held for at most `looks` looks.
pub fn tell_held<R: Threads + Wait + Sync>(
    rt: &R,
    alloc: Global,
    looks: u64,
    text: &mut Vec<u8>,
) -> Result<(), Memory> {
    tell_ordered(rt, alloc, looks, text)?;
    tell_meeting(rt, alloc, looks, text)?;
    let second = numbered(alloc, TWO_BATCHES)?;
    let files = Files {
        second: second.as_slice(),
        ..NONE
    };
    let gate = OrderGate::new(looks, 1);
    let ended = run(rt, alloc, WATCH, &files, &gate)?;
    text.extend_from_slice(b"two turns of the second session first, ")?;
    add_ended(text, b"watch", &ended)?;
    add_met(text, &gate)
}
