//! The program: the real files and streams, handed to the one call that does all the work. Its progress is told on standard error.
#![tactic(auto)]

use key_hashing::hashing::Hashing;
use std::alloc::Global;
use std::io::{ErrorKind, IsTerminal};
use std::process::ExitCode;
use std::{env, fs, str};
use union_base::bytes::Bytes;
use union_base::memory::Memory;
use union_io::file_shelf::FileShelf;
use union_io::gate::OpenGate;
use union_io::writer_sink::{ErrSink, OutSink};
use union_program::host::Host;
use union_program::run::union_run;
use union_progress::style::Style;
use union_progress::teller::{Teller, Tells};
use union_progress::told_shelf::ToldShelf;
use union_progress::told_sink::{ToldNotes, ToldOut};
use union_words::status::Status;

/// A word in no form that the program has. It stands for words that are no UTF-8.
const NO_WORD: &[u8; 1] = b"\xFF";

/// The word of the environment that says where the progress is shown.
const PROGRESS: &str = "UNION_PROGRESS";

fn main(rt: HostRuntime) -> ExitCode {
    let alloc = rt.alloc();
    let Ok(words) = words(&rt, alloc) else {
        return ExitCode::from(Status::Memory.exit_number());
    };
    let Ok(files) = rt.clone() else {
        return ExitCode::from(Status::Memory.exit_number());
    };
    let teller = teller(&rt, alloc, words.as_slice());
    let mut shelf = ToldShelf::of(FileShelf::new(alloc, files), &teller);
    let mut out = ToldOut::of(OutSink::of(rt.stdout()), &teller);
    let mut notes = ToldNotes::of(ErrSink::of(rt.stderr()), &teller);
    let host = Host {
        rt: &rt,
        alloc,
        hashing: Hashing::drawn(&rt),
        gate: &OpenGate,
    };
    let status = union_run(&host, words.as_slice(), &mut shelf, &mut out, &mut notes);
    teller.ends();
    ExitCode::from(status.exit_number())
}

/// The words after the program's name.
fn words(rt: &HostRuntime, alloc: Global) -> Result<Vec<Bytes>, Memory> {
    let mut words = Vec::new(alloc);
    match env::args(rt) {
        Ok(args) => {
            for word in args.skip(1) {
                words.push(Bytes::of(alloc, word.as_str().as_bytes())?)?;
            }
        }
        Err(error) if error.kind() == ErrorKind::OutOfMemory => return Err(Memory),
        Err(_) => words.push(Bytes::of(alloc, NO_WORD)?)?,
    }
    Ok(words)
}

/// What tells the progress of a run of these words. Nothing is told of a script or a trial, which write as they go.
fn teller<'a>(rt: &'a HostRuntime, alloc: Global, words: &[Bytes]) -> Teller<'a, HostRuntime> {
    let style = match words {
        [first, ..] if !writes_as_it_goes(first.bytes()) => style(rt),
        _ => Style::Silent,
    };
    let total = match style {
        Style::Silent => 0,
        Style::Line | Style::Lines => size_of_all(rt, words).unwrap_or(0),
    };
    Teller::of(
        rt,
        alloc,
        rt.stderr(),
        style,
        rt.stdout().is_terminal(),
        total,
    )
}

fn writes_as_it_goes(command: &[u8]) -> bool {
    command == b"script".as_slice() || command == b"trial".as_slice()
}

/// How the progress is shown.
fn style(rt: &HostRuntime) -> Style {
    let is_terminal = rt.stderr().is_terminal();
    match env::var(rt, PROGRESS) {
        Ok(word) => Style::of(Some(word.as_str().as_bytes()), is_terminal),
        Err(_) => Style::of(None, is_terminal),
    }
}

/// The bytes of all files that the words name. None where one of them is no file with a size, as a pipe.
fn size_of_all(rt: &HostRuntime, words: &[Bytes]) -> Option<u64> {
    let mut total: u64 = 0;
    for word in words {
        if let Some(path) = path_in(word) {
            total = total.saturating_add(size_of(rt, path)?);
        }
    }
    Some(total)
}

/// The path in the word, where it names a file.
fn path_in(word: &Bytes) -> Option<&str> {
    let word = str::from_utf8(word.bytes()).ok()?;
    let (name, path) = word.split_once('=')?;
    match name {
        "--workers" | "--prefer" => None,
        _ => Some(path),
    }
}

fn size_of(rt: &HostRuntime, path: &str) -> Option<u64> {
    let found = fs::metadata(rt, path).ok()?;
    if found.is_file() {
        Some(found.len())
    } else {
        None
    }
}
