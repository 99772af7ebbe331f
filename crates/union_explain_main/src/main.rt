//! The program that explains a report: the real files and streams, handed to the crate that does the work.
#![tactic(auto)]

use itoa::Buffer;
use std::alloc::Global;
use std::env;
use std::io::ErrorKind;
use std::process::ExitCode;
use union_base::bytes::Bytes;
use union_base::memory::Memory;
use union_explain::conversion::{CONVERSION, marc8_refusals};
use union_explain::form::Form;
use union_explain::request::{HELP, Request, VERSION};
use union_explain::run::{counts_text, read_all, table_of};
use union_explain::stop::Stop;
use union_explain::table::Table;
use union_io::failed::Failed;
use union_io::file_shelf::FileShelf;
use union_io::reader_source::ReaderSource;
use union_io::sink::{Sink, put_all};
use union_io::writer_sink::{ErrSink, OutSink};
use union_words::libraries::Libraries;
use union_words::status::Status;

/// A word in no form that the program has. It stands for words that are no UTF-8.
const NO_WORD: &[u8; 1] = b"\xFF";

fn main(rt: HostRuntime) -> ExitCode {
    let mut notes = ErrSink::of(rt.stderr());
    let end = match words(&rt, rt.alloc()) {
        Ok(words) => answer(&rt, words.as_slice(), &mut notes),
        Err(Memory) => End::Status(Status::Memory),
    };
    ExitCode::from(noted(end, &mut notes))
}

/// How the run ended.
#[derive(Clone, Copy)]
enum End {
    Status(Status),
    /// The report could not be read.
    Report,
    /// The report is too long.
    LongReport,
}

/// The number with which the process ends, with the line that says why it ended early.
fn noted(end: End, notes: &mut ErrSink) -> u8 {
    let (number, before, name) = match &end {
        End::Report => (
            4,
            b"union-explain: read failed in ".as_slice(),
            b"the report".as_slice(),
        ),
        End::LongReport => (
            6,
            b"union-explain: too long is ".as_slice(),
            b"the report".as_slice(),
        ),
        End::Status(status) => (status.exit_number(), before(status), name(status)),
    };
    if !before.is_empty() {
        let _ = put_all(notes, before);
        let _ = put_all(notes, name);
        let _ = put_all(notes, b"\n");
    }
    number
}

/// What a line that says why the run ended begins with: nothing where there is none.
fn before(status: &Status) -> &[u8] {
    match status {
        Status::Done | Status::DoneWithRefusals | Status::WriteFault => &[],
        Status::Usage => b"union-explain: bad command line",
        Status::OpenFault(_) => b"union-explain: cannot open ",
        Status::ReadFault(_) => b"union-explain: read failed in ",
        Status::TooLong(_) => b"union-explain: too long is ",
        Status::Memory => b"union-explain: out of memory",
    }
}

/// The input that it names.
fn name(status: &Status) -> &[u8] {
    match status {
        Status::OpenFault(input) | Status::ReadFault(input) | Status::TooLong(input) =>
            input.name(),
        _ => &[],
    }
}

/// Does what the words ask for.
fn answer(rt: &HostRuntime, words: &[Bytes], notes: &mut ErrSink) -> End {
    let mut out = OutSink::of(rt.stdout());
    match Request::read(words) {
        None => End::Status(Status::Usage),
        Some(Request::Help) => End::Status(told(&mut out, HELP)),
        Some(Request::Version) => End::Status(told(&mut out, VERSION)),
        Some(Request::Explain(form, libraries)) => explain(rt, form, &libraries, &mut out, notes),
    }
}

/// Writes a text.
fn told<O: Sink>(out: &mut O, text: &[u8]) -> Status {
    match put_all(out, text) {
        Ok(()) => Status::Done,
        Err(Failed) => Status::WriteFault,
    }
}

/// Writes the table, and then the counts: the status is 1 where a file is not the one of the report.
fn written(out: &mut OutSink, notes: &mut ErrSink, table: &Table, counts: &[u8]) -> Status {
    match told(out, table.text()) {
        Status::Done => (),
        status => return status,
    }
    match told(notes, counts) {
        Status::Done if table.is_astray() => Status::DoneWithRefusals,
        status => status,
    }
}

/// The counts, and where refusals may be mended by one conversion from MARC-8, how many and the command.
fn notes_of(
    alloc: Global,
    libraries: &Libraries<'_>,
    report: &[u8],
    table: &Table,
) -> Result<Vec<u8>, Memory> {
    let mut text = counts_text(alloc, report, table.rows())?;
    let refusals = marc8_refusals(alloc, libraries, report)?;
    if !refusals.is_empty() {
        let mut digits = Buffer::new();
        text.extend_from_slice(b"MARC-8 ")?;
        text.extend_from_slice(digits.format(refusals.len()).as_bytes())?;
        text.extend_from_slice(b": ")?;
        text.extend_from_slice(CONVERSION)?;
        text.push(b'\n')?;
    }
    Ok(text)
}

/// Explains the report that standard input is.
fn explain(
    rt: &HostRuntime,
    form: Form,
    libraries: &Libraries<'_>,
    out: &mut OutSink,
    notes: &mut ErrSink,
) -> End {
    let alloc = rt.alloc();
    let Ok(files) = rt.clone() else {
        return End::Status(Status::Memory);
    };
    let Ok(unnamed) = Bytes::of(alloc, &[]) else {
        return End::Status(Status::Memory);
    };
    let mut input = ReaderSource::of(unnamed, rt.stdin());
    let report = match read_all(alloc, &mut input) {
        Ok(report) => report,
        Err(Stop::Failed) => return End::Report,
        Err(Stop::TooLong) => return End::LongReport,
        Err(Stop::Memory) => return End::Status(Status::Memory),
    };
    let mut shelf = FileShelf::new(alloc, files);
    End::Status(
        match table_of(alloc, form, libraries, report.as_slice(), &mut shelf) {
            Ok(table) => match notes_of(alloc, libraries, report.as_slice(), &table) {
                Ok(counts) => written(out, notes, &table, counts.as_slice()),
                Err(Memory) => Status::Memory,
            },
            Err(status) => status,
        },
    )
}

/// The words after the program's name.
fn words(rt: &HostRuntime, alloc: Global) -> Result<Vec<Bytes>, Memory> {
    let mut words = Vec::new(alloc);
    match env::args(rt) {
        Ok(args) => {
            for word in args.skip(1) {
                words.push(Bytes::of(alloc, word.as_str().as_bytes())?)?;
            }
        }
        Err(error) if error.kind() == ErrorKind::OutOfMemory => return Err(Memory),
        Err(_) => words.push(Bytes::of(alloc, NO_WORD)?)?,
    }
    Ok(words)
}
