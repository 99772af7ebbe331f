//! The program that writes by which keys records may meet: the real files and streams, handed to the crate that does the work.
#![tactic(auto)]

use field_merge::preference::Preference;
use library_batches::stop::Stop;
use library_stream::frame_reader::LARGEST_SOURCE;
use std::alloc::Global;
use std::env;
use std::io::ErrorKind;
use std::process::ExitCode;
use union_base::bytes::Bytes;
use union_base::memory::Memory;
use union_files::whole::read_whole;
use union_io::failed::Failed;
use union_io::file_shelf::FileShelf;
use union_io::shelf::{OpenFail, Shelf};
use union_io::sink::{Sink, put_all};
use union_io::writer_sink::{ErrSink, OutSink};
use union_keys::group_table::group_table;
use union_keys::groups::{group_lines, table_of};
use union_keys::reading::Reading;
use union_keys::request::{HELP, Request, VERSION};
use union_keys::run::{each_line, read_files};
use union_keys::table::table;
use union_words::libraries::Libraries;
use union_words::status::Status;

/// A word in no form that the program has. It stands for words that are no UTF-8.
const NO_WORD: &[u8; 1] = b"\xFF";

fn main(rt: HostRuntime) -> ExitCode {
    let mut notes = ErrSink::of(rt.stderr());
    let end = match words(&rt, rt.alloc()) {
        Ok(words) => answer(&rt, words.as_slice(), &mut notes),
        Err(Memory) => End::Status(Status::Memory),
    };
    ExitCode::from(noted(end, &mut notes))
}

/// What is written of the records.
#[derive(Clone, Copy)]
enum Form {
    Lines,
    Table,
}

/// How the run ended.
#[derive(Clone, Copy)]
enum End {
    Status(Status),
    /// The file of groups could not be opened, or not be read, or is too long.
    NoGroups,
    Groups,
    LongGroups,
}

/// The number with which the process ends, with the line that says why it ended early.
fn noted(end: End, notes: &mut ErrSink) -> u8 {
    let (number, before, name) = match &end {
        End::NoGroups => (
            3,
            b"union-keys: cannot open ".as_slice(),
            b"groups".as_slice(),
        ),
        End::Groups => (
            4,
            b"union-keys: read failed in ".as_slice(),
            b"groups".as_slice(),
        ),
        End::LongGroups => (
            6,
            b"union-keys: too long is ".as_slice(),
            b"groups".as_slice(),
        ),
        End::Status(status) => (status.exit_number(), before(status), name(status)),
    };
    if !before.is_empty() {
        let _ = put_all(notes, before);
        let _ = put_all(notes, name);
        let _ = put_all(notes, b"\n");
    }
    number
}

/// What a line that says why the run ended begins with: nothing where there is none.
fn before(status: &Status) -> &[u8] {
    match status {
        Status::Done | Status::DoneWithRefusals | Status::WriteFault => &[],
        Status::Usage => b"union-keys: bad command line",
        Status::OpenFault(_) => b"union-keys: cannot open ",
        Status::ReadFault(_) => b"union-keys: read failed in ",
        Status::TooLong(_) => b"union-keys: too long is ",
        Status::Memory => b"union-keys: out of memory",
    }
}

/// The input that it names.
fn name(status: &Status) -> &[u8] {
    match status {
        Status::OpenFault(input) | Status::ReadFault(input) | Status::TooLong(input) =>
            input.name(),
        _ => &[],
    }
}

/// Does what the words ask for.
fn answer(rt: &HostRuntime, words: &[Bytes], notes: &mut ErrSink) -> End {
    let mut out = OutSink::of(rt.stdout());
    match Request::read(words) {
        None => End::Status(Status::Usage),
        Some(Request::Help) => End::Status(told(&mut out, HELP)),
        Some(Request::Version) => End::Status(told(&mut out, VERSION)),
        Some(Request::Keys(None, libraries)) => each(rt, Form::Lines, &libraries, &mut out, notes),
        Some(Request::Table(None, libraries)) => each(rt, Form::Table, &libraries, &mut out, notes),
        Some(Request::Keys(Some(path), libraries)) => {
            grouped(rt, Form::Lines, path, &libraries, &mut out, notes)
        }
        Some(Request::Table(Some(path), libraries)) => {
            grouped(rt, Form::Table, path, &libraries, &mut out, notes)
        }
    }
}

/// Writes a text.
fn told<O: Sink>(out: &mut O, text: &[u8]) -> Status {
    match put_all(out, text) {
        Ok(()) => Status::Done,
        Err(Failed) => Status::WriteFault,
    }
}

/// Writes the lines, and then what is to be told: the status is 1 where that is something.
fn written(out: &mut OutSink, notes: &mut ErrSink, text: &[u8], tells: [&[u8]; 2]) -> Status {
    match told(out, text) {
        Status::Done => (),
        status => return status,
    }
    for tell in tells {
        match told(notes, tell) {
            Status::Done => (),
            status => return status,
        }
    }
    if tells[0].is_empty() && tells[1].is_empty() {
        Status::Done
    } else {
        Status::DoneWithRefusals
    }
}

/// What is written of each record.
fn text_of_each(alloc: Global, form: Form, reading: &Reading) -> Result<Vec<u8>, Memory> {
    match form {
        Form::Lines => each_line(alloc, reading.standings()),
        Form::Table => table(alloc, reading.standings()),
    }
}

/// Writes what is to be written of each record.
fn each(
    rt: &HostRuntime,
    form: Form,
    libraries: &Libraries<'_>,
    out: &mut OutSink,
    notes: &mut ErrSink,
) -> End {
    let alloc = rt.alloc();
    let Ok(files) = rt.clone() else {
        return End::Status(Status::Memory);
    };
    let mut shelf = FileShelf::new(alloc, files);
    End::Status(
        match read_files(alloc, &Preference::none(), libraries, &mut shelf) {
            Ok(reading) => match text_of_each(alloc, form, &reading) {
                Ok(text) => written(out, notes, text.as_slice(), [reading.notes(), &[]]),
                Err(Memory) => Status::Memory,
            },
            Err(status) => status,
        },
    )
}

/// The text of the file of groups.
fn groups_in<F: Shelf>(alloc: Global, path: &[u8], shelf: &mut F) -> Result<Vec<u8>, End> {
    let Ok(path) = Bytes::of(alloc, path) else {
        return Err(End::Status(Status::Memory));
    };
    match shelf.open(alloc, &path) {
        Ok(mut source) => {
            let text = read_whole(alloc, &mut source, LARGEST_SOURCE as usize);
            shelf.give_back(source);
            match text {
                Ok(text) => Ok(text),
                Err(Stop::Failed) => Err(End::Groups),
                Err(Stop::TooLong) => Err(End::LongGroups),
                Err(Stop::Memory) => Err(End::Status(Status::Memory)),
            }
        }
        Err(OpenFail::Failed) => Err(End::NoGroups),
        Err(OpenFail::Memory) => Err(End::Status(Status::Memory)),
    }
}

/// Writes what is to be written of each group.
fn grouped(
    rt: &HostRuntime,
    form: Form,
    path: &[u8],
    libraries: &Libraries<'_>,
    out: &mut OutSink,
    notes: &mut ErrSink,
) -> End {
    let alloc = rt.alloc();
    let Ok(files) = rt.clone() else {
        return End::Status(Status::Memory);
    };
    let mut shelf = FileShelf::new(alloc, files);
    let groups = match groups_in(alloc, path, &mut shelf) {
        Ok(groups) => groups,
        Err(end) => return end,
    };
    End::Status(
        match read_files(alloc, &Preference::none(), libraries, &mut shelf) {
            Ok(reading) => match text_and_notes(alloc, form, reading, groups.as_slice()) {
                Ok((text, refused, tells)) => written(
                    out,
                    notes,
                    text.as_slice(),
                    [refused.as_slice(), tells.as_slice()],
                ),
                Err(Memory) => Status::Memory,
            },
            Err(status) => status,
        },
    )
}

/// What is written of the groups, the lines on refused records, and what is to be told of groups.
fn text_and_notes(
    alloc: Global,
    form: Form,
    reading: Reading,
    groups: &[u8],
) -> Result<(Vec<u8>, Vec<u8>, Vec<u8>), Memory> {
    let refused = Vec::from_slice(alloc, reading.notes())?;
    if let Form::Table = form {
        let text = group_table(alloc, reading.standings(), groups)?;
        return Ok((text, refused, Vec::new(alloc)));
    }
    let table = table_of(alloc, reading.into_standings())?;
    let (text, tells) = group_lines(alloc, &table, groups)?;
    Ok((text, refused, tells))
}

/// The words after the program's name.
fn words(rt: &HostRuntime, alloc: Global) -> Result<Vec<Bytes>, Memory> {
    let mut words = Vec::new(alloc);
    match env::args(rt) {
        Ok(args) => {
            for word in args.skip(1) {
                words.push(Bytes::of(alloc, word.as_str().as_bytes())?)?;
            }
        }
        Err(error) if error.kind() == ErrorKind::OutOfMemory => return Err(Memory),
        Err(_) => words.push(Bytes::of(alloc, NO_WORD)?)?,
    }
    Ok(words)
}
