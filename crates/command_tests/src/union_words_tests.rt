//! What no clause says: that the forms, numbers, lines and texts are those that were meant.
use crate::texts::words_between;
use std::alloc::{AllocError, Global};
use std::test::Fail;
use union_base::bytes::Bytes;
use union_base::library_code::LibraryCode;
use union_base::memory::Memory;
use union_words::form::Form;
use union_words::input::Input;
use union_words::job::Job;
use union_words::libraries::Libraries;
use union_words::library_file::LibraryFile;
use union_words::lines::{Lines, is_skipped};
use union_words::loading::Loading;
use union_words::number::{count_of, seed_of, workers_of, workers_word};
use union_words::script_line::ScriptLine;
use union_words::status::Status;
use union_words::texts::{help_text, version_text};
use union_words::workers::Workers;

fn tell_file(text: &mut Vec<u8>, file: &LibraryFile<'_>) -> Result<(), AllocError> {
    text.extend_from_slice(b" ")?;
    text.extend_from_slice(file.library.bytes())?;
    text.extend_from_slice(b" ")?;
    text.extend_from_slice(file.path)
}

fn tell_libraries(text: &mut Vec<u8>, libraries: &Libraries<'_>) -> Result<(), AllocError> {
    for place in 0..libraries.len() {
        tell_file(text, &libraries.at(place))?;
    }
    Ok(())
}

/// A command and how it loads: its number of workers, the place of LIBB in its preference, and its file of names.
fn tell_loading(
    text: &mut Vec<u8>,
    command: &[u8],
    loading: &Loading<'_>,
) -> Result<(), AllocError> {
    tell_command(text, command, &loading.workers)?;
    if let Some(library) = LibraryCode::read(b"LIBB") {
        text.extend_from_slice(match loading.prefer.level(&library) {
            64 => b" LIBB first".as_slice(),
            63 => b" LIBB second".as_slice(),
            0 => b"".as_slice(),
            _ => b" LIBB later".as_slice(),
        })?;
    }
    if let Some(names) = loading.names {
        text.extend_from_slice(b" names ")?;
        text.extend_from_slice(names)?;
    }
    Ok(())
}

/// A command and its number of workers, which is one of 1, 4 and 64.
fn tell_command(text: &mut Vec<u8>, command: &[u8], workers: &Workers) -> Result<(), AllocError> {
    text.extend_from_slice(command)?;
    text.extend_from_slice(match workers.number() {
        1 => b"1".as_slice(),
        4 => b"4".as_slice(),
        64 => b"64".as_slice(),
        _ => b"other".as_slice(),
    })
}

/// A job as a text, with a blank before each library and each path.
fn told(alloc: Global, job: &Option<Job<'_>>) -> Result<Vec<u8>, AllocError> {
    let mut text = Vec::new(alloc);
    match job {
        None => text.extend_from_slice(b"none")?,
        Some(Job::Help) => text.extend_from_slice(b"help")?,
        Some(Job::Version) => text.extend_from_slice(b"version")?,
        Some(Job::Check(file)) => {
            text.extend_from_slice(b"check")?;
            tell_file(&mut text, file)?;
        }
        Some(Job::ToJson(file)) => {
            text.extend_from_slice(b"to json")?;
            tell_file(&mut text, file)?;
        }
        Some(Job::FromJson(file)) => {
            text.extend_from_slice(b"from json")?;
            tell_file(&mut text, file)?;
        }
        Some(Job::Export(exporting, loading)) => {
            tell_loading(&mut text, b"export ", loading)?;
            if exporting.form == Form::Json {
                text.extend_from_slice(b" json")?;
            }
            if exporting.owners {
                text.extend_from_slice(b" owners")?;
            }
            tell_libraries(&mut text, &loading.libraries)?;
        }
        Some(Job::Works(loading)) => {
            tell_loading(&mut text, b"works ", loading)?;
            tell_libraries(&mut text, &loading.libraries)?;
        }
        Some(Job::Watch(asks, loading)) => {
            tell_loading(&mut text, b"watch ", loading)?;
            text.extend_from_slice(b" ")?;
            text.extend_from_slice(asks)?;
            tell_libraries(&mut text, &loading.libraries)?;
        }
        Some(Job::Follow(asks, libraries)) => {
            text.extend_from_slice(b"follow ")?;
            text.extend_from_slice(asks)?;
            tell_libraries(&mut text, libraries)?;
        }
        Some(Job::Script(path)) => {
            text.extend_from_slice(b"script ")?;
            text.extend_from_slice(path)?;
        }
        Some(Job::Trial(trial)) => {
            tell_command(&mut text, b"trial ", &trial.workers())?;
            text.extend_from_slice(match (trial.seed(), trial.count()) {
                (0, 1) => b" least".as_slice(),
                (u64::MAX, 200_000) => b" most".as_slice(),
                _ => b" other".as_slice(),
            })?;
        }
    }
    Ok(text)
}

/// Whether the words of the line ask for this.
fn asks(alloc: Global, line: &[u8], want: &[u8]) -> Result<bool, Fail> {
    let words = words_between(alloc, line, b' ')?;
    let text = told(alloc, &Job::read(words.as_slice()))?;
    Ok(text.as_slice() == want)
}

/// Lines of words, and what each asks for.
const FORMS: [(&[u8], &[u8]); 34] = [
    (b"check LIBA=a", b"check LIBA a"),
    (b"tojson LIBA=a", b"to json LIBA a"),
    (b"tojson LIBA=a=b", b"to json LIBA a=b"),
    (b"fromjson LIBA=a", b"from json LIBA a"),
    (
        b"export --json LIBA=a LIBB=b",
        b"export 4 json LIBA a LIBB b",
    ),
    (b"export --workers=1 --json LIBA=a", b"export 1 json LIBA a"),
    (b"export --owners LIBA=a", b"export 4 owners LIBA a"),
    (
        b"export --json --owners LIBA=a LIBB=b",
        b"export 4 json owners LIBA a LIBB b",
    ),
    (b"export LIBA=a", b"export 4 LIBA a"),
    (b"export LIBA=a LIBB=a", b"export 4 LIBA a LIBB a"),
    (b"export B=x A=y C=x", b"export 4 B x A y C x"),
    (b"export LIBA=a=b=", b"export 4 LIBA a=b="),
    (b"check 7=\xC3\xA4", b"check 7 \xC3\xA4"),
    (b"export --workers=64 LIBA=a", b"export 64 LIBA a"),
    (b"works --workers=1 LIBA=a LIBB=a", b"works 1 LIBA a LIBB a"),
    (b"works LIBA=a LIBB=a", b"works 4 LIBA a LIBB a"),
    (b"watch --ask=q LIBA=a", b"watch 4 q LIBA a"),
    (
        b"watch --ask=--ask= --workers=1 LIBA=a LIBB=b",
        b"watch 1 --ask= LIBA a LIBB b",
    ),
    (
        b"export --prefer=LIBB LIBA=a",
        b"export 4 LIBB first LIBA a",
    ),
    (
        b"export --workers=1 --prefer=LIBA,LIBB --json LIBA=a",
        b"export 1 LIBB second json LIBA a",
    ),
    (b"works --prefer=LIBB LIBA=a", b"works 4 LIBB first LIBA a"),
    (
        b"watch --ask=q --prefer=LIBB LIBA=a",
        b"watch 4 LIBB first q LIBA a",
    ),
    (b"export --prefer=LIBA LIBA=a", b"export 4 LIBA a"),
    (b"export --names=n LIBA=a", b"export 4 names n LIBA a"),
    (
        b"export --workers=1 --prefer=LIBB --names=n=o --json LIBA=a",
        b"export 1 LIBB first names n=o json LIBA a",
    ),
    (
        b"export --workers=1 --prefer=LIBB --names=n=o --json --owners LIBA=a",
        b"export 1 LIBB first names n=o json owners LIBA a",
    ),
    (
        b"works --names=--names= LIBA=a",
        b"works 4 names --names= LIBA a",
    ),
    (
        b"watch --ask=q --workers=1 --names=n LIBA=a",
        b"watch 1 names n q LIBA a",
    ),
    (b"follow --ask=q LIBA=a LIBB=b", b"follow q LIBA a LIBB b"),
    (b"script s.txt", b"script s.txt"),
    (b"trial 0 1 1", b"trial 1 least"),
    (b"trial 18446744073709551615 200000 64", b"trial 64 most"),
    (b"--help", b"help"),
    (b"--version", b"version"),
];

/// Lines of words that are in no form.
const NO_FORMS: [&[u8]; 52] = [
    b"",
    b"export",
    b"export LIBA=a LIBA=b",
    b"export --workers=0 LIBA=a",
    b"export --workers=01 LIBA=a",
    b"export liba=a",
    b"export LIBA=",
    b"merge LIBA=a",
    b"check",
    b"check LIBA=a LIBB=b",
    b"--help x",
    b"--version --help",
    b"export A=x B=y C=x A=z",
    b"export LIBA",
    b"LIBA=a",
    b"export --workers=65 LIBA=a",
    b"export LIBA=a --workers=2",
    b"export --workers=2",
    b"works --workers=2 --workers=2 LIBA=a",
    b"export =a",
    b"export LIBA=\xFF",
    b"EXPORT LIBA=a",
    b"exports LIBA=a",
    b"\xFF",
    b"export LIBA=a check",
    b"export --prefer= LIBA=a",
    b"export --prefer=LIBB,LIBB LIBA=a",
    b"export --prefer=libb LIBA=a",
    b"export --prefer=LIBA, LIBA=a",
    b"export --prefer=LIBA",
    b"export --prefer=LIBA --workers=1 LIBA=a",
    b"export --json --prefer=LIBA LIBA=a",
    b"works --prefer=LIBA --prefer=LIBA LIBA=a",
    b"watch --prefer=LIBA --ask=q LIBA=a",
    b"check --prefer=LIBA LIBA=a",
    b"script --prefer=LIBA s.txt",
    b"follow LIBA=a",
    b"follow --ask=q",
    b"follow --ask=q --workers=2 LIBA=a",
    b"follow --ask=q --prefer=LIBA LIBA=a",
    b"export --names= LIBA=a",
    b"export --names=\xFF LIBA=a",
    b"export --names=n",
    b"export --names=n --names=n LIBA=a",
    b"export --names=n --workers=1 LIBA=a",
    b"export --names=n --prefer=LIBA LIBA=a",
    b"export --json --names=n LIBA=a",
    b"export LIBA=a --names=n",
    b"watch --names=n --ask=q LIBA=a",
    b"check --names=n LIBA=a",
    b"script --names=n s.txt",
    b"follow --ask=q --names=n LIBA=a",
];

/// Lines of words of MARC in JSON, and of owners, that are in no form.
const NO_JSON: [&[u8]; 28] = [
    b"tojson",
    b"tojson a.mrc",
    b"tojson LIBA=",
    b"tojson liba=a",
    b"tojson LIBA=a LIBB=b",
    b"tojson LIBA=\xFF",
    b"tojson --json LIBA=a",
    b"tojson --workers=1 LIBA=a",
    b"fromjson",
    b"fromjson LIBA=",
    b"fromjson LIBA=a LIBB=b",
    b"check --json LIBA=a",
    b"export --json",
    b"export --json --json LIBA=a",
    b"export --json --workers=1 LIBA=a",
    b"export --json=1 LIBA=a",
    b"export LIBA=a --json",
    b"export --owners",
    b"export --owners --owners LIBA=a",
    b"export --owners --json LIBA=a",
    b"export --owners --names=n LIBA=a",
    b"export --owners=1 LIBA=a",
    b"export LIBA=a --owners",
    b"works --owners LIBA=a",
    b"watch --ask=q --owners LIBA=a",
    b"tojson --owners LIBA=a",
    b"works --json LIBA=a",
    b"watch --ask=q --json LIBA=a",
];

/// Words in no form, each in a line of its own: of workers and of files of questions.
const USAGE: [&[u8]; 24] = [
    b"export\n--ask=q.txt\nLIBA=a.mrc",
    b"export\nLIBA=a.mrc\n--workers=2",
    b"export\n--workers=2",
    b"export\nLIBA=\xFF.mrc",
    b"script\n--workers=1\nq.txt",
    b"export\n--workers=2\n--workers=2\nLIBA=a.mrc",
    b"export\n--workers\n2\nLIBA=a.mrc",
    b"watch",
    b"watch\n--ask=\nLIBA=a.mrc",
    b"watch\n--workers=1\nLIBA=a.mrc",
    b"watch\n--ask=q.txt",
    b"watch\n--workers=1\n--ask=q.txt\nLIBA=a.mrc",
    b"watch\n--ask=\xFF\nLIBA=a.mrc",
    b"watch\n--ask=q.txt\n--ask=q.txt\nLIBA=a.mrc",
    b"export\n--workers= 1\nLIBA=a.mrc\nLIBB=b.mrc\nLIBC=c.mrc",
    b"export\n--workers=\nLIBA=a.mrc\nLIBB=b.mrc\nLIBC=c.mrc",
    b"export\n--workers=18446744073709551617\nLIBA=a.mrc\nLIBB=b.mrc\nLIBC=c.mrc",
    b"export\n--workers=01\nLIBA=a.mrc\nLIBB=b.mrc\nLIBC=c.mrc",
    b"export\n--workers=x\nLIBA=a.mrc\nLIBB=b.mrc\nLIBC=c.mrc",
    b"export\n--workers=-1\nLIBA=a.mrc\nLIBB=b.mrc\nLIBC=c.mrc",
    b"export\n--workers=65\nLIBA=a.mrc\nLIBB=b.mrc\nLIBC=c.mrc",
    b"export\n--workers=+1\nLIBA=a.mrc\nLIBB=b.mrc\nLIBC=c.mrc",
    b"export\n--workers=1.0\nLIBA=a.mrc\nLIBB=b.mrc\nLIBC=c.mrc",
    b"export\n--workers=0\nLIBA=a.mrc\nLIBB=b.mrc\nLIBC=c.mrc",
];

/// The words after `trial`, where they are in no form.
const NO_TRIALS: [&[u8]; 14] = [
    b"trial",
    b"trial\n0\n1",
    b"trial\n0\n1\n1\n1",
    b"trial\n18446744073709551616\n1\n1",
    b"trial\n00\n1\n1",
    b"trial\n+1\n1\n1",
    b"trial\nx\n1\n1",
    b"trial\n0\n0\n1",
    b"trial\n0\n200001\n1",
    b"trial\n0\n01\n1",
    b"trial\n0\n1\n0",
    b"trial\n0\n1\n65",
    b"trial\n0\n1\n01",
    b"trial\n0\n1\n--workers=1",
];

#[test]
fn words_in_the_wrong_place_are_in_no_form(rt: HostRuntime) -> Result<(), Fail> {
    for text in USAGE {
        let words = words_between(rt.alloc(), text, b'\n')?;
        assert!(rt; Job::read(words.as_slice()).is_none());
    }
    for text in NO_TRIALS {
        let words = words_between(rt.alloc(), text, b'\n')?;
        assert!(rt; Job::read(words.as_slice()).is_none());
    }
    Ok(())
}

#[test]
fn words_are_read(rt: HostRuntime) -> Result<(), Fail> {
    for (line, want) in FORMS {
        assert!(rt; asks(rt.alloc(), line, want)?);
    }
    for line in NO_FORMS {
        assert!(rt; asks(rt.alloc(), line, b"none")?);
    }
    for line in NO_JSON {
        assert!(rt; asks(rt.alloc(), line, b"none")?);
    }
    Ok(())
}

/// `export` with the libraries A0 to A9, B0 to B9 and so on, as many as are wanted.
fn many(alloc: Global, count: u8) -> Result<Vec<Bytes>, Memory> {
    let mut words = Vec::new(alloc);
    words.push(Bytes::of(alloc, b"export")?)?;
    for place in 0..count {
        words.push(Bytes::of(alloc, &[b'A' + place / 10, b'0' + place % 10, b'=', b'x'])?)?;
    }
    Ok(words)
}

#[test]
fn sixty_four_libraries_at_most(rt: HostRuntime) -> Result<(), Fail> {
    let full = many(rt.alloc(), 64)?;
    let over = many(rt.alloc(), 65)?;
    match Job::read(full.as_slice()) {
        Some(Job::Export(_, loading)) => assert_eq!(rt; loading.libraries.len(), 64),
        _ => assert!(rt; false),
    }
    assert!(rt; Job::read(over.as_slice()).is_none());
    Ok(())
}

/// Texts, and how many workers each asks for, with 0 for none.
const WORKERS: [(&[u8], u64); 12] = [
    (b"1", 1),
    (b"4", 4),
    (b"10", 10),
    (b"64", 64),
    (b"65", 0),
    (b"0", 0),
    (b"01", 0),
    (b"", 0),
    (b"+1", 0),
    (b"-1", 0),
    (b" 1", 0),
    (b"1x", 0),
];

/// Texts, and the number with which the generator begins.
const SEEDS: [(&[u8], Option<u64>); 6] = [
    (b"0", Some(0)),
    (b"00", None),
    (b"42", Some(42)),
    (b"18446744073709551615", Some(18_446_744_073_709_551_615)),
    (b"18446744073709551616", None),
    (b"99999999999999999999999999", None),
];

#[test]
fn numbers_are_read(rt: HostRuntime) {
    for (text, want) in WORKERS {
        assert_eq!(rt; workers_of(text).unwrap_or(0), want);
    }
    for (text, want) in SEEDS {
        assert_eq!(rt; seed_of(text), want);
    }
    assert_eq!(rt; count_of(b"1"), Some(1));
    assert_eq!(rt; count_of(b"200000"), Some(200_000));
    assert_eq!(rt; count_of(b"200001"), None);
    assert_eq!(rt; count_of(b"0"), None);
    assert_eq!(rt; workers_word(b"--workers=64"), Some(64));
    assert_eq!(rt; workers_word(b"--workers=01"), None);
    assert_eq!(rt; workers_word(b"--workers="), None);
    assert_eq!(rt; workers_word(b"--worker=4"), None);
    assert_eq!(rt; workers_word(b"workers=4"), None);
}

/// The lines of a text that are not passed over, each with a `|` after it.
fn kept(alloc: Global, text: &[u8]) -> Result<Vec<u8>, AllocError> {
    let mut kept = Vec::new(alloc);
    let mut lines = Lines::of(text);
    while let Some(line) = lines.next() {
        if !is_skipped(line) {
            kept.extend_from_slice(line)?;
            kept.extend_from_slice(b"|")?;
        }
    }
    Ok(kept)
}

/// Texts, and their lines that are not passed over.
const SCRIPTS: [(&[u8], &[u8]); 9] = [
    (b"", b""),
    (b"\n\r\n\n", b""),
    (b"export\n", b"export|"),
    (b"export", b"export|"),
    (b"export\r", b"export|"),
    (
        b"load LIBA a\r\n# a note\r\n\r\nexport\nworks",
        b"load LIBA a|export|works|",
    ),
    (b"#\n #\n", b" #|"),
    (b"a\r\r\nb\rc\n", b"a\r|b\rc|"),
    (b"a\n\r", b"a|"),
];

#[test]
fn lines_are_cut(rt: HostRuntime) -> Result<(), Fail> {
    for (text, want) in SCRIPTS {
        assert!(rt; kept(rt.alloc(), text)?.as_slice() == want);
    }
    Ok(())
}

/// What a line of a script asks for, as a text.
fn asked(alloc: Global, line: &[u8]) -> Result<Vec<u8>, AllocError> {
    let mut text = Vec::new(alloc);
    match ScriptLine::read(line) {
        ScriptLine::Load(file) => {
            text.extend_from_slice(b"load")?;
            tell_file(&mut text, &file)?;
        }
        ScriptLine::Export => text.extend_from_slice(b"export")?,
        ScriptLine::Works => text.extend_from_slice(b"works")?,
        ScriptLine::Notices => text.extend_from_slice(b"notices")?,
        ScriptLine::Ask(line) => {
            text.extend_from_slice(b"ask ")?;
            text.extend_from_slice(line)?;
        }
        ScriptLine::Word => text.extend_from_slice(b"word")?,
    }
    Ok(text)
}

/// Lines of a script, and what each asks for.
const SCRIPT_LINES: [(&[u8], &[u8]); 23] = [
    (b"load LIBA a.mrc", b"load LIBA a.mrc"),
    (b"load LIBA  a b ", b"load LIBA  a b "),
    (b"load  LIBA a", b"word"),
    (b"load liba a", b"word"),
    (b"load LIBA", b"word"),
    (b"load LIBA ", b"word"),
    (b"load LIBA \xFF", b"word"),
    (b"load", b"word"),
    (b"export", b"export"),
    (b"export ", b"export"),
    (b"export  ", b"word"),
    (b"export x", b"word"),
    (b"works", b"works"),
    (b"works x", b"word"),
    (b"works\t", b"ask works\t"),
    (b"notices", b"notices"),
    (b"notices ", b"notices"),
    (b"notices on", b"word"),
    (b"noticesx", b"ask noticesx"),
    (b"Export", b"ask Export"),
    (b"loads LIBA a", b"ask loads LIBA a"),
    (b" export", b"ask  export"),
    (b"count", b"ask count"),
];

#[test]
fn script_lines_are_read(rt: HostRuntime) -> Result<(), Fail> {
    for (line, want) in SCRIPT_LINES {
        assert!(rt; asked(rt.alloc(), line)?.as_slice() == want);
    }
    Ok(())
}

/// Whether the run ends with this number and tells this line.
fn ends(alloc: Global, status: Status, number: u8, line: &[u8]) -> Result<bool, AllocError> {
    let mut text = Vec::new(alloc);
    let (front, name, end) = status.early_parts();
    text.extend_from_slice(front)?;
    text.extend_from_slice(name)?;
    text.extend_from_slice(end)?;
    Ok(status.exit_number() == number && text.as_slice() == line)
}

#[test]
fn statuses_have_numbers_and_lines(rt: HostRuntime) -> Result<(), Fail> {
    let alloc = rt.alloc();
    let liba = Input::Library(LibraryCode::read(b"LIBA").ok_or("a code")?);
    let asks = Input::Asks;
    let script = Input::Script;
    assert!(rt; ends(alloc, Status::Done, 0, b"")?);
    assert!(rt; ends(alloc, Status::DoneWithRefusals, 1, b"")?);
    assert!(rt; ends(alloc, Status::Usage, 2, b"union: bad command line\n")?);
    assert!(rt;
        ends(
            alloc,
            Status::OpenFault(liba),
            3,
            b"union: cannot open LIBA\n"
        )?
    );
    assert!(rt;
        ends(
            alloc,
            Status::ReadFault(asks),
            4,
            b"union: read failed in asks\n"
        )?
    );
    assert!(rt; ends(alloc, Status::WriteFault, 5, b"")?);
    assert!(rt;
        ends(
            alloc,
            Status::TooLong(script),
            6,
            b"union: script is too long\n"
        )?
    );
    assert!(rt;
        ends(
            alloc,
            Status::OpenFault(Input::Names),
            3,
            b"union: cannot open names\n"
        )?
    );
    assert!(rt; ends(alloc, Status::Memory, 7, b"union: out of memory\n")?);
    Ok(())
}

/// Whether the line has at most 80 characters of ASCII and ends in none that cannot be seen.
fn is_plain(line: &[u8]) -> bool {
    line.len() <= 80 && line.iter().all(|b| 0x20 <= *b && *b <= 0x7E) && line.last() != Some(&b' ')
}

#[test]
fn own_texts_are_plain_lines(rt: HostRuntime) -> Result<(), Fail> {
    assert!(rt; version_text() == b"union 0.4.0\n".as_slice());
    let mut lines = Lines::of(help_text());
    let mut first = true;
    while let Some(line) = lines.next() {
        assert!(rt; is_plain(line));
        if first {
            assert!(rt; line == b"union - a union catalogue of MARC 21 records".as_slice());
        }
        first = false;
    }
    assert!(rt; help_text().last() == Some(&b'\n'));
    Ok(())
}
