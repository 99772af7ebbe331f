//! What the words of the command line ask for.
ghost use Rattle.std.specs.Prelude.{◌≡◌};
ghost use Rattle.std.specs.Option.{option_copied, option_map};
ghost use Rattle.union_words.specs.Meanings.{job_meaning};
ghost use Rattle.union_words.specs.Words;

use crate::form::{Exporting, exporting_in};
use crate::libraries::Libraries;
use crate::library_file::{LibraryFile, is_path};
use crate::loading::Loading;
use crate::number::option_text;
use crate::options::Options;
use crate::trial::Trial;
use union_base::bytes::Bytes;

/// What the program is asked to do. A job borrows the words.
#[derive(Clone, Copy)]
pub enum Job<'a> {
    /// `check LIB=PATH`: check one file.
    Check(LibraryFile<'a>),
    /// `tojson LIB=PATH`: write the records of one file as MARC in JSON.
    ToJson(LibraryFile<'a>),
    /// `fromjson LIB=PATH`: write the records of one file of MARC in JSON as ISO 2709.
    FromJson(LibraryFile<'a>),
    /// `export [--workers=N] [--prefer=LIB,..] [--names=PATH] [--json] [--owners] LIB=PATH ..`: load and export.
    Export(Exporting, Loading<'a>),
    /// `works [--workers=N] [--prefer=LIB,..] [--names=PATH] LIB=PATH ..`: load and list the works.
    Works(Loading<'a>),
    /// `watch --ask=PATH [--workers=N] [--prefer=LIB,..] [--names=PATH] LIB=PATH ..`: load, and answer the questions of that file beside.
    Watch(&'a [u8], Loading<'a>),
    /// `follow --ask=PATH LIB=PATH ..`: load one library after the other, and answer the questions of that file beside.
    Follow(&'a [u8], Libraries<'a>),
    /// `script PATH`: run a script.
    Script(&'a [u8]),
    /// `trial SEED COUNT WORKERS`: generate records, load them and measure the catalogue.
    Trial(Trial),
    /// `--help`: tell the forms of words.
    Help,
    /// `--version`: tell the program's name and version.
    Version,
}

impl<'a> Job<'a> {
    /// What the words after the program's name ask for: None exactly where they are in no form that the program has. Takes no
    /// memory.
    pub fn read(words: &'a [Bytes]) -> Option<Job<'a>>
        ensures { option_map job_meaning result ≡ Words.job_of words.now }
    {
        match words {
            [] => None,
            [word] => lone_job(word.bytes()),
            [command, words @ ..] => command_job(command.bytes(), words),
        }
    }
}

/// What a word that stands alone asks for.
fn lone_job<'a>(word: &[u8]) -> Option<Job<'a>>
    ensures { option_map job_meaning result ≡ Words.lone_job word.now }
{
    if word == b"--help".as_slice() {
        Some(Job::Help)
    } else if word == b"--version".as_slice() {
        Some(Job::Version)
    } else {
        None
    }
}

/// What a command with words after it asks for.
fn command_job<'a>(command: &[u8], words: &'a [Bytes]) -> Option<Job<'a>>
    ensures { option_map job_meaning result ≡ Words.command_job command.now words.now }
{
    if command == b"check".as_slice() {
        check_job(words)
    } else if command == b"tojson".as_slice() {
        to_json_job(words)
    } else if command == b"fromjson".as_slice() {
        from_json_job(words)
    } else if command == b"export".as_slice() {
        export_job(words)
    } else if command == b"works".as_slice() {
        works_job(words)
    } else if command == b"watch".as_slice() {
        watch_job(words)
    } else if command == b"follow".as_slice() {
        follow_job(words)
    } else if command == b"script".as_slice() {
        script_job(words)
    } else if command == b"trial".as_slice() {
        trial_job(words)
    } else {
        None
    }
}

fn check_job(words: &[Bytes]) -> Option<Job<'_>>
    ensures { option_map job_meaning result ≡ Words.check_job words.now }
{
    match words {
        [word] => match LibraryFile::read(word.bytes()) {
            Some(file) => Some(Job::Check(file)),
            None => None,
        },
        _ => None,
    }
}

fn to_json_job(words: &[Bytes]) -> Option<Job<'_>>
    ensures { option_map job_meaning result ≡ Words.to_json_job words.now }
{
    match words {
        [word] => match LibraryFile::read(word.bytes()) {
            Some(file) => Some(Job::ToJson(file)),
            None => None,
        },
        _ => None,
    }
}

fn from_json_job(words: &[Bytes]) -> Option<Job<'_>>
    ensures { option_map job_meaning result ≡ Words.from_json_job words.now }
{
    match words {
        [word] => match LibraryFile::read(word.bytes()) {
            Some(file) => Some(Job::FromJson(file)),
            None => None,
        },
        _ => None,
    }
}

fn export_job(words: &[Bytes]) -> Option<Job<'_>>
    ensures { option_map job_meaning result ≡ Words.export_job words.now }
{
    let options = Options::read(words);
    let (exporting, rest) = exporting_in(options.rest);
    match Loading::read(options, rest) {
        Some(loading) => Some(Job::Export(exporting, loading)),
        None => None,
    }
}

fn works_job(words: &[Bytes]) -> Option<Job<'_>>
    ensures { option_map job_meaning result ≡ Words.works_job words.now }
{
    let options = Options::read(words);
    let libraries = options.rest;
    match Loading::read(options, libraries) {
        Some(loading) => Some(Job::Works(loading)),
        None => None,
    }
}

fn watch_job(words: &[Bytes]) -> Option<Job<'_>>
    ensures { option_map job_meaning result ≡ Words.watch_job words.now }
{
    match words {
        [word, words @ ..] => asking_job(ask_word(word.bytes())?, words),
        [] => None,
    }
}

/// What `watch` asks for with the file of questions of that path.
fn asking_job<'a>(asks: &'a [u8], words: &'a [Bytes]) -> Option<Job<'a>>
    ensures { option_map job_meaning result ≡ Words.asking_job (Some asks.now) words.now }
{
    let common = Options::read(words);
    let rest = common.rest;
    match Loading::read(common, rest) {
        Some(loading) => Some(Job::Watch(asks, loading)),
        None => None,
    }
}

fn follow_job(words: &[Bytes]) -> Option<Job<'_>>
    ensures { option_map job_meaning result ≡ Words.follow_job words.now }
{
    match words {
        [word, words @ ..] => following_job(ask_word(word.bytes())?, words),
        [] => None,
    }
}

/// What `follow` asks for with the file of questions of that path.
fn following_job<'a>(asks: &'a [u8], words: &'a [Bytes]) -> Option<Job<'a>>
    ensures { option_map job_meaning result ≡ Words.following_job (Some asks.now) words.now }
{
    match Libraries::read(words) {
        Some(libraries) => Some(Job::Follow(asks, libraries)),
        None => None,
    }
}

/// The path in a word `--ask=PATH`.
fn ask_word(word: &[u8]) -> Option<&[u8]>
    ensures { option_copied result ≡ Words.ask_word word.now }
{
    let path = option_text(b"--ask=", word)?;
    if is_path(path) { Some(path) } else { None }
}

fn script_job(words: &[Bytes]) -> Option<Job<'_>>
    ensures { option_map job_meaning result ≡ Words.script_job words.now }
{
    match words {
        [word] if is_path(word.bytes()) => Some(Job::Script(word.bytes())),
        _ => None,
    }
}

fn trial_job(words: &[Bytes]) -> Option<Job<'_>>
    ensures { option_map job_meaning result ≡ Words.trial_job words.now }
{
    match words {
        [seed, count, workers] => match Trial::read(seed.bytes(), count.bytes(), workers.bytes()) {
            Some(trial) => Some(Job::Trial(trial)),
            None => None,
        },
        _ => None,
    }
}
