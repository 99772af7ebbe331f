//! Measures parts of the program by themselves, with no catalogue: each is the work of one library or two.
//!
//! The first word says what is measured, as the modules of these names say:
//! - `frames` cuts standard input into frames,
//! - `names` reads authority records from standard input into a table of names,
//! - `rules` checks each frame of standard input and makes its record; with any further word it asks for the status alone,
//! - `forms FILE ..` makes the normal form of each text of the files,
//! - `works CHANGES SINGLES` changes works, by four changes of each kind if no numbers are given,
//! - `each FILE ..` does all that in this order, once.
#![tactic(auto)]

use crate::rules::Asked;
use std::io::Read;
use std::{env, io};

mod forms;
mod frames;
mod names;
mod rules;
mod stream;
mod works;

/// How many changes of works there are, if the words say no number.
const CHANGES: u64 = 4;

fn main(rt: HostRuntime) -> io::Result<()> {
    let mut words = Vec::new(rt.alloc());
    for word in env::args(&rt)?.skip(1) {
        words.push(word)?;
    }
    match words.as_slice() {
        [what, rest @ ..] => measure(&rt, what.as_str(), rest),
        [] => usage(&rt),
    }
}

/// Measures what the first word names.
fn measure(rt: &HostRuntime, what: &str, words: &[String]) -> io::Result<()> {
    match what {
        "frames" => frames::measure(rt, &mut rt.stdin()),
        "names" => names::measure(rt, &mut rt.stdin()),
        "rules" => rules::measure(rt, asked(words), &mut rt.stdin()),
        "forms" => forms::measure(rt, words),
        "works" => works::measure(rt, number(words.first()), number(words.get(1))),
        "each" => each(rt, words),
        _ => usage(rt),
    }
}

/// What `rules` asks of a frame.
fn asked(words: &[String]) -> Asked {
    if words.is_empty() {
        Asked::Record
    } else {
        Asked::Status
    }
}

/// The number that a word says, if it says one.
fn number(word: Option<&String>) -> u64 {
    match word {
        Some(word) => word.as_str().parse::<u64>().unwrap_or(CHANGES),
        None => CHANGES,
    }
}

/// Measures everything once: the parts that take a stream on the same bytes, those of standard input.
fn each(rt: &HostRuntime, paths: &[String]) -> io::Result<()> {
    let mut bytes = Vec::new(rt.alloc());
    rt.stdin().read_to_end(&mut bytes)?;
    frames::measure(rt, &mut bytes.as_slice())?;
    names::measure(rt, &mut bytes.as_slice())?;
    rules::measure(rt, Asked::Record, &mut bytes.as_slice())?;
    forms::measure(rt, paths)?;
    works::measure(rt, CHANGES, CHANGES)
}

fn usage(rt: &HostRuntime) -> io::Result<()> {
    eprintln!(rt; "usage: bench_parts frames|names|rules|forms|works|each [WORD..]")
}
