//! How many texts a file has, and how many bytes their normal forms. `bench/forms.sh` times it.
//!
//! The file is in UTF-8, with a text on each line, after a mark: `1` marks a name, of which the first comma is kept, and any other
//! character a title.
use naco_normal::form::{Comma, normal};
use std::alloc::Global;
use std::{fs, io};
use union_base::memory::Memory;

/// How many texts a file has, and how many bytes their forms.
#[derive(Clone, Copy, Default)]
struct Totals {
    texts: u64,
    bytes: u64,
}

/// The text of a line, and what becomes of its commas.
fn marked(line: &str) -> (&str, Comma) {
    let mut rest = line.chars();
    match rest.next() {
        Some('1') => (rest.as_str(), Comma::First),
        _ => (rest.as_str(), Comma::None),
    }
}

/// The totals of the lines.
fn count_forms(alloc: Global, lines: &str) -> Result<Totals, Memory> {
    let mut totals = Totals::default();
    for line in lines.lines() {
        let (text, comma) = marked(line);
        let form = normal(alloc, text, comma)?;
        totals.texts = totals.texts.saturating_add(1);
        totals.bytes = totals.bytes.saturating_add(form.bytes().len() as u64);
    }
    Ok(totals)
}

/// Prints the totals of each file.
pub fn measure(rt: &HostRuntime, paths: &[String]) -> io::Result<()> {
    for path in paths {
        let lines = fs::read_to_string(rt, path.as_str())?;
        let Ok(totals) = count_forms(rt.alloc(), lines.as_str()) else {
            return eprintln!(rt; "no memory");
        };
        println!(rt; "texts {} bytes {}", totals.texts, totals.bytes)?;
    }
    Ok(())
}
