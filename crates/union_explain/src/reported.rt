//! The lines of a report on refused records.
ghost use Rattle.std.specs.Prelude.{◌≡◌, ◌<◌, ◌≤◌, ◌^◌, IfOk, IfSome};
ghost use Rattle.std.specs.List.{filter_map};
ghost use Rattle.union_words.specs.Lines.{lines_of};
ghost use Rattle.union_explain.specs.Reports.{all_told, told_by, is_refused_line, refused_by, rising, IsRising};
ghost use Rattle.union_explain.specs.Runs.{refused_in};
ghost use Rattle.union_base.specs.Blanks.{first_word, rest_of};

use crate::rules::rule_named;
use crate::words::{after, before};
use marc_fields::rules::Rule;
use std::alloc::Global;
use union_base::memory::Memory;
use union_words::lines::Lines;
use union_words::number::number_within;

/// A refused record, as a report tells of it.
#[derive(Clone, Copy, Debug, PartialEq, Eq)]
pub struct Reported {
    /// The number of its frame in the library's file, counted from 1.
    pub number: u64,
    /// The rule that it breaks.
    pub rule: Rule,
    /// 0, an offset in the leader, or the number of an entry (see `Rule`).
    pub place: u64,
}

/// The refused record of these parts, where each was read.
fn all_told(number: Option<u64>, rule: Option<Rule>, place: Option<u64>) -> Option<Reported>
    ensures { result ≡ all_told number rule place }
{
    match (number, rule, place) {
        (Some(number), Some(rule), Some(place)) => Some(Reported {
            number,
            rule,
            place,
        }),
        _ => None,
    }
}

/// What follows the second word.
fn after_two(text: &[u8]) -> &[u8]
    ensures { result.now ≡ rest_of (rest_of text.now) }
{
    after(b' ', after(b' ', text))
}

/// The second word.
fn second_word(text: &[u8]) -> &[u8]
    ensures { result.now ≡ first_word (rest_of text.now) }
{
    before(b' ', after(b' ', text))
}

/// What `FRAME RULE PLACE` tells.
fn told_by(text: &[u8]) -> Option<Reported>
    ensures { result ≡ told_by text.now }
{
    let number = number_within(1, u64::MAX, before(b' ', text));
    let place = number_within(0, 99_999, after_two(text));
    all_told(number, rule_named(second_word(text)), place)
}

/// Whether the line begins with the library and `refused`.
fn is_refused_line(library: &[u8], line: &[u8]) -> bool
    ensures { result ≡ is_refused_line library.now line.now }
{
    before(b' ', line) == library && second_word(line) == b"refused".as_slice()
}

/// The refused record of the library that the line tells of: None where it is no line `LIB refused FRAME RULE PLACE` of that
/// library. Takes no memory.
pub fn refused_by(library: &[u8], line: &[u8]) -> Option<Reported>
    ensures { result ≡ refused_by library.now line.now }
{
    if is_refused_line(library, line) {
        told_by(after_two(line))
    } else {
        None
    }
}

/// The refused records of the library that the report tells of, in its order. One whose number is not greater than that of
/// the one before it is passed over: `check` and `export` write none.
pub fn refused_of(alloc: Global, library: &[u8], report: &[u8]) -> Result<Vec<Reported>, Memory>
    ensures value { IfOk result (λ found. found.items ≡ refused_in report.now library.now) }
    ensures rising { IfOk result (λ found. IsRising 0 found.items) }
{
    let mut found = Vec::new(alloc);
    let mut last = 0;
    let mut lines = Lines::of(report);
    while let Some(line) = lines.next() {
        if let Some(reported) = refused_by(library, line) {
            if last < reported.number {
                last = reported.number;
                found.push(reported)?;
            }
        }
    }
    Ok(found)
}
