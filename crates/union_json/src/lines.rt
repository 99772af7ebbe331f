//! The lines that a run notes. Each function appends its text to a buffer; the texts are those of specs/Texts.antt.
ghost use Rattle.std.specs.Prelude.{◌≡◌, ◌++◌, OnOk};
ghost use Rattle.union_json.specs.Texts.{count_line, reason_name, reason_place, refused_line, refused_lines};

use crate::outcome::{Reason, RefusedLine};
use library_batches::report_lines::add_counted;
use std::alloc::AllocError;

/// How many things there are, of how many something is written, and how many are refused.
#[derive(Clone, Copy, Debug, PartialEq, Eq)]
pub struct Counted {
    pub all: u64,
    pub written: u64,
    pub refused: u64,
}

/// Adds `LIB WORD F written W refused N`.
pub fn add_count_line(
    text: &mut Vec<u8>,
    library: &[u8],
    word: &[u8],
    counts: Counted,
) -> Result<(), AllocError>
    ensures { OnOk result (text.new.items
        ≡ text.old.items ++ count_line library.now word.now counts.all counts.written
        counts.refused) }
{
    text.extend_from_slice(library)?;
    add_counted(text, word, counts.all)?;
    add_counted(text, b"written", counts.written)?;
    add_counted(text, b"refused", counts.refused)?;
    text.push(b'\n')?;
    Ok(())
}

/// The name of why a line gives no frame. Takes no memory.
fn reason_name(reason: Reason) -> &'static [u8]
    ensures { result.now ≡ reason_name reason }
{
    match reason {
        Reason::LineTooLong => b"LineTooLong",
        Reason::Json => b"Json",
        Reason::Shape { .. } => b"Shape",
        Reason::FieldTooLong => b"FieldTooLong",
        Reason::RecordTooLong => b"RecordTooLong",
        Reason::Breaks { rule, .. } => rule.name(),
    }
}

/// Where it stands: the number of a field of a wrong form, the place of a rule, and else 0. Takes no memory.
fn reason_place(reason: Reason) -> u64
    ensures { result ≡ reason_place reason }
{
    match reason {
        Reason::Shape { at } => at,
        Reason::Breaks { place, .. } => u64::from(place),
        Reason::LineTooLong | Reason::Json | Reason::FieldTooLong | Reason::RecordTooLong => 0,
    }
}

/// Adds `LIB refused LINE NAME PLACE`.
fn add_refused_line(
    text: &mut Vec<u8>,
    library: &[u8],
    line: &RefusedLine,
) -> Result<(), AllocError>
    ensures { OnOk result (text.new.items ≡ text.old.items ++ refused_line library.now line.now) }
{
    text.extend_from_slice(library)?;
    add_counted(text, b"refused", line.line)?;
    add_counted(text, reason_name(line.reason), reason_place(line.reason))?;
    text.push(b'\n')?;
    Ok(())
}

/// Adds a line for each refused line.
pub fn add_refused_lines(
    text: &mut Vec<u8>,
    library: &[u8],
    lines: &[RefusedLine],
) -> Result<(), AllocError>
    ensures { OnOk result (text.new.items ≡ text.old.items ++ refused_lines library.now lines.now) }
{
    for line in lines {
        add_refused_line(text, library, line)?;
    }
    Ok(())
}
