//! The lines of the text.
//!
//! Each function appends its text to a buffer.
ghost use Rattle.std.specs.Prelude.{◌≡◌, ◌++◌, OnOk};
ghost use Rattle.union_watch.specs.Told.{left_after, line_text, reply_line};
ghost use Rattle.union_watch.specs.TurnLines.{turn_of, turn_text};

use crate::ask_line::AskLine;
use catalogue_core::history_entry::HistoryEntry;
use catalogue_query::answer::Answer;
use catalogue_query::line_texts::{REFUSED_UNKNOWN, REFUSED_WORD, add_lines, add_six_digits};
use library_batches::report_lines::add_counted;
use std::alloc::AllocError;
use union_base::one_line::add_shown;

/// Adds `turn T LIB N`.
pub fn add_turn_line(text: &mut Vec<u8>, turn: u64, entry: &HistoryEntry) -> Result<(), AllocError>
    ensures { OnOk result (text.new.items ≡ text.old.items ++ turn_text (turn_of turn entry.now)) }
{
    let batch = &entry.batch;
    let count = batch.ops.as_slice().len() as u64;
    text.extend_from_slice(b"turn ")?;
    add_six_digits(text, turn)?;
    add_counted(text, batch.library.bytes(), count)?;
    text.push(b'\n')?;
    Ok(())
}

/// Adds `reply T LINE`.
fn add_reply_line(text: &mut Vec<u8>, over: u64, line: &[u8]) -> Result<(), AllocError>
    ensures { OnOk result (text.new.items ≡ text.old.items ++ reply_line over line.now) }
{
    text.extend_from_slice(b"reply ")?;
    add_six_digits(text, over)?;
    text.push(b' ')?;
    add_shown(text, line)?;
    text.push(b'\n')?;
    Ok(())
}

/// The replies that are still to be told.
#[derive(Drop)]
pub struct Replies<'a> {
    pub left: &'a [(u64, Answer)],
}

/// Adds what is told of a line, with the first of the replies where it asks something.
pub fn add_told(
    text: &mut Vec<u8>,
    line: &AskLine<'_>,
    replies: &mut Replies<'_>,
) -> Result<(), AllocError>
    ensures told { OnOk result (text.new.items ≡ text.old.items
        ++ line_text line.now replies.old.left.now) }
    ensures left { OnOk result (replies.new.left.now ≡ left_after line.now replies.old.left.now) }
{
    match line {
        AskLine::Asks(line) => {
            if let Some((reply, left)) = replies.left.split_first() {
                add_reply_line(text, reply.0, line)?;
                add_lines(text, reply.1.lines.as_slice())?;
                replies.left = left;
            }
            Ok(())
        }
        AskLine::Unknown => text.extend_from_slice(REFUSED_UNKNOWN),
        AskLine::Word => text.extend_from_slice(REFUSED_WORD),
    }
}
