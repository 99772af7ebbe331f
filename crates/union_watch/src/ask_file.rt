//! The lines of a file of questions.
ghost use Rattle.std.specs.Prelude.{◌≡◌, ◌++◌, ◌∷◌, [], IfOk, OnOk};
ghost use Rattle.std.specs.List.{list_any};
ghost use Rattle.std.specs.Result.{is_err};
ghost use Rattle.union_watch.specs.AskLines.{line_meaning, lines_in, lines_read, question_of, questions_in, read_line};

use crate::ask_line::AskLine;
use catalogue_query::query::{Query, QueryRefusal};
use std::alloc::Global;
use union_base::memory::Memory;
use union_words::lines::{Lines, is_skipped};

/// The lines of a file of questions that are not skipped, and the questions of those that ask something, both in their order.
#[derive(Drop)]
pub struct AskFile<'a> {
    pub lines: Vec<AskLine<'a>>,
    pub questions: Vec<Query>,
}

impl<'a> AskFile<'a> {
    /// Reads the lines of the text. Returns `Memory` if allocation fails.
    pub fn read(alloc: Global, text: &'a [u8]) -> Result<AskFile<'a>, Memory>
        ensures lines { IfOk result (λ file. lines_read file ≡ lines_in text.now) }
        ensures questions { IfOk result (λ file. file.questions.items ≡ questions_in text.now) }
    {
        let mut file = AskFile {
            lines: Vec::new(alloc),
            questions: Vec::new(alloc),
        };
        let mut lines = Lines::of(text);
        while let Some(line) = lines.next() {
            if !is_skipped(line) {
                file.add(alloc, line)?;
            }
        }
        Ok(file)
    }

    /// Adds a line, and its question where it asks one.
    fn add(&mut self, alloc: Global, line: &'a [u8]) -> Result<(), Memory>
        ensures lines { OnOk result (lines_read self.new ≡ lines_read self.old
            ++ read_line line.now ∷ []) }
        ensures questions { OnOk result (self.new.questions.items ≡ self.old.questions.items
            ++ question_of line.now) }
    {
        match Query::read(alloc, line) {
            Ok(query) => {
                self.questions.push(query)?;
                self.lines.push(AskLine::Asks(line))?;
                Ok(())
            }
            Err(QueryRefusal::Unknown) => {
                self.lines.push(AskLine::Unknown)?;
                Ok(())
            }
            Err(QueryRefusal::Word) => {
                self.lines.push(AskLine::Word)?;
                Ok(())
            }
            Err(QueryRefusal::Memory) => Err(Memory),
        }
    }

    /// Whether a line is refused. Takes no memory.
    pub fn has_refusals(&self) -> bool
        ensures { result ≡ list_any is_err (lines_read self.now) }
    {
        has_refused(self.lines.as_slice())
    }
}

fn has_refused(lines: &[AskLine<'_>]) -> bool
    ensures { result ≡ list_any (λ line. is_err (line_meaning line)) lines.now }
{
    lines.iter().any(|line| is_refused(line))
}

fn is_refused(line: &AskLine<'_>) -> bool
    ensures { result ≡ is_err (line_meaning line.now) }
{
    match line {
        AskLine::Asks(_) => false,
        AskLine::Unknown | AskLine::Word => true,
    }
}
