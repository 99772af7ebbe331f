//! One line of a script.
ghost use Rattle.std.specs.Prelude.{◌≡◌};
ghost use Rattle.union_words.specs.Meanings.{line_meaning};
ghost use Rattle.union_words.specs.ScriptLines as lines;
ghost use Rattle.union_words.specs.ScriptLines.{load_line, lone_line, script_line};

use crate::library_file::{LibraryFile, is_path};
use union_base::blanks::cut_at_blank;
use union_base::library_code::LibraryCode;

/// What a line of a script asks for. It borrows the line.
#[derive(Clone, Copy)]
pub enum ScriptLine<'a> {
    /// `load LIB PATH`: load the file of a library.
    Load(LibraryFile<'a>),
    /// `export`: write the export.
    Export,
    /// `works`: list the works.
    Works,
    /// `notices`: each later load writes what its turns changed.
    Notices,
    /// Any other line: it asks something of the catalogue, or begins with an unknown word.
    Ask(&'a [u8]),
    /// `load`, `export`, `works` or `notices` in no form of theirs. The line is refused.
    Word,
}

impl<'a> ScriptLine<'a> {
    /// What the line asks for (this project's own). Its first word ends at the first blank or at the end of the line; one
    /// blank follows it, and then the rest:
    ///
    /// | First word | Rest |
    /// |---|---|
    /// | `load` | a library code, one blank, and a path, which is all that is left |
    /// | `export`, `works`, `notices` | nothing |
    ///
    /// A line with one of these words and another rest is `Word`, and a line with none of them is `Ask`. A path is UTF-8 and
    /// at least one byte. Takes no memory.
    pub fn read(line: &'a [u8]) -> ScriptLine<'a>
        ensures { line_meaning result ≡ script_line line.now }
    {
        let (word, rest) = cut_at_blank(line);
        if word == b"load".as_slice() {
            load_line(rest)
        } else if word == b"export".as_slice() {
            export_line(rest)
        } else if word == b"works".as_slice() {
            works_line(rest)
        } else if word == b"notices".as_slice() {
            notices_line(rest)
        } else {
            ScriptLine::Ask(line)
        }
    }
}

/// What `load` with this rest asks for.
fn load_line(rest: &[u8]) -> ScriptLine<'_>
    ensures { line_meaning result ≡ load_line rest.now }
{
    let (code, path) = cut_at_blank(rest);
    match LibraryCode::read(code) {
        Some(library) if is_path(path) => ScriptLine::Load(LibraryFile { library, path }),
        _ => ScriptLine::Word,
    }
}

/// What `export` with this rest asks for.
fn export_line(rest: &[u8]) -> ScriptLine<'_>
    ensures { line_meaning result ≡ lone_line lines.Export rest.now }
{
    match rest {
        [] => ScriptLine::Export,
        _ => ScriptLine::Word,
    }
}

/// What `works` with this rest asks for.
fn works_line(rest: &[u8]) -> ScriptLine<'_>
    ensures { line_meaning result ≡ lone_line lines.Works rest.now }
{
    match rest {
        [] => ScriptLine::Works,
        _ => ScriptLine::Word,
    }
}

/// What `notices` with this rest asks for.
fn notices_line(rest: &[u8]) -> ScriptLine<'_>
    ensures { line_meaning result ≡ lone_line lines.Notices rest.now }
{
    match rest {
        [] => ScriptLine::Notices,
        _ => ScriptLine::Word,
    }
}
