//! The lines of a script or of a file of questions, each borrowed from the text.
ghost use Rattle.std.specs.Prelude.{◌≡◌, ℕ, List, [], ◌∷◌, MatchOption};
ghost use Rattle.union_words.specs.Lines.{lines_of, without_return, is_skipped};

use memchr::memchr;
use std::marker::Model;

/// The lines of a text that are still to come. Contracts see them as the list of these lines.
#[derive(Drop)]
pub struct Lines<'a> {
    rest: Option<&'a [u8]>,
}

impl<'a> Model for Lines<'a> {
    ghost use Rattle.std.specs.Prelude.{List, ℕ};
    ghost use Rattle.std.specs.Option.{option_copied};
    ghost use Rattle.union_words.specs.Lines.{lines_left};

    ghost Value = { List (List ℕ) };

    ghost view = { λ lines. lines_left (option_copied lines.rest) };
}

impl<'a> Lines<'a> {
    /// The lines of the text. Each ends at a line feed or at the end of the text, and is without the carriage return at
    /// its end. Takes no memory.
    pub fn of(text: &'a [u8]) -> Lines<'a>
        ensures { result ≡ lines_of text.now }
    {
        Lines { rest: Some(text) }
    }

    /// The next line, and None where no more is to come. Takes no memory.
    pub fn next(&mut self) -> Option<&'a [u8]>
        ensures { MatchOption result ((self.old ≡ []) × (self.new ≡ []))
            (λ line. self.old ≡ line.now ∷ self.new) }
    {
        let text = self.rest?;
        let (line, rest) = first_line(text);
        self.rest = rest;
        Some(line)
    }
}

/// The first line, and the text after its line feed: None where the line ends at the end of the text.
fn first_line(text: &[u8]) -> (&[u8], Option<&[u8]>)
    ensures { MatchOption result.1 (lines_of text.now ≡ result.0.now ∷ [])
        (λ rest. lines_of text.now ≡ result.0.now ∷ lines_of rest.now) }
{
    match memchr(b'\n', text) {
        Some(at) => (
            without_return(text.split_at(at).0),
            Some(text.split_at(at + 1).1),
        ),
        None => (without_return(text), None),
    }
}

/// The line without the carriage return at its end.
fn without_return(line: &[u8]) -> &[u8]
    ensures { result.now ≡ without_return line.now }
{
    match line.strip_suffix(b"\r") {
        Some(front) => front,
        None => line,
    }
}

/// Whether a line is passed over: an empty one, and one that begins with `#`. Takes no memory.
pub fn is_skipped(line: &[u8]) -> bool
    ensures { result ≡ is_skipped line.now }
{
    match line {
        [] => true,
        [first, ..] => *first == b'#',
    }
}
