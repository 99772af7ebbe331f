//! The line that is not ended yet.
ghost use Rattle.std.specs.Prelude.{◌≡◌, ℕ, [], List, ◌++◌, OnOk, MatchOption, None};
ghost use Rattle.std.specs.Option.{option_copied};
ghost use Rattle.union_words.specs.Lines.{without_return};
ghost use Rattle.union_json.specs.Kept.{Holds};
ghost use Rattle.union_json.specs.Lines.{line_within};

use std::alloc::{AllocError, Global};

/// The most bytes of a line before its line feed; a carriage return there is one of them.
pub const LONGEST_LINE: usize = 1_048_576;

/// The bytes of a line that is not ended yet, or that it is longer than a line may be.
#[derive(Drop)]
pub struct BegunLine {
    pub bytes: Vec<u8>,
    pub is_over: bool,
}

impl BegunLine {
    /// A line without bytes. Takes no memory.
    pub fn new(alloc: Global) -> BegunLine
        ensures { Holds result [] }
    {
        BegunLine {
            bytes: Vec::new(alloc),
            is_over: false,
        }
    }

    /// The line goes on.
    pub fn add(&mut self, part: &[u8]) -> Result<(), AllocError>
        ensures { OnOk result ((begun : List ℕ) → Holds self.old begun
            → Holds self.new (begun ++ part.now)) }
    {
        if self.is_over {
            return Ok(());
        }
        if part.len() > LONGEST_LINE.saturating_sub(self.bytes.len()) {
            self.is_over = true;
            self.bytes.clear();
            return Ok(());
        }
        self.bytes.extend_from_slice(part)?;
        Ok(())
    }

    /// The line without the carriage return at its end; None where it is too long. Takes no memory.
    pub fn line(&self) -> Option<&[u8]>
        ensures { (begun : List ℕ) → Holds self.now begun
            → option_copied result ≡ line_within begun }
    {
        if self.is_over {
            None
        } else {
            Some(without_return(self.bytes.as_slice()))
        }
    }

    /// Begins the next line. Takes no memory.
    pub fn clear(&mut self)
        ensures { Holds self.new [] }
    {
        self.is_over = false;
        self.bytes.clear();
    }
}

/// The line without the carriage return at its end.
fn without_return(line: &[u8]) -> &[u8]
    ensures { result.now ≡ without_return line.now }
{
    match line.strip_suffix(b"\r") {
        Some(front) => front,
        None => line,
    }
}
