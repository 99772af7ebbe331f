//! The lines of a text, in whatever pieces it comes.
ghost use Rattle.std.specs.Prelude.{◌≡◌, ◌+◌, ◌<◌, ◌≤◌, ℕ, false, List, [], ◌∷◌, ◌++◌, length, IfOk, OnOk};
ghost use Rattle.std.specs.List.{All};
ghost use Rattle.union_json.specs.Converting.{HasTaken, JudgesHeld, Takes};
ghost use Rattle.union_json.specs.Counts.{IsConverted};
ghost use Rattle.union_json.specs.Lines.{is_feed};

use crate::begun_line::BegunLine;
use crate::findings::Findings;
use crate::judging::judge;
use memchr::memchr;
use std::alloc::Global;
use union_base::memory::Memory;

/// Makes the lines of a text into frames, as the text comes. It holds one line at most, and what came of the others.
#[derive(Drop)]
pub struct Converter {
    pub begun: BegunLine,
    pub findings: Findings,
    frame: Vec<u8>,
}

impl Converter {
    /// A converter that has taken nothing.
    pub fn open(alloc: Global) -> Result<Converter, Memory>
        ensures taken { IfOk result (λ converter. HasTaken [] converter) }
        ensures few { IfOk result (λ converter. converter.findings.lines ≡ 0) }
    {
        Ok(Converter {
            begun: BegunLine::new(alloc),
            findings: Findings::open(alloc)?,
            frame: Vec::new(alloc),
        })
    }

    /// Judges the line that is held, and counts it.
    fn judge_begun(&mut self, alloc: Global) -> Result<(), Memory>
        requires { self.old.findings.lines < u64.MAX }
        ensures counted { OnOk result (JudgesHeld self.old self.new) }
        ensures lines { OnOk result (self.new.findings.lines ≡ self.old.findings.lines + 1) }
    {
        let outcome = judge(alloc, self.begun.line(), &mut self.frame)?;
        self.findings.count(outcome, self.frame.as_slice())?;
        Ok(())
    }

    /// The held line ends with these bytes and a line feed.
    fn end_line(&mut self, alloc: Global, part: &[u8]) -> Result<(), Memory>
        requires room { self.old.findings.lines < u64.MAX }
        requires unended { All (λ b. is_feed b ≡ false) part.now }
        ensures taken { OnOk result (Takes self.old self.new (part.now ++ 0x0A ∷ [])) }
        ensures lines { OnOk result (self.new.findings.lines ≡ self.old.findings.lines + 1) }
    {
        self.begun.add(part)?;
        self.judge_begun(alloc)?;
        self.begun.clear();
        Ok(())
    }

    /// Takes the next piece of the text.
    ///
    /// Returns `Memory` if allocation fails; nothing is said of what was taken then.
    pub fn take(&mut self, alloc: Global, piece: &[u8]) -> Result<(), Memory>
        requires { self.old.findings.lines + length piece.now < u64.MAX }
        ensures taken { OnOk result (Takes self.old self.new piece.now) }
        ensures few { OnOk result (self.new.findings.lines
            ≤ self.old.findings.lines + length piece.now) }
    {
        let mut rest = piece;
        while let Some(at) = memchr(b'\n', rest) {
            let (part, behind) = rest.split_at(at);
            self.end_line(alloc, part)?;
            rest = behind.split_at(1).1;
        }
        self.begun.add(rest)?;
        Ok(())
    }

    /// What came of all lines, the last of which ends here.
    ///
    /// Returns `Memory` if allocation fails.
    pub fn finish(mut self, alloc: Global) -> Result<Findings, Memory>
        requires { self.findings.lines < u64.MAX }
        ensures { IfOk result (λ found. (text : List ℕ) → HasTaken text self
            → IsConverted found text) }
    {
        self.judge_begun(alloc)?;
        Ok(self.findings)
    }
}
