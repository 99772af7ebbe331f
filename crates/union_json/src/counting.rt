//! The counting of lines.
ghost use Rattle.std.specs.Prelude.{◌≡◌, ◌+◌, ◌<◌, ◌++◌, ◌∷◌, [], List, IfOk, OnOk};
ghost use Rattle.union_json.specs.Counts.{AreCounted, Counts};

use crate::findings::Findings;
use crate::gathered::Gathered;
use crate::outcome::{Outcome, RefusedLine};
use std::alloc::{AllocError, Global};

impl Findings {
    /// The count of no lines.
    pub fn open(alloc: Global) -> Result<Findings, AllocError>
        ensures counted { IfOk result (λ found. AreCounted [] found) }
    {
        Ok(Findings {
            lines: 0,
            read: 0,
            written: 0,
            refused: Vec::new(alloc),
            frames: Gathered::open(alloc)?,
        })
    }

    /// Counts the next line, which came to `outcome` and for which `frame` is written.
    pub fn count(&mut self, outcome: Outcome, frame: &[u8]) -> Result<(), AllocError>
        requires { self.old.lines < u64.MAX }
        ensures counted { OnOk result (Counts self.old self.new (outcome, frame.now)) }
        ensures lines { OnOk result (self.new.lines ≡ self.old.lines + 1) }
    {
        self.frames.add(frame)?;
        let line = self.lines + 1;
        match outcome {
            Outcome::Skipped => {
                self.lines = line;
                Ok(())
            }
            Outcome::Written => {
                self.lines = line;
                self.read += 1;
                self.written += 1;
                Ok(())
            }
            Outcome::Refused(reason) => {
                self.refused.push(RefusedLine { line, reason })?;
                self.lines = line;
                self.read += 1;
                Ok(())
            }
        }
    }
}
