//! The counting of a file's frames.
ghost use Rattle.std.specs.Prelude.{◌≡◌, ◌<◌, ◌+◌, ◌++◌, ◌∷◌, [], List, Some, None, OnOk};
ghost use Rattle.names_file.specs.Judging.{Judged};
ghost use Rattle.names_file.specs.NamesFiles.{Counts, IsTally, counts_line, refused_line};

use crate::fault::NameFault;
use crate::tally::Tally;
use library_batches::report_lines::add_counted;
use std::alloc::{AllocError, Global};

impl Tally {
    /// The count of no frames.
    pub(crate) fn new(alloc: Global) -> Tally
        ensures counted { IsTally [] result }
        ensures frames { result.frames ≡ 0 }
    {
        Tally {
            frames: 0,
            refused: 0,
            lines: Vec::new(alloc),
        }
    }

    /// Counts a frame that is read. Takes no memory.
    pub(crate) fn accept(&mut self)
        requires { self.old.frames < u64.MAX }
        ensures counted { (one : Judged) → one.fault ≡ None → Counts self.old self.new one }
        ensures frames { self.new.frames ≡ self.old.frames + 1 }
    {
        self.frames += 1;
    }

    /// Counts a frame that is refused, and adds `names refused FRAME NAME PLACE`.
    pub(crate) fn refuse(&mut self, fault: NameFault) -> Result<(), AllocError>
        requires { self.old.frames < u64.MAX }
        ensures counted { OnOk result ((one : Judged) → one.fault ≡ Some fault
            → Counts self.old self.new one) }
        ensures frames { OnOk result (self.new.frames ≡ self.old.frames + 1) }
    {
        add_refused(&mut self.lines, self.frames + 1, fault)?;
        self.frames += 1;
        self.refused += 1;
        Ok(())
    }
}

/// Adds `names refused FRAME NAME PLACE`.
fn add_refused(text: &mut Vec<u8>, frame: u64, fault: NameFault) -> Result<(), AllocError>
    ensures { OnOk result (text.new.items ≡ text.old.items ++ refused_line frame fault) }
{
    text.extend_from_slice(b"names")?;
    add_counted(text, b"refused", frame)?;
    add_counted(text, fault.name(), u64::from(fault.place()))?;
    text.push(b'\n')?;
    Ok(())
}

/// Adds `names frames F pairs P refused N`.
pub(crate) fn add_counts(
    text: &mut Vec<u8>,
    frames: u64,
    pairs: u64,
    refused: u64,
) -> Result<(), AllocError>
    ensures { OnOk result (text.new.items ≡ text.old.items ++ counts_line frames pairs refused) }
{
    text.extend_from_slice(b"names")?;
    add_counted(text, b"frames", frames)?;
    add_counted(text, b"pairs", pairs)?;
    add_counted(text, b"refused", refused)?;
    text.push(b'\n')?;
    Ok(())
}
