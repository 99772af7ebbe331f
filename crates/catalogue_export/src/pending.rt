//! A text on its way to an output, in pieces.
ghost use Rattle.catalogue_export.specs.Writing.{HasMoved, HasWritten, outflow};

use crate::export_fail::ExportFail;
use union_io::failed::Failed;
use union_io::sink::{Sink, put_all};

/// How many bytes are gathered before they are written.
const PIECE: usize = 65_536;

/// Writes what is pending, once there is enough of it.
pub fn hand_on<O: Sink>(pending: &mut Vec<u8>, out: &mut O) -> Result<(), ExportFail>
    ensures { HasMoved pending.old.items pending.new.items
        (outflow O.written O.faults out.old out.new) result }
{
    if pending.len() < PIECE {
        return Ok(());
    }
    match put_all(out, pending.as_slice()) {
        Ok(()) => {
            pending.clear();
            Ok(())
        }
        Err(Failed) => Err(ExportFail::WriteFault),
    }
}

/// Writes the rest.
pub fn hand_on_rest<O: Sink>(pending: &[u8], out: &mut O) -> Result<(), ExportFail>
    ensures { HasWritten pending.now
        (outflow O.written O.faults out.old out.new) result }
{
    match put_all(out, pending) {
        Ok(()) => Ok(()),
        Err(Failed) => Err(ExportFail::WriteFault),
    }
}
