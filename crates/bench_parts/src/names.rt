//! How many authority records of a stream a table of names takes, and how many see-from headings it has then. `bench/names.sh`
//! times it.
ghost use Rattle.marc_fields.specs.Rules.{IsFrame};

use crate::stream::{Measure, take_all};
use authority_names::name_table::NameTable;
use iso2709_frame::cut::Cut;
use key_hashing::hashing::Hashing;
use marc_fields::decoding::{decode, is_frame};
use std::alloc::Global;
use std::io;
use std::io::Read;

/// A table, and what became of the frames that were cut whole.
#[derive(Drop)]
struct Reading {
    table: NameTable,
    taken: u64,
    refused: u64,
}

impl Measure for Reading {
    fn take(&mut self, alloc: Global, cut: Cut, frame: &[u8]) {
        let Cut::Whole = cut else {
            return;
        };
        if is_frame(frame) && adds(alloc, &mut self.table, frame) {
            self.taken = self.taken.saturating_add(1);
        } else {
            self.refused = self.refused.saturating_add(1);
        }
    }
}

/// Adds the record that the frame spells, and answers whether it was added.
fn adds(alloc: Global, table: &mut NameTable, frame: &[u8]) -> bool
    requires { IsFrame frame.now }
{
    match decode(alloc, frame) {
        Ok(rec) => table.add(alloc, &rec).is_ok(),
        Err(_refusal) => false,
    }
}

/// Prints what became of the stream's records, and the size of the table.
pub fn measure<S: Read>(rt: &HostRuntime, stream: &mut S) -> io::Result<()> {
    let mut reading = Reading {
        table: NameTable::empty(rt.alloc(), Hashing::fixed()),
        taken: 0,
        refused: 0,
    };
    take_all(rt.alloc(), stream, &mut reading)?;
    println!(rt;
        "taken {} refused {} pairs {}",
        reading.taken,
        reading.refused,
        reading.table.pairs()
    )
}
