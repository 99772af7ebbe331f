//! The loading of a library's stream.
ghost use Rattle.std.specs.Prelude.{◌≡◌, [], ◌<◌, ◌≤◌, IfOk, OnOk};
ghost use Rattle.union_trial.specs.Blocks.{IsBlockOf};
ghost use Rattle.union_words.specs.Numbers.{most_generated};
ghost use Rattle.union_trial.specs.Streams.{library_code, Loads, still_drawn, AreLoaded};

use crate::drawing::LIBRARIES;
use crate::library_draws::LibraryDraws;
use crate::operations::operation;
use catalogue_core::batch::Batch;
use catalogue_core::catalogue::Catalogue;
use catalogue_core::op::{LARGEST_BATCH, Op};
use load_sessions::crew::Crew;
use load_sessions::preparing::prepare;
use merge_laws::steps::Steps;
use std::alloc::Global;
use std::sync::ledger::Ledger;
use std::thread::Threads;
use union_base::library_code::LibraryCode;
use union_base::memory::Memory;

/// The code of the library at that place.
fn library_code(place: u32) -> LibraryCode
    requires { place < 3 }
    ensures { result ≡ library_code place }
{
    LibraryCode::read(&[b'T', b'0' + place as u8]).unwrap()
}

/// The operations of the library's next frames, `LARGEST_BATCH` of them unless there are fewer. Each frame is written into
/// the buffer.
///
/// Returns `Memory` if allocation fails.
fn read_block(
    alloc: Global,
    library: &LibraryCode,
    draws: &mut LibraryDraws,
    frame: &mut Vec<u8>,
) -> Result<Vec<Op>, Memory>
    ensures { IfOk result (λ ops. IsBlockOf library.now (still_drawn draws.old)
        (still_drawn draws.new) ops.items) }
{
    let mut ops = Vec::new(alloc);
    for _ in 0..LARGEST_BATCH {
        match draws.next() {
            Some(drawn) => {
                let asked = operation(alloc, library, &drawn, frame)?;
                ops.push(asked)?;
            }
            None => return Ok(ops),
        }
    }
    Ok(ops)
}

/// Loads the stream of the library at that place, whose draws are still to come: applies its batches one after the other, each of
/// which the crew prepares. Counts the match tests of the turns.
///
/// Returns `Memory` if allocation fails. Some of the batches may be applied then.
fn load_library<R: Threads + Sync, L: Ledger>(
    rt: &R,
    alloc: Global,
    seed: u64,
    count: u32,
    place: u32,
    crew: Crew,
    catalogue: &mut Catalogue,
    steps: &mut Steps<L>,
) -> Result<(), Memory>
    requires some { 0 < count }
    requires most { count ≤ most_generated }
    requires place { place < 3 }
    requires some_worker { 1 ≤ crew.workers }
    requires most_workers { crew.workers ≤ 64 }
    ensures names { catalogue.new.names ≡ catalogue.old.names }
    ensures loads { OnOk result (Loads seed count place catalogue.old.history
        catalogue.new.history) }
{
    let library = library_code(place);
    let mut draws = LibraryDraws::of(seed, count, place);
    let mut frame = Vec::new(alloc);
    'applying: loop {
        let ops = read_block(alloc, &library, &mut draws, &mut frame)?;
        if ops.is_empty() {
            return Ok(());
        }
        let prepared = prepare(rt, alloc, Batch::of(library, ops), crew)?;
        catalogue.apply_prepared(alloc, place, prepared, steps)?;
    }
}

/// Loads the streams of the three libraries, one after the other, into a catalogue without history; the crew prepares each batch.
/// Counts the match tests of the turns.
///
/// Returns `Memory` if allocation fails.
pub fn load_all<R: Threads + Sync, L: Ledger>(
    rt: &R,
    alloc: Global,
    seed: u64,
    count: u32,
    crew: Crew,
    catalogue: &mut Catalogue,
    steps: &mut Steps<L>,
) -> Result<(), Memory>
    requires some { 0 < count }
    requires most { count ≤ most_generated }
    requires some_worker { 1 ≤ crew.workers }
    requires most_workers { crew.workers ≤ 64 }
    requires new { catalogue.old.history ≡ [] }
    ensures names { catalogue.new.names ≡ catalogue.old.names }
    ensures loaded { OnOk result (AreLoaded seed count 3 catalogue.new.history) }
{
    for place in 0..LIBRARIES {
        load_library(rt, alloc, seed, count, place, crew, catalogue, steps)?;
    }
    Ok(())
}
