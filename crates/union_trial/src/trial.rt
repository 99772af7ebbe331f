//! The run of a trial.
ghost use Rattle.std.specs.Prelude.{◌≡◌, ◌≤◌, ◌<◌, ◌++◌, IfOk, OnOk, codes};
ghost use Rattle.library_batches.specs.Reports.{counted};
ghost use Rattle.union_words.specs.Numbers.{most_generated};
ghost use Rattle.union_trial.specs.Trials.{trial_line, IsTrialText, IsTrial};

use crate::loading::load_all;
use crate::measures::Measures;
use crate::measuring::measured;
use catalogue_core::catalogue::Catalogue;
use itoa::Buffer;
use library_batches::report_lines::add_counted;
use load_sessions::crew::Crew;
use merge_laws::steps::Steps;
use std::alloc::{AllocError, Global};
use std::marker::Brand;
use std::mem::forget;
use std::sync::ledger::{Blank, Ledger};
use std::thread::Threads;
use union_base::memory::Memory;
use union_io::failed::Failed;
use union_io::sink::{Sink, put_all};
use union_words::status::Status;

/// Adds ` bytes N`.
fn add_bytes(text: &mut Vec<u8>, number: u128) -> Result<(), AllocError>
    ensures { OnOk result (text.new.items ≡ text.old.items ++ counted (codes "bytes") number) }
{
    let mut digits = Buffer::new();
    text.extend_from_slice(b" bytes ")?;
    text.extend_from_slice(digits.format(number).as_bytes())?;
    Ok(())
}

/// Adds `frames F records R editions E works W bytes B` and a line feed.
fn add_line(text: &mut Vec<u8>, frames: u32, measures: &Measures) -> Result<(), AllocError>
    ensures { OnOk result (text.new.items ≡ text.old.items ++ trial_line frames measures.now) }
{
    let mut digits = Buffer::new();
    text.extend_from_slice(b"frames ")?;
    text.extend_from_slice(digits.format(frames).as_bytes())?;
    add_counted(text, b"records", measures.records)?;
    add_counted(text, b"editions", measures.editions)?;
    add_counted(text, b"works", measures.works)?;
    add_bytes(text, measures.bytes)?;
    text.push(b'\n')?;
    Ok(())
}

/// The line of a trial and the catalogue that it tells of, with the match tests counted in a ledger of their own.
fn text_by<R: Threads + Sync, L: Ledger>(
    rt: &R,
    alloc: Global,
    seed: u64,
    count: u32,
    crew: Crew,
    blank: Blank,
) -> Result<(Vec<u8>, Catalogue), Memory>
    requires name { blank.name ≡ L.name }
    requires parts { blank.parts ≡ L.parts }
    requires some { 0 < L.parts }
    requires count_some { 0 < count }
    requires count_most { count ≤ most_generated }
    requires some_worker { 1 ≤ crew.workers }
    requires most_workers { crew.workers ≤ 64 }
    ensures { IfOk result (λ told. IsTrialText seed count told.0.items) }
{
    let mut catalogue = Catalogue::empty(alloc, crew.hashing)?;
    let mut steps: Steps<L> = Steps::open(blank);
    load_all(rt, alloc, seed, count, crew, &mut catalogue, &mut steps)?;
    let measures = measured(alloc, &catalogue)?;
    let mut text = Vec::new(alloc);
    add_line(&mut text, count, &measures)?;
    Ok((text, catalogue))
}

/// The line of a trial, and the catalogue that it tells of.
fn trial_text<R: Threads + Sync>(
    rt: &R,
    alloc: Global,
    seed: u64,
    count: u32,
    crew: Crew,
) -> Result<(Vec<u8>, Catalogue), Memory>
    requires some { 0 < count }
    requires most { count ≤ most_generated }
    requires some_worker { 1 ≤ crew.workers }
    requires most_workers { crew.workers ≤ 64 }
    ensures { IfOk result (λ told. IsTrialText seed count told.0.items) }
{
    text_by::<R, Brand>(rt, alloc, seed, count, crew, Blank::new(1))
}

/// Generates `count` records from the seed, loads them as those of three libraries, one library after the other, each batch
/// prepared by the crew, and writes one line of what came of it: the numbers of generated frames, of current records,
/// editions, works, and of the export's bytes.
///
/// `Done` means that the line was written. `WriteFault` comes only where a write failed; a prefix of the line was written then.
/// `Memory` comes if allocation fails; nothing was written then. No other status comes: no generated frame is refused.
///
/// After `Done` the memory of the catalogue is left standing, for the system to take back when the program ends; after any other
/// status all of it is given back.
pub fn trial_run<R: Threads + Sync, O: Sink>(
    rt: &R,
    alloc: Global,
    seed: u64,
    count: u32,
    crew: Crew,
    out: &mut O,
) -> Status
    requires some { 1 ≤ count }
    requires most { count ≤ most_generated }
    requires some_worker { 1 ≤ crew.workers }
    requires most_workers { crew.workers ≤ 64 }
    ensures { IsTrial seed count (record {
      old = O.written out.old;
      new = O.written out.new;
      before
          = O.faults out.old;
      after = O.faults out.new;
    }) result }
{
    match trial_text(rt, alloc, seed, count, crew) {
        Ok((text, catalogue)) => match put_all(out, text.as_slice()) {
            Ok(()) => {
                // The program ends after this, and the system takes all its memory back at once.
                forget(catalogue);
                Status::Done
            }
            Err(Failed) => Status::WriteFault,
        },
        Err(Memory) => Status::Memory,
    }
}
