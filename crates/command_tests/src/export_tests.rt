//! What no clause says: that several workers come to the end of an export. What they write is what one of them writes.
ghost use Rattle.std.specs.Prelude.{◌≡◌, ◌≤◌, ◌<◌};

use catalogue_core::catalogue::Catalogue;
use catalogue_export::by_workers::export_by_workers;
use catalogue_export::export::export;
use catalogue_export::export_fail::ExportFail;
use catalogue_export::form::{ExportForm, Iso2709};
use catalogue_export::json_export::JsonLines;
use gathered_catalogue::finished::Finished;
use key_hashing::hashing::Hashing;
use load_sessions::crew::Crew;
use merge_laws::steps::Steps;
use std::alloc::Global;
use std::marker::Brand;
use std::sync::ledger::{Blank, Ledger};
use std::test::Fail;
use std::thread::Threads;
use union_base::memory::Memory;
use union_io::mem_sink::MemSink;
use union_trial::loading::load_all;

/// How many records are generated. Their editions are more than two workers take in two rounds.
const RECORDS: u32 = 1_600;

/// More bytes than their export has.
const ROOM: usize = 2_000_000;

/// A catalogue of generated records.
fn filled<R: Threads + Sync, L: Ledger>(
    rt: &R,
    alloc: Global,
    blank: Blank,
) -> Result<Catalogue, Memory>
    requires name { blank.name ≡ L.name }
    requires parts { blank.parts ≡ L.parts }
    requires some { 0 < L.parts }
{
    let crew = Crew {
        workers: 1,
        hashing: Hashing::fixed(),
        prepares: true,
    };
    let mut catalogue = Catalogue::empty(alloc, crew.hashing)?;
    let mut steps: Steps<L> = Steps::open(blank);
    load_all(rt, alloc, 7, RECORDS, crew, &mut catalogue, &mut steps)?;
    Ok(catalogue)
}

/// A sink with room for the export.
fn sink(alloc: Global) -> Result<MemSink, Memory> {
    Ok(MemSink::new(Vec::new(alloc), Vec::with_capacity(alloc, ROOM)?, ROOM))
}

/// What `workers` workers write of the catalogue in this form.
fn written_by<R: Threads + Sync, F: ExportForm + Send>(
    rt: &R,
    alloc: Global,
    catalogue: &Finished,
    workers: u32,
) -> Result<MemSink, ExportFail>
    requires some { 1 ≤ workers }
    requires most { workers ≤ 64 }
{
    let mut out = sink(alloc)?;
    let mut left = Vec::new(alloc);
    export_by_workers::<R, F, MemSink>(rt, alloc, catalogue, workers, &mut out, &mut left)?;
    Ok(out)
}

/// Whether `workers` workers write these records of the catalogue, and these lines of JSON.
fn write_the_same<R: Threads + Sync>(
    rt: &R,
    alloc: Global,
    catalogue: &Finished,
    workers: u32,
    records: &[u8],
    lines: &[u8],
) -> Result<bool, ExportFail>
    requires some { 1 ≤ workers }
    requires most { workers ≤ 64 }
{
    let written = written_by::<R, Iso2709>(rt, alloc, catalogue, workers)?;
    let told = written_by::<R, JsonLines>(rt, alloc, catalogue, workers)?;
    Ok(written.content() == records && told.content() == lines)
}

#[test]
fn several_workers_write_what_one_writes(rt: HostRuntime) -> Result<(), Fail> {
    let alloc = rt.alloc();
    let catalogue = filled::<HostRuntime, Brand>(&rt, alloc, Blank::new(1))?;
    let mut out = sink(alloc)?;
    let mut left = Vec::new(alloc);
    export(alloc, &catalogue, &mut out, &mut left)?;
    let catalogue = Finished::standing(catalogue);
    let lines = written_by::<HostRuntime, JsonLines>(&rt, alloc, &catalogue, 1)?;
    assert!(rt; write_the_same(&rt, alloc, &catalogue, 1, out.content(), lines.content())?);
    assert!(rt; write_the_same(&rt, alloc, &catalogue, 2, out.content(), lines.content())?);
    assert!(rt; write_the_same(&rt, alloc, &catalogue, 5, out.content(), lines.content())?);
    Ok(())
}
