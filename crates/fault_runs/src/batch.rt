//! A batch on a catalogue of four records, with the export before and after it.
use crate::files::sink;
use crate::records::{FOUR, MORE, joined};
use authority_names::name_table::NameTable;
use catalogue_export::export::export;
use catalogue_export::works_text::works_text;
use catalogue_lock::machine::Machine;
use field_merge::preference::Preference;
use gathered_catalogue::change::Change;
use gathered_catalogue::engine::Kind;
use key_hashing::hashing::Hashing;
use library_batches::batch_reader::BatchReader;
use load_sessions::crew::Crew;
use load_sessions::preparing::prepare;
use load_sessions::served::Served;
use std::alloc::Global;
use std::thread::Threads;
use union_base::bytes::Bytes;
use union_base::library_code::LibraryCode;
use union_base::memory::Memory;
use union_io::sure_source::SureSource;

/// What became of the batch.
#[derive(Clone, Copy)]
pub enum Applied {
    /// It was applied.
    Whole,
    /// It was refused for memory, what the catalogue shows stayed as it was, and a second try was applied.
    Again,
    /// It was refused for memory, and the catalogue shows something else than before it, or after the second try than it should.
    Changed,
}

/// Makes a turn of the records, which are LIBA's: whether it was made, or refused for memory.
fn load<R: Threads + Sync>(
    rt: &R,
    alloc: Global,
    served: &mut Served,
    records: &[&[u8]],
) -> Result<bool, Memory> {
    let Some(library) = LibraryCode::read(b"LIBA") else {
        return Ok(false);
    };
    let content = joined(alloc, records)?;
    let mut source = SureSource::of(Bytes::of(alloc, content.as_slice())?, 4_096);
    let mut reader = BatchReader::open(alloc, &Preference::none(), &library, 1_000_000)?;
    match reader.next(alloc, &mut source) {
        Ok(Some(batch)) => {
            let crew = Crew {
                workers: 1,
                hashing: Hashing::fixed(),
                prepares: true,
            };
            let prepared = prepare(rt, alloc, batch, crew)?;
            Ok(served.apply(alloc, 0, Change::prepared(prepared)).is_ok())
        }
        Ok(None) => Ok(false),
        Err(_) => Err(Memory),
    }
}

/// The export and the works of the catalogue.
fn shown(alloc: Global, served: &Served) -> Result<Vec<u8>, Memory> {
    let mut out = sink(alloc, &[])?;
    let mut left = Vec::new(alloc);
    let Kind::Standing(catalogue) = served.engine.kind() else {
        return Err(Memory);
    };
    if export(alloc, catalogue, &mut out, &mut left).is_err() {
        return Err(Memory);
    }
    if works_text(alloc, catalogue, &mut out).is_err() {
        return Err(Memory);
    }
    Ok(out.content().to_vec(alloc)?)
}

/// What a catalogue shows that loads all the records.
fn shown_of_all<R: Threads + Sync>(rt: &R, alloc: Global) -> Result<Vec<u8>, Memory> {
    let mut served = Served::keeping_works(alloc, NameTable::empty(alloc, Hashing::fixed()))?;
    if !load(rt, alloc, &mut served, &FOUR)? || !load(rt, alloc, &mut served, &MORE)? {
        return Err(Memory);
    }
    shown(alloc, &served)
}

/// Loads the four records and then a batch, on a catalogue that keeps its works. A batch that is refused for memory is
/// loaded again.
pub fn apply_batch<R: Threads + Sync>(rt: &R, alloc: Global) -> Result<Applied, Memory> {
    let mut served = Served::keeping_works(alloc, NameTable::empty(alloc, Hashing::fixed()))?;
    if !load(rt, alloc, &mut served, &FOUR)? {
        return Err(Memory);
    }
    let before = shown(alloc, &served)?;
    if load(rt, alloc, &mut served, &MORE)? {
        return Ok(Applied::Whole);
    }
    let stayed = shown(alloc, &served)?.as_slice() == before.as_slice();
    let is_applied = load(rt, alloc, &mut served, &MORE)?;
    let after = shown(alloc, &served)?;
    let wanted = shown_of_all(rt, alloc)?;
    if stayed && is_applied && after.as_slice() == wanted.as_slice() {
        Ok(Applied::Again)
    } else {
        Ok(Applied::Changed)
    }
}
