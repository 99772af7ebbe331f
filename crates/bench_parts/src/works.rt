//! How many works there are after some changes of them, as a catalogue makes them. `bench/works.sh` times it.
//!
//! Each change brings 256 new keys; `singles` changes of one pair follow, in which a key comes and goes again in turn.
use std::alloc::Global;
use std::io;
use union_base::bytes::Bytes;
use union_base::library_code::LibraryCode;
use union_base::memory::Memory;
use union_base::record_id::RecordId;
use work_clusters::works::Works;

/// How many new keys a change brings.
const NEW_KEYS: u64 = 256;

/// A key of usual length. Numbers that follow each other have keys that stand far apart.
fn key_of(alloc: Global, number: u64) -> Result<Bytes, Memory> {
    let scattered = number.wrapping_mul(0x9E37_79B9_7F4A_7C15);
    let mut text = Vec::new(alloc);
    text.extend_from_slice(&scattered.to_be_bytes())?;
    text.extend_from_slice(b", author of many books/title of one")?;
    Ok(Bytes::from(text))
}

/// A pair of the number's key with an id.
fn pair_of(alloc: Global, library: LibraryCode, number: u64) -> Result<(Bytes, RecordId), Memory> {
    let key = key_of(alloc, number)?;
    let control = Bytes::of(alloc, &number.to_be_bytes())?;
    Ok((key, RecordId { library, control }))
}

/// Pairs of as many numbers from the first on.
fn pairs_of(
    alloc: Global,
    library: LibraryCode,
    first: u64,
    count: u64,
) -> Result<Vec<(Bytes, RecordId)>, Memory> {
    let mut pairs = Vec::new(alloc);
    for step in 0..count {
        pairs.push(pair_of(alloc, library, first.wrapping_add(step))?)?;
    }
    Ok(pairs)
}

/// One change of the works.
fn change(
    alloc: Global,
    works: &mut Works,
    gone: Vec<(Bytes, RecordId)>,
    come: Vec<(Bytes, RecordId)>,
) -> Result<(), Memory> {
    let change = works.plan(gone, come);
    works.make_room(alloc, &change)?;
    works.install(change);
    Ok(())
}

/// The works after all changes.
fn changed(
    alloc: Global,
    library: LibraryCode,
    changes: u64,
    singles: u64,
) -> Result<Works, Memory> {
    let mut works = Works::empty(alloc);
    for step in 0..changes {
        let come = pairs_of(alloc, library, step.wrapping_mul(NEW_KEYS), NEW_KEYS)?;
        change(alloc, &mut works, Vec::new(alloc), come)?;
    }
    let first = changes.wrapping_mul(NEW_KEYS);
    for step in 0..singles {
        let pair = pairs_of(alloc, library, first.wrapping_add(step / 2), 1)?;
        if step % 2 == 0 {
            change(alloc, &mut works, Vec::new(alloc), pair)?;
        } else {
            change(alloc, &mut works, pair, Vec::new(alloc))?;
        }
    }
    Ok(works)
}

/// Prints how many works there are after as many changes.
pub fn measure(rt: &HostRuntime, changes: u64, singles: u64) -> io::Result<()> {
    let Some(library) = LibraryCode::read(b"BENCH") else {
        return eprintln!(rt; "no library");
    };
    match changed(rt.alloc(), library, changes, singles) {
        Ok(works) => println!(rt; "works {}", works.count()),
        Err(Memory) => eprintln!(rt; "no memory"),
    }
}
