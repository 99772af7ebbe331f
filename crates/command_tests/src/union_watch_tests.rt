//! What no clause says: that the text is the one that was meant.
use crate::records::{BRIDGE, ONE};
use crate::texts::joined;
use authority_names::name_table::NameTable;
use catalogue_lock::machine::Machine;
use catalogue_query::answer::Answer;
use catalogue_query::query::Query;
use field_merge::preference::Preference;
use gathered_catalogue::change::Change;
use gathered_catalogue::finished::Finished;
use key_hashing::hashing::Hashing;
use library_batches::batch_reader::BatchReader;
use load_sessions::crew::Crew;
use load_sessions::preparing::prepare;
use load_sessions::served::Served;
use std::alloc::Global;
use std::test::Fail;
use std::thread::Threads;
use union_base::bytes::Bytes;
use union_base::library_code::LibraryCode;
use union_base::memory::Memory;
use union_io::mem_sink::MemSink;
use union_io::sure_source::SureSource;
use union_watch::ask_file::AskFile;
use union_watch::questions::divide;
use union_watch::writing::write_watch;

/// A file of questions, of all kinds of lines.
const ASKS: &[u8] =
    b"# count\r\ncount\r\n\r\nfind x\ntitle Red\tships\nisbn 1\ntitle Red\x01ships\x7F\nwork \xFF\nload LIBA one.mrc\nid LIBB  id \nexport\nholdings LIBB id";

/// What is watched where all are asked late.
const WATCHED: &[u8] =
    b"turn 000001 LIBA 3\nturn 000002 LIBB 1\nreply 000002 count\neditions 2 works 2 records 4\nrefused unknown\nreply 000002 title Red ships\nedition LIBA.a1\nrefused word\nreply 000002 title Red ships \nedition LIBA.a1\nreply 000002 work \xFF\nnone\nrefused unknown\nreply 000002 id LIBB  id \nedition LIBB.id\nby LIBB.id\nwork cat///LIBB.id\nrefused unknown\nreply 000002 holdings LIBB id\nnone\n";

/// Applies the one batch of a library's stream.
fn load<R: Threads + Sync>(
    rt: &R,
    alloc: Global,
    served: &mut Served,
    number: u32,
    library: &[u8],
    stream: &[u8],
) -> Result<(), Fail> {
    let library = LibraryCode::read(library).ok_or("a code")?;
    let mut source = SureSource::of(Bytes::of(alloc, stream)?, 100);
    let mut reader = BatchReader::open(alloc, &Preference::none(), &library, 1_000)?;
    if let Some(batch) = reader.next(alloc, &mut source)? {
        let crew = Crew {
            workers: 1,
            hashing: Hashing::fixed(),
            prepares: true,
        };
        let prepared = prepare(rt, alloc, batch, crew)?;
        served.apply(alloc, number, Change::prepared(prepared))?;
    }
    Ok(())
}

/// The replies to questions over `over` turns, which are all that were made.
fn replies(
    alloc: Global,
    served: &Served,
    questions: &[Query],
    over: u64,
) -> Result<Vec<(u64, Answer)>, Memory> {
    let mut replies = Vec::new(alloc);
    for question in questions {
        replies.push((over, served.ask(alloc, question)?))?;
    }
    Ok(replies)
}

/// A sink with room for `limit` bytes.
fn sink(alloc: Global, limit: usize) -> Result<MemSink, Memory> {
    Ok(MemSink::new(Vec::new(alloc), Vec::with_capacity(alloc, 4_096)?, limit))
}

#[test]
fn lines_of_all_kinds_are_told(rt: HostRuntime) -> Result<(), Fail> {
    let alloc = rt.alloc();
    let mut served = Served::keeping_works(alloc, NameTable::empty(alloc, Hashing::fixed()))?;
    let bridge = joined(alloc, &BRIDGE)?;
    load(&rt, alloc, &mut served, 0, b"LIBA", bridge.as_slice())?;
    load(&rt, alloc, &mut served, 1, b"LIBB", ONE)?;
    let file = AskFile::read(alloc, ASKS)?;
    assert!(rt; file.has_refusals());
    let late = replies(alloc, &served, file.questions.as_slice(), 2)?;
    let mut out = sink(alloc, 4_096)?;
    let none = Vec::new(alloc);
    let finished = Finished::of(&rt, alloc, served.engine, 1)?;
    write_watch(
        alloc,
        &finished,
        file.lines.as_slice(),
        none,
        late,
        &mut out,
    )?;
    assert!(rt; out.content() == WATCHED);
    Ok(())
}

#[test]
fn replies_beside_stand_before_late_ones(rt: HostRuntime) -> Result<(), Fail> {
    let alloc = rt.alloc();
    let mut served = Served::keeping_works(alloc, NameTable::empty(alloc, Hashing::fixed()))?;
    let file = AskFile::read(alloc, b"count\ncount")?;
    assert!(rt; !file.has_refusals());
    let questions = divide(alloc, 2, file.questions)?;
    let beside = replies(alloc, &served, questions.beside.as_slice(), 0)?;
    load(&rt, alloc, &mut served, 0, b"LIBB", ONE)?;
    let late = replies(alloc, &served, questions.late.as_slice(), 1_234_567)?;
    let mut out = sink(alloc, 4_096)?;
    let finished = Finished::of(&rt, alloc, served.engine, 1)?;
    write_watch(
        alloc,
        &finished,
        file.lines.as_slice(),
        beside,
        late,
        &mut out,
    )?;
    assert!(rt;
        out.content()
            == b"turn 000001 LIBB 1\nreply 000000 count\neditions 0 works 0 records 0\nreply 1234567 count\neditions 1 works 1 records 1\n".as_slice()
    );
    Ok(())
}

/// Numbers of workers and of questions, and how many of these are asked beside the load and how many after it.
const DIVIDED: [(u32, u8, usize, usize); 6] = [
    (1, 0, 0, 0),
    (1, 1, 0, 1),
    (1, 3, 0, 3),
    (2, 0, 0, 0),
    (2, 1, 0, 1),
    (64, 3, 2, 1),
];

#[test]
fn questions_are_divided(rt: HostRuntime) -> Result<(), Fail> {
    for (workers, count, beside, late) in DIVIDED {
        let mut questions = Vec::new(rt.alloc());
        for _ in 0..count {
            questions.push(Query::Count)?;
        }
        let divided = divide(rt.alloc(), workers, questions)?;
        assert_eq!(rt; divided.beside.len(), beside);
        assert_eq!(rt; divided.late.len(), late);
    }
    Ok(())
}
