//! What no clause says: that the sessions of one run are under way at once, and that neither the order of their turns nor the
//! number of workers changes a byte.
use crate::records::{ONE, OTHER};
use crate::runs::{Files, calm, run, shelf_of};
use crate::texts::words_between;
use authority_names::name_table::NameTable;
use catalogue_query::questions::Questions;
use key_hashing::hashing::Hashing;
use std::alloc::Global;
use std::hint::spin_loop;
use std::sync::Wait;
use std::sync::atomic::{AtomicBool, Ordering};
use std::test::Fail;
use std::thread::Threads;
use union_base::bytes::Bytes;
use union_base::memory::Memory;
use union_io::gate::{Gate, OpenGate};
use union_load::sessions::load_and_ask;
use union_load::start::Start;
use union_words::job::Job;
use union_words::loading::Loading;
use union_words::status::Status;

/// How often a gate looks before it gives up.
const LOOKS: u64 = 200_000_000;

/// The turns of the two libraries, in each order.
const FIRST_COMES_FIRST: &[u8; 38] = b"turn 000001 LIBA 1\nturn 000002 LIBB 1\n";

const SECOND_COMES_FIRST: &[u8; 38] = b"turn 000001 LIBB 1\nturn 000002 LIBA 1\n";

/// Their export, `ONE` as LIBA's and the other as LIBB's.
const EXPORT: &[u8; 384] =
    b"00192nam a2200097 a 4500001000800000003000600008008004100014245000800055991001800063993001300081\x1ELIBA.id\x1EUNION\x1E240101s1999    xx                  eng d\x1E00\x1FaCat\x1E  \x1Facat///LIBA.id\x1E  \x1FaLIBA\x1Fbid\x1E\x1D00192nam a2200097 a 4500001000800000003000600008008004100014245000800055991001800063993001300081\x1ELIBB.ie\x1EUNION\x1E240101s1999    xx                  eng d\x1E00\x1FaCat\x1E  \x1Facat///LIBB.ie\x1E  \x1FaLIBB\x1Fbie\x1E\x1D";

/// Whether the flag was set before the looks ran out.
fn wait_for(flag: &AtomicBool) -> bool {
    for _ in 0..LOOKS {
        if flag.load(Ordering::SeqCst) {
            return true;
        }
        spin_loop();
    }
    false
}

/// Two flags, one for each of two sessions, and whether the looks of one ran out.
#[derive(Drop)]
struct Flags {
    first: AtomicBool,
    second: AtomicBool,
    ran_out: AtomicBool,
}

impl Flags {
    fn new() -> Flags {
        Flags {
            first: AtomicBool::new(false),
            second: AtomicBool::new(false),
            ran_out: AtomicBool::new(false),
        }
    }

    /// Sets the flag of that session, if the turn is its first.
    fn set(&self, session: u32, turn: u64) {
        match (session, turn) {
            (0, 0) => self.first.store(true, Ordering::SeqCst),
            (1, 0) => self.second.store(true, Ordering::SeqCst),
            _ => (),
        }
    }

    fn await_flag(&self, flag: &AtomicBool) {
        if !wait_for(flag) {
            self.ran_out.store(true, Ordering::SeqCst);
        }
    }

    /// Whether both were set, and no looks ran out.
    fn are_set(&self) -> bool {
        let first = self.first.load(Ordering::SeqCst);
        let second = self.second.load(Ordering::SeqCst);
        let ran_out = self.ran_out.load(Ordering::SeqCst);
        first && second && !ran_out
    }
}

/// Holds the first session before its first turn until the second session has ended its own. The flags are those of turns that
/// ended.
#[derive(Drop)]
struct OrderGate {
    ended: Flags,
}

impl Gate for OrderGate {
    fn before_turn(&self, session: u32, turn: u64) {
        if session == 0 && turn == 0 {
            self.ended.await_flag(&self.ended.second);
        }
    }

    fn after_turn(&self, session: u32, turn: u64) {
        self.ended.set(session, turn);
    }
}

/// Holds each of two sessions before its first turn until the other stands there too. The flags are those of turns that began.
#[derive(Drop)]
struct MeetingGate {
    begun: Flags,
}

impl Gate for MeetingGate {
    fn before_turn(&self, session: u32, turn: u64) {
        self.begun.set(session, turn);
        match (session, turn) {
            (0, 0) => self.begun.await_flag(&self.begun.second),
            (1, 0) => self.begun.await_flag(&self.begun.first),
            _ => (),
        }
    }

    fn after_turn(&self, _session: u32, _turn: u64) {}
}

/// The two files, which are read in pieces of 50 bytes, and a file of no questions.
fn files() -> Files<'static> {
    Files {
        most: 50,
        ..calm(ONE, OTHER, b"")
    }
}

/// Whether what the words ask of the two files is done, and what is written is one of the texts.
fn is_done<R: Threads + Wait + Sync, G: Gate>(
    rt: &R,
    alloc: Global,
    line: &[u8],
    gate: &G,
    texts: &[&[u8]],
) -> Result<bool, Memory> {
    let (status, out, _notes) = run(rt, alloc, line, &files(), gate)?;
    Ok(status == Status::Done && texts.contains(&out.content()))
}

/// Whether the export of the two files by two workers is done, and is the expected one.
fn is_exported<R: Threads + Wait + Sync, G: Gate>(
    rt: &R,
    alloc: Global,
    gate: &G,
) -> Result<bool, Memory> {
    is_done(
        rt,
        alloc,
        b"export --workers=2 LIBA=a LIBB=b",
        gate,
        &[EXPORT],
    )
}

/// Whether `watch` of the two files by two workers is done, and shows their turns in one of these orders.
fn is_watched<R: Threads + Wait + Sync, G: Gate>(
    rt: &R,
    alloc: Global,
    gate: &G,
    texts: &[&[u8]],
) -> Result<bool, Memory> {
    is_done(
        rt,
        alloc,
        b"watch --ask=c --workers=2 LIBA=a LIBB=b",
        gate,
        texts,
    )
}

/// How the words of `works` say that files are loaded.
fn loading_of(words: &[Bytes]) -> Option<Loading<'_>> {
    match Job::read(words) {
        Some(Job::Works(loading)) => Some(loading),
        _ => None,
    }
}

/// The numbers of the sessions in the order of their turns, when two workers load the two files.
fn sessions_of_turns<R: Threads + Wait + Sync, G: Gate>(
    rt: &R,
    alloc: Global,
    gate: &G,
) -> Result<Vec<u32>, Fail> {
    let mut shelf = shelf_of(alloc, &files())?;
    let words = words_between(alloc, b"works --workers=2 LIBA=a LIBB=b", b' ')?;
    let mut sessions = Vec::new(alloc);
    let Some(loading) = loading_of(words.as_slice()) else {
        return Ok(sessions);
    };
    let start = Start {
        names: NameTable::empty(alloc, Hashing::fixed()),
        questions: Questions::none(alloc),
    };
    if let Ok(watched) = load_and_ask(rt, alloc, &loading, start, &mut shelf, gate) {
        let catalogue = &watched.loaded.catalogue;
        for turn in 0..catalogue.turns() {
            sessions.push(catalogue.entry(turn).pass)?;
        }
    }
    Ok(sessions)
}

/// The words of the export with each number of workers.
const EXPORTS: [&[u8]; 4] = [
    b"export --workers=1 LIBA=a LIBB=b",
    b"export --workers=2 LIBA=a LIBB=b",
    b"export --workers=3 LIBA=a LIBB=b",
    b"export LIBA=a LIBB=b",
];

#[test]
fn any_number_of_workers_exports_the_same(rt: HostRuntime) -> Result<(), Fail> {
    for line in EXPORTS {
        assert!(rt; is_done(&rt, rt.alloc(), line, &OpenGate, &[EXPORT])?);
    }
    Ok(())
}

#[test]
fn the_later_library_may_come_first(rt: HostRuntime) -> Result<(), Fail> {
    let gate = OrderGate {
        ended: Flags::new(),
    };
    assert!(rt; is_exported(&rt, rt.alloc(), &gate)?);
    assert!(rt; gate.ended.are_set());
    let gate = OrderGate {
        ended: Flags::new(),
    };
    let sessions = sessions_of_turns(&rt, rt.alloc(), &gate)?;
    assert!(rt; sessions.as_slice() == [1, 0].as_slice());
    assert!(rt; gate.ended.are_set());
    let gate = OrderGate {
        ended: Flags::new(),
    };
    assert!(rt; is_watched(&rt, rt.alloc(), &gate, &[SECOND_COMES_FIRST])?);
    assert!(rt; gate.ended.are_set());
    Ok(())
}

#[test]
fn sessions_are_under_way_at_once(rt: HostRuntime) -> Result<(), Fail> {
    let gate = MeetingGate {
        begun: Flags::new(),
    };
    assert!(rt; is_exported(&rt, rt.alloc(), &gate)?);
    assert!(rt; gate.begun.are_set());
    let gate = MeetingGate {
        begun: Flags::new(),
    };
    let sessions = sessions_of_turns(&rt, rt.alloc(), &gate)?;
    assert!(rt; sessions.len() == 2 && gate.begun.are_set());
    let gate = MeetingGate {
        begun: Flags::new(),
    };
    assert!(rt;
        is_watched(
            &rt,
            rt.alloc(),
            &gate,
            &[FIRST_COMES_FIRST, SECOND_COMES_FIRST]
        )?
    );
    assert!(rt; gate.begun.are_set());
    Ok(())
}
