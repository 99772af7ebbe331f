//! What tells the progress of a run.
use crate::line::{Amounts, line_of};
use crate::style::Style;
use memchr::memchr_iter;
use std::alloc::Global;
use std::io::{Stderr, Write};
use std::sync::atomic::{AtomicU64, Ordering};
use std::time::{Clock, Instant};

/// The byte that ends a record (ISO 2709).
const RECORD_TERMINATOR: u8 = 0x1D;

/// Is told of what a run reads and writes, from whichever thread does it. It changes nothing that a contract names.
pub trait Tells: Sync {
    /// These bytes were read.
    fn read(&self, piece: &[u8]);

    /// So many bytes were written to standard output.
    fn wrote(&self, count: usize);

    /// Something else is about to be written where the progress is shown: no more of it is shown.
    fn ends(&self);
}

/// Tells the progress on standard error.
#[derive(Drop)]
pub struct Teller<'a, C> {
    clock: &'a C,
    alloc: Global,
    err: Stderr,
    style: Style,
    /// Whether standard output goes where the progress is shown.
    is_shared: bool,
    begun: Option<Instant>,
    /// The bytes of all files, 0 where that is not known.
    total: u64,
    read: AtomicU64,
    /// Of these the bytes of the pieces whose records were counted, and how many these are.
    counted: AtomicU64,
    records: AtomicU64,
    written: AtomicU64,
    /// When the next line is due, in milliseconds from the beginning; `OVER` when there is none to come.
    due: AtomicU64,
    /// How many lines were shown.
    shown: AtomicU64,
}

/// No line is due any more.
const OVER: u64 = u64::MAX;

/// How many bytes a read asks for.
const PIECE: u64 = 65_536;

/// Of how many pieces one has its records counted: to count them all would add half to the instructions of a check.
const SAMPLE: u64 = 128;

impl<'a, C: Clock> Teller<'a, C> {
    /// Tells the progress of a run that begins now, which reads `total` bytes, or 0 where that is not known, in this style. `is_shared`
    /// says whether standard output goes where the progress is shown: it ends then where standard output begins.
    pub fn of(
        clock: &'a C,
        alloc: Global,
        err: Stderr,
        style: Style,
        is_shared: bool,
        total: u64,
    ) -> Teller<'a, C> {
        let begun = Instant::now(clock).ok();
        let due = if style == Style::Silent || begun.is_none() {
            OVER
        } else {
            style.pause()
        };
        Teller {
            clock,
            alloc,
            err,
            style,
            is_shared,
            begun,
            total,
            read: AtomicU64::new(0),
            counted: AtomicU64::new(0),
            records: AtomicU64::new(0),
            written: AtomicU64::new(0),
            due: AtomicU64::new(due),
            shown: AtomicU64::new(0),
        }
    }

    /// Whether anything is told from here on.
    fn is_telling(&self) -> bool {
        self.due.load(Ordering::Relaxed) != OVER
    }

    /// Counts the records that end in a piece.
    fn count(&self, piece: &[u8]) {
        let records = memchr_iter(RECORD_TERMINATOR, piece).count() as u64;
        self.records.fetch_add(records, Ordering::Relaxed);
        self.counted
            .fetch_add(piece.len() as u64, Ordering::Relaxed);
    }

    /// About how many records end in so many bytes, by those that were counted.
    fn records_in(&self, bytes: u64) -> u64 {
        let counted = self.counted.load(Ordering::Relaxed);
        let records = self.records.load(Ordering::Relaxed);
        records
            .saturating_mul(bytes)
            .checked_div(counted)
            .unwrap_or(0)
    }

    /// The milliseconds since the run began.
    fn milliseconds(&self) -> u64 {
        let Some(begun) = self.begun else {
            return 0;
        };
        match begun.elapsed(self.clock) {
            Ok(spent) => u64::try_from(spent.as_millis()).unwrap_or(0),
            Err(_) => 0,
        }
    }

    /// Tells where the run is, if a line is due. Of several threads one tells it.
    fn tell(&self) {
        let now = self.milliseconds();
        let due = self.due.load(Ordering::Relaxed);
        if now < due {
            return;
        }
        let next = now.saturating_add(self.style.pause());
        if self
            .due
            .compare_exchange(due, next, Ordering::Relaxed, Ordering::Relaxed)
            .is_ok()
        {
            self.show(now);
        }
    }

    /// Shows where the run is.
    fn show(&self, milliseconds: u64) {
        let read = self.read.load(Ordering::Relaxed);
        let amounts = Amounts {
            records: self.records_in(read),
            read,
            total: self.total,
            written: self.written.load(Ordering::Relaxed),
            milliseconds,
        };
        let Ok(line) = line_of(self.alloc, amounts) else {
            return;
        };
        self.shown.fetch_add(1, Ordering::Relaxed);
        match self.style {
            Style::Line => self.put(b"\r", line.as_str(), b"\x1b[K"),
            Style::Lines => self.put(b"", line.as_str(), b"\n"),
            Style::Silent => (),
        }
    }

    /// Writes a line, as far as it can be written. What fails here is no fault of the run.
    fn put(&self, before: &[u8], line: &str, after: &[u8]) {
        let mut err = &self.err;
        let _ = err.write_all(before);
        let _ = err.write_all(line.as_bytes());
        let _ = err.write_all(after);
    }
}

impl<C: Clock + Sync> Tells for Teller<'_, C> {
    fn read(&self, piece: &[u8]) {
        if !self.is_telling() {
            return;
        }
        let before = self.read.fetch_add(piece.len() as u64, Ordering::Relaxed);
        if (before / PIECE) % SAMPLE == 0 {
            self.count(piece);
        }
        self.tell();
    }

    fn wrote(&self, count: usize) {
        if !self.is_telling() {
            return;
        }
        if self.is_shared {
            self.ends();
            return;
        }
        self.written.fetch_add(count as u64, Ordering::Relaxed);
        self.tell();
    }

    fn ends(&self) {
        if self.is_telling() {
            self.due.store(OVER, Ordering::Relaxed);
            if self.style == Style::Line && self.shown.load(Ordering::Relaxed) > 0 {
                self.put(b"\r", "", b"\x1b[K");
            }
        }
    }
}
