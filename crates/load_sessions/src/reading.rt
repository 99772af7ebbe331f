//! The reading of a session's next batch.
ghost use Rattle.std.specs.Prelude.{◌≡◌, ◌≢◌, ◌≤◌, ◌<◌, Err, IfOk, OnSome};
ghost use Rattle.union_io.specs.Causes.{Rose};
ghost use Rattle.library_stream.specs.Streaming.{most_ahead};
ghost use Rattle.library_batches.specs.Reading.{AnswersBatch};

use crate::crew::Crew;
use crate::preparing::change_of;
use gathered_catalogue::change::Change;
use library_batches::batch_reader::BatchReader;
use library_batches::stop::Stop;
use std::alloc::{AllocError, Global};
use std::thread::Threads;
use union_io::source::Source;

/// How much room is taken ahead of a batch, in bytes: somewhat more than a batch of usual records comes to.
const ROOM_AHEAD: usize = 1_048_576;

/// Takes room for a batch, and gives it back, so that the heap of this thread has grown by then. The C library lets a thread's heap grow
/// by as much as is asked for at once, which is mostly one page, and each growth makes the other threads wait. Where there is no such
/// room nothing is lost.
fn take_room_ahead(alloc: Global) {
    let _room: Result<Vec<u8>, AllocError> = Vec::with_capacity(alloc, ROOM_AHEAD);
}

/// The next batch of the source, read and made a change by the crew, and None where it ended within the limit and each of its batches
/// was handed out.
///
/// Answers `TooLong`, `Failed` and `Memory` as `BatchReader::next_by` does, and `Memory` also where the batch can't be prepared, which
/// drops it.
pub(crate) fn read_change<R: Threads + Sync, S: Source>(
    rt: &R,
    alloc: Global,
    reader: &mut BatchReader,
    source: &mut S,
    crew: Crew,
) -> Result<Option<Change>, Stop>
    requires some { 1 ≤ crew.workers }
    requires most { crew.workers ≤ 64 }
    ensures name { S.name source.new ≡ S.name source.old }
    ensures answers { AnswersBatch result reader.old (S.left source.old) reader.new
        (S.left source.new) }
    ensures failed { result ≡ Err Stop.Failed
        → Rose (S.faults source.old) (S.faults source.new) }
    ensures calm { result ≢ Err Stop.Failed → S.faults source.new ≡ S.faults source.old }
    ensures fewer { IfOk result (λ next. OnSome next
        (most_ahead reader.new.stream < most_ahead reader.old.stream)) }
{
    take_room_ahead(alloc);
    match reader.next_by(rt, alloc, source, crew.workers)? {
        Some(batch) => Ok(Some(change_of(rt, alloc, batch, crew)?)),
        None => Ok(None),
    }
}
