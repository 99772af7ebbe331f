//! The cutting of one block of frames, before they are checked.
ghost use Rattle.std.specs.Prelude.{◌≡◌, ◌≢◌, ◌≤◌, ◌+◌, [], length, Err};
ghost use Rattle.union_io.specs.Causes.{Rose};
ghost use Rattle.library_stream.specs.Streaming.{most_ahead};
ghost use Rattle.library_batches.specs.Batches.{block_size};
ghost use Rattle.library_batches.specs.Blocks.{AnswersCut};

use crate::cut_frame::{CutFrame, push_copy};
use crate::stop::Stop;
use catalogue_editions::op::LARGEST_BATCH;
use library_stream::answer::Next;
use library_stream::frame_reader::FrameReader;
use std::alloc::Global;
use union_io::source::Source;

/// Cuts the next frames of the source, `LARGEST_BATCH` of them unless it ends before, and answers whether it ended then. Also
/// where the reading stops, the frames that were kept before are in `frames`.
///
/// Answers `TooLong` and `Failed` as the reader does, and `Memory` if allocation fails; the frame that was cut then is lost.
pub fn cut_block<S: Source>(
    alloc: Global,
    reader: &mut FrameReader,
    source: &mut S,
    frames: &mut Vec<CutFrame>,
) -> Result<bool, Stop>
    requires { frames.old.items ≡ [] }
    ensures name { S.name source.new ≡ S.name source.old }
    ensures answers { AnswersCut result reader.old (S.left source.old) reader.new
        (S.left source.new) frames.new.items }
    ensures most { length frames.new.items ≤ block_size }
    ensures fewer { most_ahead reader.new + length frames.new.items ≤ most_ahead reader.old }
    ensures failed { result ≡ Err Stop.Failed
        → Rose (S.faults source.old) (S.faults source.new) }
    ensures calm { result ≢ Err Stop.Failed → S.faults source.new ≡ S.faults source.old }
{
    for _frame in 0..LARGEST_BATCH {
        match reader.next(source) {
            Next::Frame(cut) => push_copy(alloc, cut, reader.frame(), frames)?,
            Next::End => return Ok(true),
            Next::TooLong => return Err(Stop::TooLong),
            Next::Failed => return Err(Stop::Failed),
        }
    }
    Ok(false)
}
