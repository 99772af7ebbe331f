//! The reading of several batches at a time, by several workers.
//!
//! The frames of a round, 16 blocks, are cut first, and each is copied, since the reader lends one at a time. Then the workers check them and
//! make their operations, a share of neighbouring blocks each: the batches and the refused frames are those of one worker. Cost: the bytes
//! of a round, and a thread for each worker but one in each round.
ghost use Rattle.std.specs.Prelude.{◌≡◌, ◌≢◌, ◌≤◌, Err};
ghost use Rattle.union_io.specs.Causes.{Rose};
ghost use Rattle.library_batches.specs.Rounds.{RoundAnswers};

use crate::batch_reader::BatchReader;
use crate::checking::Origin;
use crate::stop::Stop;
use crate::working::{Worked, batches_of, frame_count, work_round};
use catalogue_editions::batch::Batch;
use std::alloc::Global;
use std::thread::Threads;
use union_io::source::Source;

/// The batches of a round.
#[derive(Drop)]
pub struct Round {
    pub batches: Vec<Batch>,
    /// Whether the source ended within the round.
    pub ended: bool,
}

impl BatchReader {
    /// The batches of the next round of the source's frames, 16 blocks or fewer, whose frames are checked and their operations made by
    /// `workers` workers, and whether the source ended within the round, and within the limit.
    ///
    /// Stops as `next` does, and keeps the refused frames before the stop too. If allocation fails, it keeps those of the first frames, of
    /// all but a round and one more at most. The batches of a round that was not whole by then are dropped.
    pub fn next_round<R: Threads + Sync, S: Source>(
        &mut self,
        rt: &R,
        alloc: Global,
        source: &mut S,
        workers: u32,
    ) -> Result<Round, Stop>
        requires { 1 ≤ workers }
        ensures name { S.name source.new ≡ S.name source.old }
        ensures prefer { self.new.prefer ≡ self.old.prefer }
        ensures library { self.new.library ≡ self.old.library }
        ensures answers { RoundAnswers result self.old (S.left source.old) self.new
            (S.left source.new) }
        ensures failed { result ≡ Err Stop.Failed
            → Rose (S.faults source.old) (S.faults source.new) }
        ensures calm { result ≢ Err Stop.Failed → S.faults source.new ≡ S.faults source.old }
    {
        let origin = Origin {
            prefer: &self.prefer,
            library: &self.library,
            number: self.frames + 1,
        };
        let Worked { works, cut } = work_round(
            rt,
            alloc,
            &mut self.reader,
            source,
            &origin,
            workers,
        )?;
        self.frames += frame_count(works.as_slice());
        let made = batches_of(alloc, &origin, works, &mut self.refused);
        match cut {
            Ok(ended) => Ok(Round {
                batches: made?,
                ended,
            }),
            Err(stop) => match stop {
                Stop::TooLong => {
                    made?;
                    Err(Stop::TooLong)
                }
                Stop::Failed => Err(Stop::Failed),
                Stop::Memory => Err(Stop::Memory),
            },
        }
    }
}
