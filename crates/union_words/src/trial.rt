//! What a trial generates, as the words say.
ghost use Rattle.std.specs.Prelude.{◌≡◌, ◌≤◌};
ghost use Rattle.std.specs.Option.{option_map};
ghost use Rattle.union_words.specs.Numbers;
ghost use Rattle.union_words.specs.Words;

use crate::number::{count_of, seed_of};
use crate::workers::Workers;

/// How many records a trial generates, 1 to 200,000, with which number it begins, and how many workers load them.
#[derive(Clone, Copy, Debug)]
pub struct Trial {
    seed: u64,
    count: u32,
    workers: Workers,
    ghost least: { 1 ≤ count },
    ghost most: { count ≤ 200000 },
}

impl Trial {
    ghost use Rattle.union_words.specs.Meanings.{trial_meaning};

    /// The trial of three words: None exactly where the first is no number from 0 to 2^64 - 1, the second none from 1 to
    /// 200,000, or the third none from 1 to 64. Takes no memory.
    pub fn read(seed: &[u8], count: &[u8], workers: &[u8]) -> Option<Trial>
        ensures { option_map trial_meaning result
            ≡ Words.numbers_job (Numbers.seed_of seed.now) (Numbers.count_of count.now)
            (Numbers.workers_of workers.now) }
    {
        let seed = seed_of(seed)?;
        let count = count_of(count)?;
        let workers = Workers::read(workers)?;
        Some(Trial {
            seed,
            count: count as u32,
            workers,
        })
    }

    /// The number with which the generator begins. Takes no memory.
    pub fn seed(&self) -> u64
        ensures { result ≡ self.now.seed }
    {
        self.seed
    }

    /// How many records are generated. Takes no memory.
    pub fn count(&self) -> u32
        ensures value { result ≡ self.now.count }
        ensures least { 1 ≤ result }
        ensures most { result ≤ 200000 }
    {
        self.count
    }

    /// How many workers load them. Takes no memory.
    pub fn workers(&self) -> Workers
        ensures { result ≡ self.now.workers }
    {
        self.workers
    }
}
