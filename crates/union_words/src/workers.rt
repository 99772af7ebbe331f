//! How many workers the words ask for.
ghost use Rattle.std.specs.Prelude.{◌≡◌, ◌≤◌};
ghost use Rattle.std.specs.Option.{option_map};
ghost use Rattle.union_words.specs.Numbers;
ghost use Rattle.union_words.specs.Words;

use crate::number::{workers_of, workers_word};
use union_base::bytes::Bytes;

/// How many workers there are where the words do not say.
pub const USUAL_WORKERS: u32 = 4;

/// A number of workers, 1 to 64.
#[derive(Clone, Copy, Debug)]
pub struct Workers {
    number: u32,
    ghost least: { 1 ≤ number },
    ghost most: { number ≤ 64 },
}

impl Workers {
    /// As many as the text says, 1 to 64: None exactly where it is no such number. Takes no memory.
    pub fn read(text: &[u8]) -> Option<Workers>
        ensures { option_map (λ workers. workers.number) result ≡ Numbers.workers_of text.now }
    {
        let number = workers_of(text)?;
        Some(Workers {
            number: number as u32,
        })
    }

    /// How many there are. Takes no memory.
    pub fn number(&self) -> u32
        ensures value { result ≡ self.now.number }
        ensures least { 1 ≤ result }
        ensures most { result ≤ 64 }
    {
        self.number
    }
}

/// The workers, by a first word `--workers=N` where there is one, and the words after it. Takes no memory.
pub(crate) fn workers_in(words: &[Bytes]) -> (Workers, &[Bytes])
    ensures workers { result.0.number ≡ (Words.workers_in words.now).0 }
    ensures rest { result.1.now ≡ (Words.workers_in words.now).1 }
{
    match words {
        [word, rest @ ..] => match workers_word(word.bytes()) {
            Some(number) => (
                Workers {
                    number: number as u32,
                },
                rest,
            ),
            None => (usual_workers(), words),
        },
        [] => (usual_workers(), words),
    }
}

fn usual_workers() -> Workers
    ensures { result.number ≡ Words.usual_workers }
{
    Workers {
        number: USUAL_WORKERS,
    }
}
