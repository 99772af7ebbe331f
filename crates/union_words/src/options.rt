//! The options that the commands which load libraries have in common.
ghost use Rattle.std.specs.Prelude.{◌≡◌};
ghost use Rattle.union_words.specs.Meanings.{options_meaning};
ghost use Rattle.union_words.specs.Words;

use crate::names::names_in;
use crate::prefer::prefer_in;
use crate::workers::{Workers, workers_in};
use field_merge::preference::Preference;
use union_base::bytes::Bytes;

/// How many workers load, whose record is preferred, where the file of names is, and the words after the options that say so.
#[derive(Clone, Copy)]
pub(crate) struct Options<'a> {
    pub(crate) workers: Workers,
    pub(crate) prefer: Preference,
    pub(crate) names: Option<&'a [u8]>,
    pub(crate) rest: &'a [Bytes],
}

impl<'a> Options<'a> {
    /// The options at the head of the words: the workers before the preference, and this before the file of names, each where
    /// it stands. Takes no memory.
    pub(crate) fn read(words: &'a [Bytes]) -> Options<'a>
        ensures { options_meaning result ≡ Words.options_in words.now }
    {
        let (workers, words) = workers_in(words);
        let (prefer, words) = prefer_in(words);
        let (names, rest) = names_in(words);
        Options {
            workers,
            prefer,
            names,
            rest,
        }
    }
}
