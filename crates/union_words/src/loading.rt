//! How a command loads the files of its libraries, as the words say.
ghost use Rattle.std.specs.Prelude.{◌≡◌};
ghost use Rattle.std.specs.Option.{option_map};
ghost use Rattle.union_words.specs.Meanings.{loading_meaning, options_meaning};
ghost use Rattle.union_words.specs.Words;

use crate::libraries::Libraries;
use crate::options::Options;
use crate::workers::Workers;
use field_merge::preference::Preference;
use union_base::bytes::Bytes;

/// How many workers load the files, whose record is preferred, where the file of names is, and the libraries. It borrows the words.
#[derive(Clone, Copy)]
pub struct Loading<'a> {
    pub workers: Workers,
    /// The libraries that are preferred, the best first. They need not be among those that are loaded.
    pub prefer: Preference,
    /// The path of the file of names, where there is one.
    pub names: Option<&'a [u8]>,
    pub libraries: Libraries<'a>,
}

impl<'a> Loading<'a> {
    /// The loading of the libraries that the words name, as the options say: None exactly where these are not one to 64 words `LIB=PATH` with
    /// distinct codes. Takes no memory. Compares each pair of words.
    pub(crate) fn read(options: Options<'a>, words: &'a [Bytes]) -> Option<Loading<'a>>
        ensures { option_map loading_meaning result
            ≡ Words.loading_of (options_meaning options.entry) words.now }
    {
        match Libraries::read(words) {
            Some(libraries) => Some(Loading {
                workers: options.workers,
                prefer: options.prefer,
                names: options.names,
                libraries,
            }),
            None => None,
        }
    }
}
