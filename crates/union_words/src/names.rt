//! Where the file of names is, as the words say.
ghost use Rattle.std.specs.Prelude.{◌≡◌};
ghost use Rattle.std.specs.Option.{option_copied};
ghost use Rattle.union_words.specs.Words;

use crate::library_file::is_path;
use crate::number::option_text;
use union_base::bytes::Bytes;

/// The path of the file of names, by a first word `--names=PATH` where there is one, and the words after it. Takes no memory.
pub(crate) fn names_in(words: &[Bytes]) -> (Option<&[u8]>, &[Bytes])
    ensures names { option_copied result.0 ≡ (Words.names_in words.now).0 }
    ensures rest { result.1.now ≡ (Words.names_in words.now).1 }
{
    match words {
        [word, rest @ ..] => match names_word(word.bytes()) {
            Some(path) => (Some(path), rest),
            None => (None, words),
        },
        [] => (None, words),
    }
}

/// The path in a word `--names=PATH`.
fn names_word(word: &[u8]) -> Option<&[u8]>
    ensures { option_copied result ≡ Words.names_word word.now }
{
    let path = option_text(b"--names=", word)?;
    if is_path(path) { Some(path) } else { None }
}
