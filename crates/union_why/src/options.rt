//! The options that `union` has too.
ghost use Rattle.std.specs.Prelude.{◌≡◌};
ghost use Rattle.union_words.specs.Words;

use field_merge::preference::Preference;
use union_base::bytes::Bytes;
use union_words::number::option_text;

/// The preference, by a first word `--prefer=LIB,..` where there is one, and the words after it; without such a word no library is
/// preferred. Takes no memory.
pub(crate) fn prefer_in(words: &[Bytes]) -> (Preference, &[Bytes])
    ensures prefer { result.0 ≡ (Words.prefer_in words.now).0 }
    ensures rest { result.1.now ≡ (Words.prefer_in words.now).1 }
{
    match words {
        [word, rest @ ..] => match prefer_word(word.bytes()) {
            Some(prefer) => (prefer, rest),
            None => (Preference::none(), words),
        },
        [] => (Preference::none(), words),
    }
}

/// The preference that a word `--prefer=LIB,..` gives: None exactly where it is no such word.
fn prefer_word(word: &[u8]) -> Option<Preference>
    ensures { result ≡ Words.prefer_word word.now }
{
    Preference::read(option_text(b"--prefer=", word)?)
}
