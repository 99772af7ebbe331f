//! The libraries that the words of one command name, each with the path of its file.
ghost use Rattle.std.specs.Prelude.{◌≡◌, ◌<◌, ◌≤◌, ◌&&◌, length, true, Some, None, IsTrue, if◌then◌else◌, nat_le, slice_get};
ghost use Rattle.std.specs.Option.{option_map};
ghost use Rattle.std.specs.List.{list_all, list_any};
ghost use Rattle.union_words.specs.Words;

use crate::library_file::{LibraryFile, code_text, read_library};
use union_base::bytes::Bytes;

/// The most libraries that a command takes.
pub const MOST_LIBRARIES: usize = 64;

/// One to 64 libraries with distinct codes, in the order of the command. Each is read from its word when it is asked
/// for, so a value of this type is no more than a borrow of the words.
#[derive(Clone, Copy)]
pub struct Libraries<'a> {
    words: &'a [Bytes],
    ghost words_are_libraries: { IsTrue (Words.are_libraries words.now) },
}

impl<'a> Libraries<'a> {
    ghost use Rattle.union_words.specs.Meanings.{libraries_meaning, file_meaning};

    /// The libraries of the words: None exactly where these are not one to 64 words `LIB=PATH` with distinct codes. Takes no
    /// memory. Compares each pair of words.
    pub fn read(words: &'a [Bytes]) -> Option<Libraries<'a>>
        ensures { option_map libraries_meaning result
            ≡ (if Words.are_libraries words.now then Some (Words.libraries_of words.now) else
            None) }
    {
        if are_libraries(words) {
            Some(Libraries { words })
        } else {
            None
        }
    }

    /// How many libraries there are: 1 to 64. Takes no memory.
    pub fn len(&self) -> usize
        ensures value { result ≡ length (libraries_meaning self.now) }
        ensures some { 1 ≤ result }
        ensures most { result ≤ 64 }
    {
        self.words.len()
    }

    /// The library at this place, counted from 0. Reads its word again, and takes no memory.
    pub fn at(&self, place: usize) -> LibraryFile<'a>
        requires { place < length (libraries_meaning self.now) }
        ensures { slice_get (libraries_meaning self.now) place ≡ Some (file_meaning result) }
    {
        read_library(self.words[place].bytes())
    }
}

fn are_libraries(words: &[Bytes]) -> bool
    ensures { result ≡ Words.are_libraries words.now }
{
    is_few(words.len()) && are_library_words(words) && have_distinct_codes(words)
}

fn is_few(count: usize) -> bool
    ensures { result ≡ (nat_le 1 count && nat_le count Words.most_libraries) }
{
    1 <= count && count <= MOST_LIBRARIES
}

fn are_library_words(words: &[Bytes]) -> bool
    ensures { result ≡ list_all Words.is_library_word words.now }
{
    words.iter().all(|word| is_library_word(word.bytes()))
}

fn is_library_word(word: &[u8]) -> bool
    ensures { result ≡ Words.is_library_word word.now }
{
    LibraryFile::read(word).is_some()
}

/// Whether no two words have the same text before their first `=`.
fn have_distinct_codes(words: &[Bytes]) -> bool
    ensures { result ≡ Words.have_distinct_codes words.now }
{
    match words {
        [] => true,
        [word, rest @ ..] => !is_named_in(word.bytes(), rest) && have_distinct_codes(rest),
    }
}

fn is_named_in(word: &[u8], others: &[Bytes]) -> bool
    ensures { result ≡ list_any (Words.name_one_library word.now) others.now }
{
    others
        .iter()
        .any(|other| name_one_library(word, other.bytes()))
}

fn name_one_library(a: &[u8], b: &[u8]) -> bool
    ensures { result ≡ Words.name_one_library a.now b.now }
{
    code_text(a) == code_text(b)
}
