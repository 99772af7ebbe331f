//! One word `LIB=PATH`: a library and the path of its file.
ghost use Rattle.std.specs.Prelude.{◌≡◌, ◌≤◌, ◌==◌, length, IsTrue, position, Some, None, if◌then◌else◌};
ghost use Rattle.std.specs.Option.{option_map};
ghost use Rattle.std.specs.List.{position_or_len};
ghost use Rattle.std.specs.Str.{is_utf8};
ghost use Rattle.union_words.specs.Meanings.{file_meaning};
ghost use Rattle.union_words.specs.Words;

use union_base::library_code::LibraryCode;

/// A library and the path of its file, which is borrowed from the word that names both.
#[derive(Clone, Copy)]
pub struct LibraryFile<'a> {
    pub library: LibraryCode,
    pub path: &'a [u8],
}

impl<'a> LibraryFile<'a> {
    /// The library and the path of a word `LIB=PATH`: None exactly where what stands before the word's first `=` is no
    /// library code, or what stands after it is no path. Takes no memory.
    pub fn read(word: &'a [u8]) -> Option<LibraryFile<'a>>
        ensures { option_map file_meaning result
            ≡ (if Words.is_library_word word.now then Some (Words.library_of word.now) else None) }
    {
        let library = LibraryCode::read(code_text(word))?;
        let path = path_text(word);
        if is_path(path) {
            Some(LibraryFile { library, path })
        } else {
            None
        }
    }
}

/// The library and the path of a word that is known to be `LIB=PATH`. Takes no memory.
pub fn read_library(word: &[u8]) -> LibraryFile<'_>
    requires { IsTrue (Words.is_library_word word.now) }
    ensures { file_meaning result ≡ Words.library_of word.now }
{
    match LibraryFile::read(word) {
        Some(file) => file,
        None => unreachable!(),
    }
}

/// What stands before the first `=` of a word, and the whole word where it has none. Takes no memory.
pub fn code_text(word: &[u8]) -> &[u8]
    ensures { result.now ≡ Words.code_text word.now }
{
    &word[..equals_place(word)]
}

/// What stands after the first `=` of a word, and nothing where it has none.
fn path_text(word: &[u8]) -> &[u8]
    ensures { result.now ≡ Words.path_text word.now }
{
    let at = equals_place(word);
    if at < word.len() {
        &word[at + 1..]
    } else {
        &[]
    }
}

/// Where the first `=` of a word stands, and the word's length where it has none.
fn equals_place(word: &[u8]) -> usize
    ensures value { result ≡ position_or_len (λ b. b == 0x3D) word.now }
    ensures within { result ≤ length word.now }
{
    match first_equals(word) {
        Some(at) => at,
        None => word.len(),
    }
}

fn first_equals(word: &[u8]) -> Option<usize>
    ensures { result ≡ position (λ b. b == 0x3D) word.now }
{
    word.iter().position(|b| *b == b'=')
}

/// Whether the text is a path: UTF-8 and at least one byte. Takes no memory.
pub fn is_path(text: &[u8]) -> bool
    ensures { result ≡ Words.is_path text.now }
{
    1 <= text.len() && is_utf8(text)
}

fn is_utf8(text: &[u8]) -> bool
    ensures { result ≡ is_utf8 text.now }
{
    simdutf8::is_utf8(text)
}
