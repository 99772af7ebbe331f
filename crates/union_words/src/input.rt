//! What the program reads.
ghost use Rattle.std.specs.Prelude.{◌≡◌};
ghost use Rattle.union_words.specs.Texts.{input_name};

use union_base::library_code::LibraryCode;

/// An input, as a status names it.
#[derive(Clone, Copy, Debug, PartialEq, Eq)]
pub enum Input {
    /// A library's file.
    Library(LibraryCode),
    /// The file of questions.
    Asks,
    /// The script.
    Script,
    /// The file of names.
    Names,
}

impl Input {
    /// How the input is named in a text: a library by its code. Takes no memory.
    pub fn name(&self) -> &[u8]
        ensures { result.now ≡ input_name self.now }
    {
        match self {
            Input::Library(library) => library.bytes(),
            Input::Asks => b"asks",
            Input::Script => b"script",
            Input::Names => b"names",
        }
    }
}
