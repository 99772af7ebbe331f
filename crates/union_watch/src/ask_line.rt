//! One line of a file of questions.

/// A line of a file of questions that is not skipped, without its query. It borrows the text of the file.
#[derive(Clone, Copy, Debug)]
pub enum AskLine<'a> {
    /// It asks something of the catalogue.
    Asks(&'a [u8]),
    /// It begins with an unknown word, and is refused.
    Unknown,
    /// It begins with a word of a question and is in no form of it, and is refused.
    Word,
}
