//! The first word of a line.
ghost use Rattle.std.specs.Prelude.{◌≡◌};
ghost use Rattle.catalogue_query.specs.Queries.{word_of};

/// The words with which queries begin.
#[derive(Clone, Copy)]
pub(crate) enum Word {
    Id,
    Isbn,
    Issn,
    Control,
    Title,
    Work,
    Holdings,
    Count,
}

impl Word {
    /// The word of that spelling, where there is one.
    pub(crate) fn read(text: &[u8]) -> Option<Word>
        ensures { result ≡ word_of text.now }
    {
        if text == b"id".as_slice() {
            Some(Word::Id)
        } else if text == b"isbn".as_slice() {
            Some(Word::Isbn)
        } else if text == b"issn".as_slice() {
            Some(Word::Issn)
        } else if text == b"control".as_slice() {
            Some(Word::Control)
        } else if text == b"title".as_slice() {
            Some(Word::Title)
        } else if text == b"work".as_slice() {
            Some(Word::Work)
        } else if text == b"holdings".as_slice() {
            Some(Word::Holdings)
        } else if text == b"count".as_slice() {
            Some(Word::Count)
        } else {
            None
        }
    }
}
