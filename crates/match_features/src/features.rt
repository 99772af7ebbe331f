//! Features.
ghost use Rattle.std.specs.Prelude.{IsTrue};
ghost use Rattle.match_features.specs.Kept.{are_features};

use union_base::bytes::Bytes;
use union_base::sorted_list::SortedList;

/// What a record, or an edition of several, is matched by (this project's own). Each list is in order and without repeats,
/// and there is at least one control pair.
#[derive(Debug)]
pub struct Features {
    /// Pairs of a source and a control number. A library's own numbers have the source `=` and its code.
    pub control: SortedList<(Bytes, Bytes)>,
    /// The type of record and the bibliographic level (MARC 21, leader/06 and 07).
    pub types: SortedList<[u8; 2]>,
    /// ISBNs, of thirteen digits.
    pub isbns: SortedList<[u8; 13]>,
    /// ISSNs, of eight characters.
    pub issns: SortedList<[u8; 8]>,
    /// Titles in normal form.
    pub titles: SortedList<Bytes>,
    /// Years of four digits (MARC 21, 008/07-10).
    pub dates: SortedList<[u8; 4]>,
    /// Headings of the main entry in normal form.
    pub names: SortedList<Bytes>,
    pub ghost kept: { IsTrue (are_features control types isbns issns titles dates names) },
}

/// A drop of its own, as that of `Bytes`.
impl Drop for Features {
    fn drop(self) {
        let Features {
            control: _,
            types: _,
            isbns: _,
            issns: _,
            titles: _,
            dates: _,
            names: _,
        } = self;
    }
}
