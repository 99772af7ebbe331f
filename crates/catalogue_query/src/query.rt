//! What a line asks.
ghost use Rattle.std.specs.Prelude.{◌≡◌};
ghost use Rattle.catalogue_query.specs.Queries.{query_of};
ghost use Rattle.catalogue_query.specs.Refusals.{IsReadAs};

use crate::grammar::query_behind;
use crate::word::Word;
use std::alloc::Global;
use union_base::blanks::cut_at_blank;
use union_base::bytes::Bytes;
use union_base::memory::Memory;
use union_base::record_id::RecordId;

/// A question to the catalogue.
#[derive(Debug, PartialEq, Eq)]
pub enum Query {
    /// `id LIB CTL`: the edition that has the record.
    Id(RecordId),
    /// `isbn X`: the editions with the ISBN, which is kept as its key.
    Isbn([u8; 13]),
    /// `issn X`: the editions with the ISSN, which is kept as its key.
    Issn([u8; 8]),
    /// `control (S)N`: the editions with the control number and its source, which are kept as their key.
    Control(Bytes, Bytes),
    /// `title T`: the editions with the title, which is kept in its normal form.
    Title(Bytes),
    /// `work K`: the editions with the work key.
    Work(Bytes),
    /// `holdings LIB CTL`: the holdings of the edition that has the record.
    Holdings(RecordId),
    /// `count`: how many editions, works and records there are.
    Count,
}

/// A drop of its own, as that of `Bytes`.
impl Drop for Query {
    fn drop(self) {
        match self {
            Query::Id(_) => (),
            Query::Isbn(_) => (),
            Query::Issn(_) => (),
            Query::Control(_, _) => (),
            Query::Title(_) => (),
            Query::Work(_) => (),
            Query::Holdings(_) => (),
            Query::Count => (),
        }
    }
}

/// Why a line gives no query.
#[derive(Clone, Copy, Debug, PartialEq, Eq)]
pub enum QueryRefusal {
    /// The first word is none of the eight with which queries begin.
    Unknown,
    /// The first word is one of the eight, and what stands after it is not in its grammar.
    Word,
    /// Memory ran out.
    Memory,
}

impl From<Memory> for QueryRefusal {
    ghost use Rattle.catalogue_query.specs.declared.query.QueryRefusal.TheVariants.{Memory as memory_refusal};

    ghost from_gives = { λ _ refusal. refusal ≡ memory_refusal };

    fn from(_refused: Memory) -> QueryRefusal {
        QueryRefusal::Memory
    }
}

impl Query {
    /// The query of a line (this project's own). The first word ends at the first blank or at the end of the line; one
    /// blank follows it, and then the rest:
    ///
    /// | First word | Rest |
    /// |---|---|
    /// | `id`, `holdings` | a library code, one blank, and a control number: between blanks 1 to 64 bytes of printing ASCII |
    /// | `isbn` | a text that `isbn_keys::isbn::isbn` gives a key |
    /// | `issn` | a text that `isbn_keys::issn::issn` gives a key |
    /// | `control` | a text that `isbn_keys::control::system_number` gives a key |
    /// | `title` | UTF-8, whose normal form without commas is not empty |
    /// | `work` | at least one byte |
    /// | `count` | nothing |
    ///
    /// Answers `Unknown` exactly where the first word is none of these, `Word` exactly where it is and the rest is not as
    /// the table says, and `Memory` if allocation fails.
    pub fn read(alloc: Global, line: &[u8]) -> Result<Query, QueryRefusal>
        ensures { IsReadAs result (query_of line.now) }
    {
        let (word, rest) = cut_at_blank(line);
        let Some(word) = Word::read(word) else {
            return Err(QueryRefusal::Unknown);
        };
        match query_behind(alloc, word, rest)? {
            Some(query) => Ok(query),
            None => Err(QueryRefusal::Word),
        }
    }
}
