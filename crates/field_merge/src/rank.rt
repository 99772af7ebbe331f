//! How good a record is, where records of one edition differ.
ghost use Rattle.std.specs.Prelude.{◌≡◌, IfOk, refl};
ghost use Rattle.std.specs.Ordering.{as_partial_cmp, eq_by_cmp};
ghost use Rattle.std.specs.Cmp.{eq_by_cmp_equiv, partial_equiv_from_equiv, partial_order_from_total};
ghost use Rattle.field_merge.specs.Orders.{rank_cmp};
ghost use Rattle.field_merge.specs.OrderLaws.{rank_total};
ghost use Rattle.field_merge.specs.Ranks.{class_of, stamp_of, rank};

use crate::preference::Preference;
use marc_parts::marc_record::Record;
use marc_parts::parts::{control_number, text_under};
use std::alloc::Global;
use std::cmp::Ordering;
use std::marker::Model;
use std::sync::Arc;
use union_base::bytes::Bytes;
use union_base::copied::Copied;
use union_base::library_code::LibraryCode;
use union_base::memory::Memory;

/// How many bytes a stamp has (MARC 21, 005).
pub const STAMP_SIZE: usize = 16;

/// What a rank has (this project's own), compared by these fields in their order. The greater is the better.
#[derive(Debug, PartialEq, Eq, PartialOrd, Ord, Drop)]
pub struct RankParts {
    /// How the library is preferred, from `MOST_CODES` for the first library of a preference down to 0 for one without a
    /// place in it.
    pub level: u8,
    /// How full the record is by its encoding level, from 9 for a full one down to 0.
    pub class: u8,
    /// When the record was last changed: the text of field 005, or sixteen `0`.
    pub stamp: [u8; STAMP_SIZE],
    /// The library that has the record.
    pub library: LibraryCode,
    /// The record's control number there.
    pub control: Bytes,
}

/// A record's rank, which contracts see as its parts, and which is compared by them. All owners of a rank share its parts,
/// which nothing changes once they were made. So the fixed part and the slots of a record have one rank among them, and a
/// copy is one more owner, which takes no memory.
#[derive(Debug, Drop)]
pub struct Rank {
    parts: Arc<RankParts, Global>,
}

impl Model for Rank {
    ghost use Rattle.std.specs.Arc.{arc_value};
    ghost use Rattle.field_merge.specs.declared.rank.RankParts.{RankParts};

    ghost Value = { RankParts };

    ghost view = { λ rank. arc_value rank.parts };
}

impl Rank {
    /// The rank of those parts.
    ///
    /// Returns `Memory` if allocation fails.
    pub fn of(alloc: Global, parts: RankParts) -> Result<Rank, Memory>
        ensures { IfOk result (λ rank. rank ≡ parts) }
    {
        Ok(Rank {
            parts: Arc::new(alloc, parts)?,
        })
    }

    /// One more owner of the rank. Takes no memory.
    ///
    /// Answers `Memory` where the rank has as many owners as can be counted.
    pub fn shared(&self) -> Result<Rank, Memory>
        ensures { IfOk result (λ rank. rank ≡ self.now) }
    {
        Ok(Rank {
            parts: Arc::try_clone(&self.parts)?,
        })
    }

    /// What the rank has. Takes no memory.
    pub fn parts(&self) -> &RankParts
        ensures { result.now ≡ self.now }
    {
        &self.parts
    }
}

impl Copied for Rank {
    fn copied(&self, _alloc: Global) -> Result<Rank, Memory> {
        self.shared()
    }
}

impl PartialEq for Rank {
    ghost eq = { eq_by_cmp rank_cmp };

    ghost laws = { partial_equiv_from_equiv (eq_by_cmp_equiv rank_total) };

    fn eq(&self, other: &Rank) -> bool {
        self.cmp(other).is_eq()
    }
}

impl Eq for Rank {
    ghost laws = { eq_by_cmp_equiv rank_total };
}

impl PartialOrd for Rank {
    ghost partial_cmp = { as_partial_cmp rank_cmp };

    ghost laws = { partial_order_from_total rank_total };

    fn partial_cmp(&self, other: &Rank) -> Option<Ordering> {
        Some(self.cmp(other))
    }
}

impl Ord for Rank {
    ghost cmp = { rank_cmp };

    ghost total = { rank_total };

    ghost matches_partial_cmp = { λ x y. refl };

    ghost matches_eq = { λ x y. refl };

    fn cmp(&self, other: &Rank) -> Ordering {
        self.parts().cmp(other.parts())
    }
}

/// The rank of a library's record, by the preference. Returns `Memory` if allocation fails.
pub fn rank_of(
    alloc: Global,
    prefer: &Preference,
    library: &LibraryCode,
    rec: &Record,
) -> Result<Rank, Memory>
    ensures { IfOk result (λ r. r ≡ rank prefer.now library.now rec.now) }
{
    let parts = RankParts {
        level: prefer.level(library),
        class: class_of(rec.leader.encoding),
        stamp: stamp_of(text_under(b"005", rec.fields.as_slice())),
        library: *library,
        control: Bytes::of(alloc, control_number(rec))?,
    };
    Rank::of(alloc, parts)
}

/// How full a record of that encoding level is (MARC 21, leader/17), from 9 for a full one down to 0 for a code that says
/// nothing of it (this project's own). Takes no memory.
pub fn class_of(encoding: u8) -> u8
    ensures { result ≡ class_of encoding }
{
    match encoding {
        b' ' => 9,
        b'1' | b'I' => 8,
        b'4' => 7,
        b'2' => 6,
        b'7' | b'K' => 5,
        b'3' => 4,
        b'5' => 3,
        b'8' | b'M' => 2,
        b'u' => 1,
        _ => 0,
    }
}

/// The stamp of a record with that text in field 005.
fn stamp_of(text: &[u8]) -> [u8; STAMP_SIZE]
    ensures { result ≡ stamp_of text.now }
{
    let mut stamp = [b'0'; STAMP_SIZE];
    if text.len() == STAMP_SIZE {
        stamp.copy_from_slice(text);
    }
    stamp
}
