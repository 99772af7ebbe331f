//! The contents of an edition's records, each as it is, until somebody asks what they merge to.
//!
//! The contents behind the first one stand in parts with several owners, each more than twice as long as the next, so n contents stand
//! in about log2(n) parts at most.
//!
//! Cost: to join two lists takes the union of their contributors, one more owner of each part of the longer list that stays, and one new
//! part, with one more owner of each content in it. The new part has the contents of the shorter list, and the last parts of the longer
//! one as long as they are at most twice as long as what comes behind them. So a content that goes from the longer list into the new
//! part is then in a part one half longer at least, and one of the shorter list is in an edition twice as large at least: while an
//! edition grows to n contents, a new owner of each content is made less than 3 log2(n) times. Most joins of a long list with a few
//! contents make a few owners. What the contents merge to is made by halves: each field is copied as often as the list can be halved.
ghost use Rattle.std.specs.Prelude.{◌≡◌, ◌≤◌, ◌++◌, ◌∷◌, length, IfOk, OnOk, IsTrue};
ghost use Rattle.field_merge.specs.Merging.{join};
ghost use Rattle.catalogue_editions.specs.Joined.{joined_all, all_in, parts_behind};
ghost use Rattle.catalogue_editions.specs.Borrowed.{contents_of};
ghost use Rattle.catalogue_editions.specs.Sound.{is_sound};

use crate::shared_content::SharedContent;
use crate::shared_part::{SharedPart, content_count, each_of};
use field_merge::content::Content;
use merge_laws::join::Join;
use std::alloc::Global;
use std::marker::Model;
use union_base::memory::Memory;
use union_base::record_id::RecordId;
use union_base::sorted_list::SortedList;

/// The contents behind the first one, in parts, and the contributors of them all.
#[derive(Debug)]
pub(crate) struct Behind {
    parts: Vec<SharedPart>,
    contributors: SortedList<RecordId>,
}

/// A drop of its own, as that of `Bytes`.
impl Drop for Behind {
    fn drop(self) {
        let Behind {
            parts: _,
            contributors: _,
        } = self;
    }
}

/// One content, or several, which contracts see as the one that they merge to. One alone takes no list, and no second copy of
/// its contributors.
#[derive(Debug)]
pub(crate) struct Contents {
    first: SharedContent,
    more: Option<Box<Behind>>,
}

/// A drop of its own, as that of `Bytes`.
impl Drop for Contents {
    fn drop(self) {
        let Contents { first: _, more: _ } = self;
    }
}

impl Model for Contents {
    ghost use Rattle.std.specs.Prelude.{◌≡◌};
    ghost use Rattle.field_merge.specs.declared.content.Content.{Content};
    ghost use Rattle.catalogue_editions.specs.Joined.{joined_all, all_in, parts_behind, kept_contributors};

    ghost Value = { Content };

    ghost view = { λ c. joined_all c.first (all_in (parts_behind c.more)) };

    ghost invariant = { λ c. kept_contributors c.first c.more
        ≡ (joined_all c.first (all_in (parts_behind c.more))).contributors };
}

impl Contents {
    /// One content alone. Returns `Memory` if allocation fails.
    pub fn of(alloc: Global, content: Content) -> Result<Contents, Memory>
        requires { IsTrue (is_sound content) }
        ensures { IfOk result (λ contents. contents ≡ content) }
    {
        Ok(Contents {
            first: SharedContent::of(alloc, content)?,
            more: None,
        })
    }

    /// The contributors of all contents. Takes no memory.
    pub fn contributors(&self) -> &SortedList<RecordId>
        ensures { result.now ≡ self.now.contributors }
    {
        match &self.more {
            Some(more) => &more.contributors,
            None => &self.first.content().contributors,
        }
    }

    /// The first content and the parts behind it, as they are. Takes no memory.
    pub fn parts(&self) -> (&SharedContent, &[SharedPart])
        ensures { joined_all result.0.now (all_in result.1.now) ≡ self.now }
    {
        (&self.first, parts_behind(&self.more))
    }

    /// What the contents merge to. Takes no memory where there is one, and returns `Memory` if allocation fails.
    pub fn content(&self, alloc: Global) -> Result<SharedContent, Memory>
        ensures { IfOk result (λ content. content ≡ self.now) }
    {
        let behind = each_of(alloc, parts_behind(&self.more))?;
        merged_by_halves(alloc, &self.first, behind.as_slice())
    }

    /// The contents of both. Returns `Memory` if allocation fails.
    pub fn joined(&self, alloc: Global, other: &Contents) -> Result<Contents, Memory>
        ensures { IfOk result (λ contents. contents ≡ join self.now other.now) }
    {
        if content_count(parts_behind(&self.more)) < content_count(parts_behind(&other.more)) {
            other.with_fewer(alloc, self)
        } else {
            self.with_fewer(alloc, other)
        }
    }

    /// The contents of both, of which the other has no more. Returns `Memory` if allocation fails.
    fn with_fewer(&self, alloc: Global, other: &Contents) -> Result<Contents, Memory>
        ensures { IfOk result (λ contents. contents ≡ join self.now other.now) }
    {
        let contributors = self.contributors().union(alloc, other.contributors())?;
        let left = parts_behind(&self.more);
        let right = parts_behind(&other.more);
        let parts = in_falling_parts(alloc, left, &other.first, right)?;
        let more = Box::new(
            alloc,
            Behind {
                parts,
                contributors,
            },
        )?;
        Ok(Contents {
            first: self.first.shared()?,
            more: Some(more),
        })
    }
}

/// The parts behind the first content, or none.
fn parts_behind(more: &Option<Box<Behind>>) -> &[SharedPart]
    ensures { result.now ≡ parts_behind more.now }
{
    match more {
        Some(more) => more.parts.as_slice(),
        None => &[],
    }
}

/// What the first content and those behind it merge to: the merge of what either half of the list does. Returns `Memory` if
/// allocation fails.
fn merged_by_halves(
    alloc: Global,
    first: &SharedContent,
    behind: &[&SharedContent],
) -> Result<SharedContent, Memory>
    ensures { IfOk result (λ merge. merge ≡ joined_all first.now (contents_of behind.now)) }
{
    let (left, right) = behind.split_at(behind.len() / 2);
    match right.split_first() {
        Some((middle, rest)) => {
            let one = merged_by_halves(alloc, first, left)?;
            let other = merged_by_halves(alloc, middle, rest)?;
            SharedContent::of(alloc, one.content().joined(alloc, other.content())?)
        }
        None => first.shared(),
    }
}

/// The left parts up to the last one that is more than twice as long as all that come behind it, and one part of all other contents,
/// in this order. Returns `Memory` if allocation fails.
fn in_falling_parts(
    alloc: Global,
    left: &[SharedPart],
    middle: &SharedContent,
    right: &[SharedPart],
) -> Result<Vec<SharedPart>, Memory>
    ensures { IfOk result (λ parts. all_in parts.items
        ≡ all_in left.now ++ middle.now ∷ all_in right.now) }
{
    let behind = content_count(right).saturating_add(1);
    let (kept, last) = left.split_at(kept_count(left, behind));
    let mut parts = Vec::with_capacity(alloc, kept.len().saturating_add(1))?;
    push_shared(&mut parts, kept)?;
    parts.push(SharedPart::of(alloc, last, middle, right)?)?;
    Ok(parts)
}

/// How many of the parts stay as they are where so many contents come behind them: all, where the last part is more than twice as
/// long as what comes behind it. Else the last part is put together with that.
fn kept_count(parts: &[SharedPart], behind: usize) -> usize
    ensures { result ≤ length parts.now }
{
    match parts.split_last() {
        Some((last, front)) => {
            let count = last.contents().len();
            if count > behind.saturating_mul(2) {
                parts.len()
            } else {
                kept_count(front, behind.saturating_add(count))
            }
        }
        None => 0,
    }
}

/// Pushes one more owner of each part. Returns `Memory` if allocation fails.
fn push_shared(all: &mut Vec<SharedPart>, parts: &[SharedPart]) -> Result<(), Memory>
    ensures { OnOk result (all.new.items ≡ all.old.items ++ parts.now) }
{
    for part in parts {
        all.push(part.shared()?)?;
    }
    Ok(())
}
