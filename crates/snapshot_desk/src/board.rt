//! The board on which published entries are posted.
//!
//! A posted entry stays where it is. Any thread reads it, and none waits for another to read.
ghost use Rattle.std.specs.Prelude.{◌≡◌, IfOk, IfSome};
ghost use Rattle.snapshot_desk.specs.Counting.{numbers_of};
ghost use Rattle.snapshot_desk.specs.Posting.{EndsWith};

use crate::log::Reached;
use boxcar::Keeps;
use boxcar::tag::{Names, Tag};
use catalogue_core::history_entry::HistoryEntry;
use catalogue_editions::batch::Batch;
use std::alloc::Global;
use std::sync::Wait;
use union_base::memory::Memory;

/// An entry that was published, its place in the history, counted from 0, and the list that it made of the published one.
#[derive(Drop)]
pub struct Posted {
    pub place: u64,
    pub entry: HistoryEntry,
    pub reached: Reached,
    pub ghost last: { EndsWith reached.log place entry },
}

/// The rule of a board: it has entries of one log.
pub struct OfLog;

impl Keeps<Posted> for OfLog {
    ghost use Rattle.std.specs.Prelude.{◌≡◌};
    ghost use Rattle.snapshot_desk.specs.Counting.{numbers_of};

    ghost holds = { λ tag index posted. tag ≡ numbers_of posted.reached.book };
}

impl Names<Reached> for OfLog {
    ghost use Rattle.snapshot_desk.specs.Counting.{numbers_of};

    ghost numbers = { λ reached. numbers_of reached.book };
}

/// The board.
pub type Board = boxcar::Vec<Posted, Global, OfLog>;

/// An empty board for the entries of a log. Returns `Memory` if allocation fails.
pub fn board_of(alloc: Global, reached: &Reached) -> Result<Board, Memory>
    ensures { IfOk result (λ board. board.tag ≡ numbers_of reached.now.book) }
{
    let tag = Tag::of::<Reached, OfLog>(reached);
    Ok(Board::with_rule(alloc, tag)?)
}

/// Posts an entry. Room was made for it, so the first push gets in; a push tells no cause, so it is tried until one does.
pub fn post<R: Wait>(rt: &R, board: &Board, posted: Posted)
    requires { board.now.tag ≡ numbers_of posted.reached.book }
{
    let mut next = posted;
    for _ in rt.forever() {
        match board.push(rt, next) {
            Ok(_) => return,
            Err(back) => next = back,
        }
    }
    unreachable!()
}

/// A copy of a posted entry: its pass number and its batch, its place, and the list that it ends.
#[derive(Drop)]
pub struct Next {
    pub place: u64,
    pub pass: u32,
    pub batch: Batch,
    pub reached: Reached,
    pub ghost last: { EndsWith reached.log place (record { pass = pass; batch = batch }) },
}

/// A copy of a posted entry. Returns `Memory` if allocation fails.
fn copied(alloc: Global, posted: &Posted) -> Result<Next, Memory>
    ensures place { IfOk result (λ next. next.place ≡ posted.now.place) }
    ensures log { IfOk result (λ next. next.reached.book ≡ posted.now.reached.book) }
{
    let batch = posted.entry.batch.copied(alloc)?;
    Ok(Next {
        place: posted.place,
        pass: posted.entry.pass,
        batch,
        reached: posted.reached.again(),
    })
}

/// A copy of the entry at that place, if one is posted. Waits for nobody.
///
/// Returns `Memory` if allocation fails.
pub fn posted_at(alloc: Global, board: &Board, place: u64) -> Result<Option<Next>, Memory>
    ensures place { IfOk result (λ found. IfSome found (λ next. next.place ≡ place)) }
    ensures log { IfOk result (λ found. IfSome found
        (λ next. board.now.tag ≡ numbers_of next.reached.book)) }
{
    match board.get(place as usize) {
        Some(posted) if posted.place == place => Ok(Some(copied(alloc, posted)?)),
        _ => Ok(None),
    }
}
