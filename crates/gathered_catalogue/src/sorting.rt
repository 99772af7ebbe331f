//! Editions sorted by several workers.
//!
//! Cost: at most one thread a worker, and a copy of the least contributor of each edition. The copies are sorted, each beside its edition,
//! so that no comparison waits for memory on the way from an edition to its least contributor. Each worker sorts its share, and two
//! shares in order are merged by the worker of one of them. A worker takes no share that is so small that a thread does not pay.
ghost use Rattle.std.specs.Prelude.{◌≡◌, ◌≤◌, map, IfOk};
ghost use Rattle.std.specs.Coded.{Coded-set};
ghost use Rattle.std.specs.List.Sorted.{IsPermutation, IsSorted};
ghost use Rattle.std.specs.Thread.{IsSync};
ghost use Rattle.catalogue_editions.specs.Ids.{least, edition_cmp};

use catalogue_editions::edition::Edition;
use std::alloc::Global;
use std::cmp::Ordering;
use std::thread::{Threads, join};
use union_base::copied::Copied;
use union_base::memory::Memory;
use union_base::record_id::RecordId;

/// The fewest editions of which a half is sorted in a thread of its own.
const WORTH_A_THREAD: usize = 4096;

/// An edition, with a copy of its least contributor.
#[derive(Drop)]
struct Named {
    id: RecordId,
    edition: Edition,
    ghost named: { id ≡ least edition } by { Coded-set id-code id (least edition) },
}

impl Named {
    /// The edition, with a copy of its least contributor. Returns `Memory` if allocation fails.
    fn of(alloc: Global, edition: Edition) -> Result<Named, Memory>
        ensures { IfOk result (λ named. named.edition ≡ edition) }
    {
        let id = edition.least().copied(alloc)?;
        Ok(Named { id, edition })
    }
}

/// The editions in the same order, each with a copy of its least contributor. Returns `Memory` if allocation fails.
fn all_named(editions: Vec<Edition>) -> Result<Vec<Named>, Memory>
    ensures { IfOk result (λ all. map (λ n. n.edition) all.items ≡ editions.items) }
{
    let alloc = *editions.allocator();
    let mut all = Vec::with_capacity(alloc, editions.len())?;
    for edition in editions {
        all.push(Named::of(alloc, edition)?)?;
    }
    Ok(all)
}

/// The editions in the same order, without the copies of their least contributors. Returns `Memory` if allocation fails.
fn editions_of(all: Vec<Named>) -> Result<Vec<Edition>, Memory>
    ensures { IfOk result (λ editions. editions.items ≡ map (λ n. n.edition) all.items) }
{
    let mut editions = Vec::with_capacity(*all.allocator(), all.len())?;
    for named in all {
        let Named { id: _, edition } = named;
        editions.push(edition)?;
    }
    Ok(editions)
}

/// The same in order of their least contributors. Returns `Memory` if allocation fails.
fn in_order(mut all: Vec<Named>) -> Result<Vec<Named>, Memory>
    ensures same { IfOk result (λ sorted. IsPermutation all.items sorted.items) }
    ensures ascending { IfOk result (λ sorted. IsSorted edition_cmp
        (map (λ n. n.edition) sorted.items)) }
{
    all.sort_by(
        |a: &Named, b: &Named| -> Ordering
            ensures { result ≡ edition_cmp a.now.edition b.now.edition }
        { a.id.cmp(&b.id) },
    )?;
    Ok(all)
}

/// The editions in order of their least contributors, each with a copy of it, sorted by so many workers. Returns `Memory` if allocation
/// fails.
#[cycle(shares)]
fn in_order_by<R: Threads + Sync>(
    rt: &R,
    editions: Vec<Edition>,
    workers: u32,
) -> Result<Vec<Named>, Memory>
    requires some { 1 ≤ workers }
    requires most { workers ≤ 64 }
    ensures same { IfOk result (λ sorted. IsPermutation editions.items
        (map (λ n. n.edition) sorted.items)) }
    ensures ascending { IfOk result (λ sorted. IsSorted edition_cmp
        (map (λ n. n.edition) sorted.items)) }
{
    if workers == 1 || editions.len() < WORTH_A_THREAD {
        return in_order(all_named(editions)?);
    }
    let mut front = editions;
    let back = front.split_off(front.len() / 2)?;
    let fewer = workers / 2;
    let others = workers - fewer;
    let sort_front = move || -> Result<Vec<Named>, Memory>
        requires { IsSync R.row × (1 ≤ fewer) × (fewer ≤ 64) }
        ensures { IfOk result (λ sorted. IsPermutation front.items
            (map (λ n. n.edition) sorted.items)) }
    { in_order_by(rt, front, fewer) };
    let sort_back = move || -> Result<Vec<Named>, Memory>
        requires { IsSync R.row × (1 ≤ others) × (others ≤ 64) }
        ensures { IfOk result (λ sorted. IsPermutation back.items
            (map (λ n. n.edition) sorted.items)) }
    { in_order_by(rt, back, others) };
    let (one, other) = join(rt, sort_front, sort_back);
    let mut both = one?;
    let mut more = other?;
    both.append(&mut more)?;
    in_order(both)
}

/// The editions in order of their least contributors, sorted by 1 to 64 workers, each in a thread of its own where one can be made. One
/// worker makes no thread. Returns `Memory` if allocation fails.
pub(crate) fn sorted_by_workers<R: Threads + Sync>(
    rt: &R,
    editions: Vec<Edition>,
    workers: u32,
) -> Result<Vec<Edition>, Memory>
    requires some { 1 ≤ workers }
    requires most { workers ≤ 64 }
    ensures same { IfOk result (λ sorted. IsPermutation editions.items sorted.items) }
    ensures ascending { IfOk result (λ sorted. IsSorted edition_cmp sorted.items) }
{
    let sorted = in_order_by(rt, editions, workers)?;
    editions_of(sorted)
}
