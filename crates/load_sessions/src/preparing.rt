//! The resolving of a batch's records among themselves, before its turn.
ghost use Rattle.std.specs.Prelude.{◌≡◌, ◌≤◌, IfOk};

use crate::crew::Crew;
use catalogue_core::batch::Batch;
use catalogue_core::laws::sorted_resolution_is_ordered;
use catalogue_core::net::net;
use catalogue_core::ordering::sorted_by_least;
use catalogue_core::prepared::Prepared;
use gathered_catalogue::change::Change;
use std::alloc::Global;
use std::thread::Threads;
use swoosh_halves::halves::resolve_halves;
use union_base::memory::Memory;

/// The batch, with the records that it leaves of its loads resolved among themselves by a crew of 1 to 64 workers, each in a thread
/// of its own where one can be made. One worker makes no thread.
///
/// Returns `Memory` if allocation fails.
pub fn prepare<R: Threads + Sync>(
    rt: &R,
    alloc: Global,
    batch: Batch,
    crew: Crew,
) -> Result<Prepared, Memory>
    requires some { 1 ≤ crew.workers }
    requires most { crew.workers ≤ 64 }
    ensures { IfOk result (λ prepared. prepared ≡ batch) }
{
    sorted_resolution_is_ordered();
    let editions = net(alloc, &batch)?;
    let resolved = resolve_halves(rt, crew.hashing, editions, crew.workers)?;
    let parts = sorted_by_least(resolved)?;
    Ok(Prepared::of(batch, parts))
}

/// The batch as the turn takes it: prepared, where the crew prepares, and else as it was read.
///
/// Returns `Memory` if allocation fails.
pub(crate) fn change_of<R: Threads + Sync>(
    rt: &R,
    alloc: Global,
    batch: Batch,
    crew: Crew,
) -> Result<Change, Memory>
    requires some { 1 ≤ crew.workers }
    requires most { crew.workers ≤ 64 }
    ensures { IfOk result (λ change. change ≡ batch) }
{
    if crew.prepares {
        Ok(Change::prepared(prepare(rt, alloc, batch, crew)?))
    } else {
        Ok(Change::plain(batch))
    }
}
