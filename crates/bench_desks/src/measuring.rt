//! A load with or without a viewer beside it.
ghost use Rattle.std.specs.Prelude.{◌≡◌, ◌≤◌, ◌<◌, [], length};
ghost use Rattle.union_follow.specs.Turning.{IsShown};

use crate::asking::{Asking, ask_until};
use crate::loading::{Loading, load_timed};
use catalogue_core::catalogue::Catalogue;
use key_hashing::hashing::Hashing;
use snapshot_desk::opening::open;
use std::alloc::Global;
use std::sync::Wait;
use std::sync::atomic::AtomicBool;
use std::thread::{Threads, join_mut};
use std::time::{Clock, Duration};
use union_base::memory::Memory;
use union_files::opening::open_rest;
use union_files::reports::Reports;
use union_follow::turning::Load;
use union_io::shelf::Shelf;
use union_io::source::Source;
use union_words::libraries::Libraries;

/// What a load took, and what a viewer beside it answered. Times are in microseconds.
#[derive(Clone, Copy, Debug)]
pub struct Measures {
    pub load: u128,
    pub turns: u64,
    pub answers: u64,
    pub slowest: u128,
}

/// Loads in this thread, and asks in another until the load has ended.
fn load_beside<R: Threads + Wait + Sync + Clock, S: Source + Send>(
    rt: &R,
    alloc: Global,
    ended: &AtomicBool,
    loading: &mut Loading<S>,
    asking: &mut Asking,
) -> (Result<(), Memory>, Result<Duration, Memory>)
    requires few { length loading.old.opened.items ≤ 64 }
    requires shown { IsShown loading.old.load.catalogue.history loading.old.load.publisher }
    requires empty { loading.old.load.catalogue.history ≡ [] }
    ensures publisher { loading.new.load.publisher.book ≡ loading.old.load.publisher.book }
    ensures viewer { asking.new.viewer.book ≡ asking.old.viewer.book }
{
    join_mut(
        rt,
        &mut || ask_until(rt, alloc, ended, asking),
        &mut || load_timed(rt, alloc, ended, loading),
    )
}

/// Loads, with the viewer beside or alone. Returns `Memory` where the load or the viewer did not come to its end.
fn timed<R: Threads + Wait + Sync + Clock, S: Source + Send>(
    rt: &R,
    alloc: Global,
    is_beside: bool,
    loading: &mut Loading<S>,
    asking: &mut Asking,
) -> Result<Duration, Memory>
    requires few { length loading.old.opened.items ≤ 64 }
    requires shown { IsShown loading.old.load.catalogue.history loading.old.load.publisher }
    requires empty { loading.old.load.catalogue.history ≡ [] }
    ensures publisher { loading.new.load.publisher.book ≡ loading.old.load.publisher.book }
    ensures viewer { asking.new.viewer.book ≡ asking.old.viewer.book }
{
    let ended = AtomicBool::new(false);
    if is_beside {
        let (asked, loaded) = load_beside(rt, alloc, &ended, loading, asking);
        asked?;
        loaded
    } else {
        load_timed(rt, alloc, &ended, loading)
    }
}

/// Opens the files of the libraries, loads them one after the other as `follow` does, and measures that.
///
/// Returns `Memory` where a file can't be opened or read to its end, or allocation fails, or the clock can't be read.
pub fn measured<R: Threads + Wait + Sync + Clock, F: Shelf>(
    rt: &R,
    alloc: Global,
    libraries: &Libraries<'_>,
    is_beside: bool,
    shelf: &mut F,
) -> Result<Measures, Memory> {
    let Ok(opened) = open_rest(alloc, libraries, 0, shelf) else {
        return Err(Memory);
    };
    let catalogue = Catalogue::empty(alloc, Hashing::fixed())?;
    let (publisher, viewer) = open(alloc, Hashing::fixed())?;
    let load = Load {
        catalogue,
        publisher,
        reports: Reports::none(alloc),
    };
    let mut loading: Loading<F::Src> = Loading { opened, load };
    let mut asking = Asking {
        viewer,
        answers: 0,
        slowest: Duration::ZERO,
    };
    let spent = timed(rt, alloc, is_beside, &mut loading, &mut asking);
    let Loading { opened: _, load } = loading;
    let Load {
        catalogue,
        publisher,
        reports: _,
    } = load;
    let Asking {
        viewer,
        answers,
        slowest,
    } = asking;
    publisher.close(rt, viewer);
    Ok(Measures {
        load: spent?.as_micros(),
        turns: catalogue.turns(),
        answers,
        slowest: slowest.as_micros(),
    })
}
