//! Loading, timed.
ghost use Rattle.std.specs.Prelude.{◌≡◌, ◌≤◌, [], length};
ghost use Rattle.union_follow.specs.Turning.{IsShown};

use std::alloc::Global;
use std::collections::VecDeque;
use std::sync::Wait;
use std::sync::atomic::{AtomicBool, Ordering};
use std::time::{Clock, Duration, Instant};
use union_base::memory::Memory;
use union_files::opened_file::OpenedFile;
use union_follow::libraries::load_rest;
use union_follow::turning::Load;
use union_io::source::Source;

/// Opened files, and a load of none of them yet.
pub struct Loading<S: Drop> {
    pub opened: VecDeque<OpenedFile<S>>,
    pub load: Load,
}

/// Loads the opened files, tells that the load has ended, and answers how long it took. Returns `Memory` where it did not come to its end,
/// or the clock can't be read.
pub fn load_timed<R: Wait + Clock, S: Source>(
    rt: &R,
    alloc: Global,
    ended: &AtomicBool,
    loading: &mut Loading<S>,
) -> Result<Duration, Memory>
    requires few { length loading.old.opened.items ≤ 64 }
    requires shown { IsShown loading.old.load.catalogue.history loading.old.load.publisher }
    requires empty { loading.old.load.catalogue.history ≡ [] }
    ensures { loading.new.load.publisher.book ≡ loading.old.load.publisher.book }
{
    let start = Instant::now(rt);
    let loaded = load_rest(rt, alloc, 0, &mut loading.opened, &mut loading.load);
    ended.store(true, Ordering::SeqCst);
    match (start, loaded) {
        (Ok(start), Ok(())) => match start.elapsed(rt) {
            Ok(spent) => Ok(spent),
            Err(_) => Err(Memory),
        },
        _ => Err(Memory),
    }
}
