//! Shares of editions for several workers.
ghost use Rattle.std.specs.Prelude.{◌≤◌, ◌<◌};

/// The fewest editions of which a share is worth a thread.
const LEAST_SHARE: usize = 512;

/// How many of so many editions each worker takes, where they are dealt out in equal shares.
pub(crate) fn share_of(count: usize, workers: u32) -> usize
    requires { 1 ≤ workers }
    ensures { 0 < result }
{
    count.div_ceil(workers as usize).max(LEAST_SHARE)
}
