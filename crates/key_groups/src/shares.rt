//! Shares of work.
ghost use Rattle.std.specs.Prelude.{◌≤◌, ◌<◌, ◌+◌, ◌*◌, ◌/◌};

/// How many of a list's values are the share of these workers of all.
pub(crate) fn share(count: usize, some: u32, all: u32) -> usize
    requires some { some ≤ all }
    requires all { 0 < all }
    ensures { result ≤ count }
{
    count / all as usize * some as usize
}
