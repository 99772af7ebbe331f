//! Why reading stopped before the end of a file.
use std::alloc::{AllocError, AllocFailed};
use union_base::memory::Memory;
use union_io::failed::Failed;

/// Why reading stopped before the end of a file.
#[derive(Clone, Copy, Debug, PartialEq, Eq)]
pub enum Stop {
    /// A read failed, and the source's count of faults rose.
    Failed,
    /// The source has more than `LARGEST_SOURCE` bytes.
    TooLong,
    /// Memory ran out.
    Memory,
}

impl From<Failed> for Stop {
    ghost use Rattle.std.specs.Prelude.{◌≡◌};
    ghost use Rattle.union_explain.specs.declared.stop.Stop.TheVariants as stop;

    ghost from_gives = { λ _ answer. answer ≡ stop.Failed };

    fn from(_failed: Failed) -> Stop {
        Stop::Failed
    }
}

impl From<Memory> for Stop {
    ghost use Rattle.std.specs.Prelude.{◌≡◌};
    ghost use Rattle.union_explain.specs.declared.stop.Stop.TheVariants as stop;

    ghost from_gives = { λ _ answer. answer ≡ stop.Memory };

    fn from(_want: Memory) -> Stop {
        Stop::Memory
    }
}

impl From<AllocError> for Stop {
    ghost use Rattle.std.specs.Prelude.{◌≡◌};
    ghost use Rattle.union_explain.specs.declared.stop.Stop.TheVariants as stop;

    ghost from_gives = { λ _ answer. answer ≡ stop.Memory };

    fn from(_refused: AllocError) -> Stop {
        Stop::Memory
    }
}

impl<T: Drop> From<AllocFailed<T>> for Stop {
    ghost use Rattle.std.specs.Prelude.{◌≡◌};
    ghost use Rattle.union_explain.specs.declared.stop.Stop.TheVariants as stop;

    ghost from_gives = { λ _ answer. answer ≡ stop.Memory };

    fn from(_refused: AllocFailed<T>) -> Stop {
        Stop::Memory
    }
}
