//! Why a source was not read to its end.
use std::alloc::AllocError;
use union_base::memory::Memory;

/// Why a source was not read to its end.
#[derive(Clone, Copy, Debug, PartialEq, Eq)]
pub enum Stop {
    /// It has more bytes than are read.
    TooLong,
    /// A read failed.
    Failed,
    /// Memory ran out.
    Memory,
}

impl From<Memory> for Stop {
    ghost use Rattle.std.specs.Prelude.{◌≡◌};
    ghost use Rattle.library_batches.specs.declared.stop.Stop.TheVariants.{Memory as StopMemory};

    ghost from_gives = { λ _ stop. stop ≡ StopMemory };

    fn from(_want: Memory) -> Stop {
        Stop::Memory
    }
}

impl From<AllocError> for Stop {
    ghost use Rattle.std.specs.Prelude.{◌≡◌};
    ghost use Rattle.library_batches.specs.declared.stop.Stop.TheVariants.{Memory as StopMemory};

    ghost from_gives = { λ _ stop. stop ≡ StopMemory };

    fn from(_refused: AllocError) -> Stop {
        Stop::Memory
    }
}
