//! Why a record gives no names.
ghost use Rattle.std.specs.Prelude.{◌≡◌};

use std::alloc::{AllocError, AllocFailed};
use union_base::memory::Memory;

/// Why a record is not taken into a table of names.
#[derive(Clone, Copy, Debug, PartialEq, Eq)]
pub enum NameRefusal {
    /// It is no authority record: leader/06 is not `z`.
    Kind,
    /// Leader/09 is neither blank nor `a`, or it is blank and a text has a byte above 0x7F or the escape 0x1B.
    Coding,
    /// A text is not UTF-8.
    NotUtf8,
    /// There is not exactly one field of 100, 110 and 111, or its heading is empty.
    Heading,
    /// Memory ran out.
    Memory,
}

impl From<Memory> for NameRefusal {
    ghost use Rattle.authority_names.specs.declared.refusal.NameRefusal.TheVariants.{Memory as MemoryRefusal};

    ghost from_gives = { λ _ refusal. refusal ≡ MemoryRefusal };

    fn from(_memory: Memory) -> NameRefusal {
        NameRefusal::Memory
    }
}

impl From<AllocError> for NameRefusal {
    ghost use Rattle.authority_names.specs.declared.refusal.NameRefusal.TheVariants.{Memory as MemoryRefusal};

    ghost from_gives = { λ _ refusal. refusal ≡ MemoryRefusal };

    fn from(_refused: AllocError) -> NameRefusal {
        NameRefusal::Memory
    }
}

impl<T: Drop> From<AllocFailed<T>> for NameRefusal {
    ghost use Rattle.authority_names.specs.declared.refusal.NameRefusal.TheVariants.{Memory as MemoryRefusal};

    ghost from_gives = { λ _ refusal. refusal ≡ MemoryRefusal };

    fn from(_refused: AllocFailed<T>) -> NameRefusal {
        NameRefusal::Memory
    }
}
