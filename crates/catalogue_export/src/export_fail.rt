//! Why a text of a catalogue was not written to its end.
use std::alloc::AllocError;
use union_base::memory::Memory;
use union_io::failed::Failed;

/// Why a text of a catalogue was not written to its end.
#[derive(Clone, Copy, Debug, PartialEq, Eq)]
pub enum ExportFail {
    /// A write failed.
    WriteFault,
    /// Memory ran out.
    Memory,
}

impl From<Memory> for ExportFail {
    ghost use Rattle.std.specs.Prelude.{◌≡◌};
    ghost use Rattle.catalogue_export.specs.declared.export_fail.ExportFail.TheVariants.{Memory as FailMemory};

    ghost from_gives = { λ _ fail. fail ≡ FailMemory };

    fn from(_want: Memory) -> ExportFail {
        ExportFail::Memory
    }
}

impl From<AllocError> for ExportFail {
    ghost use Rattle.std.specs.Prelude.{◌≡◌};
    ghost use Rattle.catalogue_export.specs.declared.export_fail.ExportFail.TheVariants.{Memory as FailMemory};

    ghost from_gives = { λ _ fail. fail ≡ FailMemory };

    fn from(_refused: AllocError) -> ExportFail {
        ExportFail::Memory
    }
}

impl From<Failed> for ExportFail {
    ghost use Rattle.std.specs.Prelude.{◌≡◌};
    ghost use Rattle.catalogue_export.specs.declared.export_fail.ExportFail.TheVariants.{WriteFault as FailWrite};

    ghost from_gives = { λ _ fail. fail ≡ FailWrite };

    fn from(_failed: Failed) -> ExportFail {
        ExportFail::WriteFault
    }
}
