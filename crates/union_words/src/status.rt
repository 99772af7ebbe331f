//! How a run ended.
ghost use Rattle.std.specs.Prelude.{◌≡◌, ◌++◌};
ghost use Rattle.union_words.specs.Statuses.{exit_number};
ghost use Rattle.union_words.specs.Texts.{early_text};

use crate::input::Input;

/// How a run of the program ended.
#[derive(Clone, Copy, Debug, PartialEq, Eq)]
pub enum Status {
    /// All was done.
    Done,
    /// All was done, and something in the input was refused.
    DoneWithRefusals,
    /// The words are in no form that the program has.
    Usage,
    /// This input could not be opened.
    OpenFault(Input),
    /// A read of this input failed.
    ReadFault(Input),
    /// A write of an output failed.
    WriteFault,
    /// This input has more bytes than the program reads.
    TooLong(Input),
    /// Memory ran out.
    Memory,
}

impl Status {
    /// The number with which the process ends.
    pub fn exit_number(self) -> u8
        ensures { result ≡ exit_number self }
    {
        match self {
            Status::Done => 0,
            Status::DoneWithRefusals => 1,
            Status::Usage => 2,
            Status::OpenFault(_) => 3,
            Status::ReadFault(_) => 4,
            Status::WriteFault => 5,
            Status::TooLong(_) => 6,
            Status::Memory => 7,
        }
    }

    /// The one line that tells how the run ended, in three parts: what stands before an input's name, the name, and
    /// what stands after it. All three are empty for a run that was done or could not write. Takes no memory.
    pub fn early_parts(&self) -> (&[u8], &[u8], &[u8])
        ensures { result.0.now ++ (result.1.now ++ result.2.now) ≡ early_text self.now }
    {
        match self {
            Status::Done | Status::DoneWithRefusals | Status::WriteFault => (&[], &[], &[]),
            Status::Usage => (b"union: bad command line", &[], b"\n"),
            Status::OpenFault(input) => (b"union: cannot open ", input.name(), b"\n"),
            Status::ReadFault(input) => (b"union: read failed in ", input.name(), b"\n"),
            Status::TooLong(input) => (b"union: ", input.name(), b" is too long\n"),
            Status::Memory => (b"union: out of memory", &[], b"\n"),
        }
    }
}
