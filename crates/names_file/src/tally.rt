//! The count of a file's frames, so far.
ghost use Rattle.std.specs.Prelude.{◌≤◌};

/// How many frames there are, how many of them are refused, and the lines that tell of these.
#[derive(Drop)]
pub(crate) struct Tally {
    pub(crate) frames: u64,
    pub(crate) refused: u64,
    pub(crate) lines: Vec<u8>,
    pub(crate) ghost few: { refused ≤ frames },
}
