//! The desk, and what its calls answer.
ghost use Rattle.std.specs.Prelude.{◌≡◌};

mod bell;
mod calls;
mod life;
mod steps;
mod turns;

use self::bell::Bell;
use crate::board::Board;
use crate::machine::Machine;

/// One machine for many threads, which share it by reference.
///
/// Its word is twice the number of finished turns, and 1 more while a pass holds the turn.
#[derive(Drop)]
pub struct Desk<M: Machine> {
    pub(crate) board: Board<M>,
    pub(crate) bell: Bell,
    pub ghost sized: { (board.shared.table_id.words ≡ 1) × (board.shared.table_id.slots ≡ 1) },
}

/// A turn that was taken.
#[derive(Debug, Drop)]
pub struct Turned<O> {
    /// The number of the turn, which is the number of its entry in the history, counted from 1.
    pub turn: u64,
    /// What the machine answered.
    pub outcome: O,
}

/// Why a turn was not taken.
#[derive(Debug, Drop)]
pub enum TryRefusal<C> {
    /// Another pass held the turn, or took it between the two steps of this call.
    Busy {
        /// The word that the load of this call read.
        loaded: u64,
        /// The same where it is odd; else the other word that the compare and exchange of this call read.
        found: u64,
        /// The change comes back.
        change: C,
    },
    /// The machine found no memory. The change is dropped.
    Memory,
}
