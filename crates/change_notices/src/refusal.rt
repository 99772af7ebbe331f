//! Why a follower refuses a delta.
use union_base::memory::Memory;

/// Why a follower refuses a delta. A place is counted from 0.
#[derive(Clone, Copy, Debug, PartialEq, Eq)]
pub enum FollowRefusal {
    /// The closed edition at this place is not held, or is named earlier among the closed ones.
    Missing { at: u64 },
    /// The opened edition at this place shares a contributor with a held edition that is not closed, or with an opened one before
    /// it.
    Double { at: u64 },
    /// Allocation failed.
    Memory,
}

impl From<Memory> for FollowRefusal {
    ghost use Rattle.std.specs.Prelude.{◌≡◌};
    ghost use Rattle.change_notices.specs.declared.refusal.FollowRefusal.TheVariants as refusals;

    ghost from_gives = { λ _ refusal. refusal ≡ refusals.Memory };

    fn from(_memory: Memory) -> FollowRefusal {
        FollowRefusal::Memory
    }
}
