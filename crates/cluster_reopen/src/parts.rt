//! The parts of a block that lost a member.
//!
//! Guarantee: the parts are a resolution of what is left. Cost: at most k * k match tests and fewer than k merges for k
//! values; values are moved and never copied.
ghost use Rattle.std.specs.Prelude.{◌+◌, ◌*◌, ◌≤◌, length, IfOk};
ghost use Rattle.merge_laws.specs.Resolution.{IsResolution};

use merge_laws::resolvable::Resolvable;
use merge_laws::steps::Steps;
use merge_laws::swoosh::resolve_plain;
use std::sync::ledger::Ledger;
use union_base::memory::Memory;

/// The resolution of the members that a block keeps after a withdrawal, in an order that is not fixed. They are resolved
/// as any list is, by `resolve_plain`; what holds of them beyond that, the module `laws` says. Counts at most k * k steps for
/// k values, also where it answers Memory. Returns `Memory` if allocation fails.
pub fn reopen<R: Resolvable, L: Ledger>(
    left: Vec<R>,
    steps: &mut Steps<L>,
) -> Result<Vec<R>, Memory>
    ensures resolved { IfOk result (λ parts. IsResolution R.meets R.join left.items parts.items) }
    ensures cost { steps.new ≤ steps.old + length left.items * length left.items }
{
    resolve_plain(left, steps)
}
