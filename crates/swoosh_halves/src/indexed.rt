//! The resolution of a list by halves, each by an index.
//!
//! Guarantee: the answer is a resolution of the list. Cost: the list is halved down to a few values, which are tested against one
//! another; then, each time that two halves come together, each block of the one is tested only against those blocks of the other
//! that are posted under a key that it seeks. The blocks of one half are known not to match, and are not tested again; a merge of two
//! blocks may match any block, and is tested against those of both halves that are posted under a key that it seeks. So the time for
//! many values that share a key does not grow with their square, and a large block is merged from blocks of like size, whose keys are
//! made at each halving and not at each value. Values are moved and never copied.
ghost use Rattle.std.specs.Prelude.{◌≡◌, ◌<◌, ◌++◌, IfOk};
ghost use Rattle.merge_laws.specs.Resolution.{AreApart, IsResolution};

use crate::both::resolve_both;
use key_hashing::hashing::Hashing;
use merge_laws::laws::{resolution_goes_on, resolution_is_apart};
use merge_laws::resolvable::Resolvable;
use merge_laws::steps::Steps;
use merge_laws::swoosh::resolve;
use std::marker::Brand;
use std::sync::ledger::{Blank, Ledger};
use union_base::memory::Memory;

/// How many values are few enough to be tested against one another.
const FEW: usize = 64;

/// The resolution of the list, in an order that is not fixed: of each half by itself, and then of the blocks of both together.
/// Returns `Memory` if allocation fails.
pub(crate) fn resolve_by_halves<R: Resolvable>(
    hashing: Hashing,
    list: Vec<R>,
) -> Result<Vec<R>, Memory>
    ensures { IfOk result (λ done. IsResolution R.meets R.join list.items done.items) }
{
    if list.len() <= FEW {
        return resolve(list);
    }
    resolution_is_apart::<R>();
    resolution_goes_on::<R>();
    let mut front = list;
    let back = front.split_off(front.len() / 2)?;
    let one = resolve_by_halves(hashing, front)?;
    let other = resolve_by_halves(hashing, back)?;
    resolve_together(hashing, one, other)
}

/// The resolution of two lists, of each of which no two values match, in an order that is not fixed. Returns `Memory` if
/// allocation fails.
pub(crate) fn resolve_together<R: Resolvable>(
    hashing: Hashing,
    one: Vec<R>,
    other: Vec<R>,
) -> Result<Vec<R>, Memory>
    requires one { AreApart R.meets one.items }
    requires other { AreApart R.meets other.items }
    ensures { IfOk result (λ all. IsResolution R.meets R.join
        (one.items ++ other.items) all.items) }
{
    resolve_by::<R, Brand>(hashing, one, other, Blank::new(1))
}

/// The same, with its match tests counted from none.
fn resolve_by<R: Resolvable, L: Ledger>(
    hashing: Hashing,
    one: Vec<R>,
    other: Vec<R>,
    blank: Blank,
) -> Result<Vec<R>, Memory>
    requires name { blank.name ≡ L.name }
    requires parts { blank.parts ≡ L.parts }
    requires some { 0 < L.parts }
    requires one { AreApart R.meets one.items }
    requires other { AreApart R.meets other.items }
    ensures { IfOk result (λ all. IsResolution R.meets R.join
        (one.items ++ other.items) all.items) }
{
    let mut steps: Steps<L> = Steps::open(blank);
    resolve_both(hashing, one, other, &mut steps)
}
