//! What a batch alone leaves of its loads.
//!
//! Most batches load records in ascending order of their ids, and then what is left is what they load.
ghost use Rattle.std.specs.Prelude.{◌≡◌, [], IfOk, OnOk, IfSome, option_copied};
ghost use Rattle.std.specs.Map.{values_of};
ghost use Rattle.catalogue_editions.specs.CurrentRecords.{after_batch, after_op};
ghost use Rattle.catalogue_editions.specs.Net.{net, is_behind};

use crate::batch::Batch;
use crate::edition::Edition;
use crate::op::Op;
use merge_laws::join::Join;
use std::alloc::Global;
use std::collections::BTreeMap;
use union_base::copied::Copied;
use union_base::library_code::LibraryCode;
use union_base::memory::Memory;
use union_base::record_id::RecordId;

/// For each control number whose last operation in the batch is a load, a copy of the edition of that load, in order of the
/// ids.
///
/// Returns `Memory` if allocation fails.
pub fn net(alloc: Global, batch: &Batch) -> Result<Vec<Edition>, Memory>
    ensures { IfOk result (λ editions. editions.items ≡ net batch.now) }
{
    match ascending_loads(alloc, batch)? {
        Some(editions) => Ok(editions),
        None => editions_in(alloc, left_by(alloc, batch)?),
    }
}

/// Copies of the editions that the batch loads, if it does nothing but load records in ascending order of their ids.
fn ascending_loads(alloc: Global, batch: &Batch) -> Result<Option<Vec<Edition>>, Memory>
    ensures { IfOk result (λ loads. IfSome loads (λ editions. editions.items ≡ net batch.now)) }
{
    let ops = batch.ops.as_slice();
    let mut editions = Vec::with_capacity(alloc, ops.len())?;
    let mut last = None;
    for op in ops {
        match op {
            Op::Load(edition) if is_behind(last, edition) => {
                editions.push(Join::copied(edition, alloc)?)?;
                last = Some(edition);
            }
            _ => return Ok(None),
        }
    }
    Ok(Some(editions))
}

/// Whether the least contributor of the edition is greater than that of the last one, if there is a last one.
fn is_behind(last: Option<&Edition>, edition: &Edition) -> bool
    ensures { result ≡ is_behind (option_copied last.entry) edition.now }
{
    match last {
        Some(last) => edition.least().cmp(last.least()).is_gt(),
        None => true,
    }
}

/// The editions under the ids, in order of these. Returns `Memory` if allocation fails.
fn editions_in(alloc: Global, left: BTreeMap<RecordId, Edition>) -> Result<Vec<Edition>, Memory>
    ensures { IfOk result (λ editions. editions.items ≡ values_of left.entries) }
{
    let mut editions = Vec::with_capacity(alloc, left.len())?;
    for edition in left.into_values() {
        editions.push(edition)?;
    }
    Ok(editions)
}

/// The same under the ids. Returns `Memory` if allocation fails.
fn left_by(alloc: Global, batch: &Batch) -> Result<BTreeMap<RecordId, Edition>, Memory>
    ensures { IfOk result (λ left. left.entries ≡ after_batch [] batch.now) }
{
    let mut left = BTreeMap::new(alloc);
    for op in batch.ops.as_slice() {
        follow(alloc, &mut left, &batch.library, op)?;
    }
    Ok(left)
}

/// Lets the editions under their ids follow an operation of the library. Returns `Memory` if allocation fails.
fn follow(
    alloc: Global,
    editions: &mut BTreeMap<RecordId, Edition>,
    library: &LibraryCode,
    op: &Op,
) -> Result<(), Memory>
    ensures { OnOk result (editions.new.entries
        ≡ after_op library.now editions.old.entries op.now) }
{
    match op {
        Op::Load(edition) => {
            let id = edition.least().copied(alloc)?;
            editions.insert(id, Join::copied(edition, alloc)?)?;
        }
        Op::Withdraw(control) => {
            let id = RecordId {
                library: *library,
                control: control.copied(alloc)?,
            };
            editions.remove(&id);
        }
    }
    Ok(())
}
