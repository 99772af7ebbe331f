//! The works that a catalogue keeps, as a change of its blocks regroups them.
//!
//! [`make_room_in_kept`] takes all memory; [`regroup`] takes none and cannot fail.
ghost use Rattle.std.specs.Prelude.{◌≡◌, IfOk};
ghost use Rattle.swoosh_resolver.specs.Tables.{values_of};
ghost use Rattle.std.specs.Option.{option_map};
ghost use Rattle.work_clusters.specs.Room.{HasRoomForPairs};
ghost use Rattle.work_clusters.specs.Works.{changed};
ghost use Rattle.record_editions.specs.EditionKeys.{work_pairs};
ghost use Rattle.edition_blocks.specs.ClosedKeys.{closed_pairs};
ghost use Rattle.edition_blocks.specs.Grouping.{HasRoomFor, list_in, regrouped};

use crate::grouping::work_pair;
use authority_names::name_table::NameTable;
use catalogue_editions::edition::Edition;
use std::alloc::Global;
use swoosh_resolver::blocks::Blocks;
use swoosh_resolver::change::Change;
use swoosh_resolver::keyed::Fresh;
use union_base::bytes::Bytes;
use union_base::memory::Memory;
use union_base::record_id::RecordId;
use work_clusters::change::WorkChange;
use work_clusters::works::Works;

/// The work keys of the blocks under the numbers, each with its edition's least contributor. Returns `Memory` if allocation fails.
fn closed_pairs(
    alloc: Global,
    names: &NameTable,
    blocks: &Blocks<Edition>,
    closed: &[u64],
) -> Result<Vec<(Bytes, RecordId)>, Memory>
    ensures { IfOk result (λ pairs. pairs.items
        ≡ closed_pairs names.now blocks.now.blocks closed.now) }
{
    let mut pairs = Vec::with_capacity(alloc, closed.len())?;
    for number in closed {
        if let Some(edition) = blocks.block(*number) {
            pairs.push(work_pair(alloc, names, edition)?)?;
        }
    }
    Ok(pairs)
}

/// The work keys of the opened blocks, each with its edition's least contributor. Returns `Memory` if allocation fails.
fn opened_pairs(
    alloc: Global,
    names: &NameTable,
    opened: &[Fresh<Edition>],
) -> Result<Vec<(Bytes, RecordId)>, Memory>
    ensures { IfOk result (λ pairs. pairs.items ≡ work_pairs names.now (values_of opened.now)) }
{
    let mut pairs = Vec::with_capacity(alloc, opened.len())?;
    for placed in opened {
        pairs.push(work_pair(alloc, names, &placed.value)?)?;
    }
    Ok(pairs)
}

/// The change of the works that goes with one of the blocks, with room for it. Returns `Memory` if allocation
/// fails; the works stay.
fn make_room_in(
    alloc: Global,
    names: &NameTable,
    blocks: &Blocks<Edition>,
    works: &mut Works,
    change: &Change<Edition>,
) -> Result<WorkChange, Memory>
    ensures same { works.new.works ≡ works.old.works }
    ensures gone { IfOk result (λ c. c.gone ≡ closed_pairs names.now blocks.now.blocks
        change.now.closed.items) }
    ensures come { IfOk result (λ c. c.come ≡ work_pairs names.now
        (values_of change.now.opened.items)) }
    ensures room { IfOk result (λ c. HasRoomForPairs works.new.room c.come) }
{
    let gone = closed_pairs(alloc, names, blocks, change.closed.as_slice())?;
    let come = opened_pairs(alloc, names, change.opened.as_slice())?;
    let regrouped = works.plan(gone, come);
    works.make_room(alloc, &regrouped)?;
    Ok(regrouped)
}

/// The change of the works that goes with one of the blocks, with room for it, where works are kept, and nothing where they are not.
/// Returns `Memory` if allocation fails; the works stay.
pub fn make_room_in_kept(
    alloc: Global,
    blocks: &Blocks<Edition>,
    names: &NameTable,
    works: &mut Option<Works>,
    change: &Change<Edition>,
) -> Result<Option<WorkChange>, Memory>
    ensures same { list_in works.new ≡ list_in works.old }
    ensures room { IfOk result (λ c. HasRoomFor works.new c) }
    ensures change { IfOk result (λ c. regrouped (list_in works.old) c
        ≡ option_map (λ ws. changed ws (closed_pairs names.now blocks.now.blocks
        change.now.closed.items)
        (work_pairs names.now (values_of change.now.opened.items))) (list_in works.old)) }
{
    match works {
        Some(works) => {
            let regrouped = make_room_in(alloc, names, blocks, works, change)?;
            Ok(Some(regrouped))
        }
        None => Ok(None),
    }
}

/// Makes the works that are kept those after the change. Takes no memory.
pub fn regroup(works: &mut Option<Works>, change: Option<WorkChange>)
    requires { HasRoomFor works.old change }
    ensures { list_in works.new ≡ regrouped (list_in works.old) change }
{
    if let (Some(works), Some(change)) = (works, change) {
        works.install(change);
    }
}
