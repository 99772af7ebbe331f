//! The line of a group of records.
ghost use Rattle.std.specs.Prelude.{◌≡◌, ◌++◌, ◌∷◌, [], decimal, length, IfOk, OnOk};
ghost use Rattle.std.specs.List.{flat_map};
ghost use Rattle.std.specs.Option.{option_to_list};
ghost use Rattle.catalogue_editions.specs.Resolutions.{IsOrderedResolution};
ghost use Rattle.union_keys.specs.Lines.{place_cells, editions_in, line_of, AddsLine};

use crate::key_text::add_all_keys;
use crate::standing::Standing;
use catalogue_editions::edition::Edition;
use catalogue_editions::laws::sorted_resolution_is_ordered;
use catalogue_editions::ordering::sorted_by_least;
use itoa::Buffer;
use merge_laws::swoosh::resolve;
use std::alloc::{AllocError, Global};
use union_base::memory::Memory;

/// Adds a number.
fn add_number(text: &mut Vec<u8>, number: u64) -> Result<(), AllocError>
    ensures { OnOk result (text.new.items ≡ text.old.items ++ decimal number) }
{
    let mut digits = Buffer::new();
    text.extend_from_slice(digits.format(number).as_bytes())
}

/// Adds the columns that say where a record stands.
fn add_place(text: &mut Vec<u8>, standing: &Standing) -> Result<(), AllocError>
    ensures { OnOk result (text.new.items ≡ text.old.items ++ place_cells standing.now) }
{
    text.push(b'\t')?;
    text.extend_from_slice(standing.id.library.bytes())?;
    text.push(b'.')?;
    text.extend_from_slice(standing.id.control.bytes())?;
    text.push(b'\t')?;
    add_number(text, standing.first)?;
    text.push(b'\t')?;
    add_number(text, standing.size)?;
    Ok(())
}

/// Adds where each record stands.
fn add_places(text: &mut Vec<u8>, members: &[Standing]) -> Result<(), AllocError>
    ensures { OnOk result (text.new.items ≡ text.old.items ++ flat_map place_cells members.now) }
{
    for member in members {
        add_place(text, member)?;
    }
    Ok(())
}

/// Adds what a record loads. Returns `Memory` if allocation fails.
fn push_edition(editions: &mut Vec<Edition>, member: &Standing) -> Result<(), Memory>
    ensures { OnOk result (editions.new.items
        ≡ editions.old.items ++ option_to_list member.now.edition) }
{
    if let Some(edition) = &member.edition {
        editions.push(edition.shared()?)?;
    }
    Ok(())
}

/// What the records load. Returns `Memory` if allocation fails.
fn editions_in(alloc: Global, members: &[Standing]) -> Result<Vec<Edition>, Memory>
    ensures { IfOk result (λ editions. editions.items ≡ editions_in members.now) }
{
    let mut editions = Vec::new(alloc);
    for member in members {
        push_edition(&mut editions, member)?;
    }
    Ok(editions)
}

/// What the records resolve to. Returns `Memory` if allocation fails.
pub(crate) fn resolved(alloc: Global, members: &[Standing]) -> Result<Vec<Edition>, Memory>
    ensures { IfOk result (λ editions. IsOrderedResolution (editions_in members.now)
        editions.items) }
{
    sorted_resolution_is_ordered();
    let loaded = editions_in(alloc, members)?;
    let found = resolve(loaded)?;
    let editions = sorted_by_least(found)?;
    Ok(editions)
}

/// Adds the line of records that resolve to these editions. Returns `Memory` if allocation fails.
fn add_columns(
    alloc: Global,
    text: &mut Vec<u8>,
    members: &[Standing],
    editions: &[Edition],
) -> Result<(), Memory>
    ensures { OnOk result (text.new.items ≡ text.old.items ++ line_of members.now editions.now) }
{
    add_number(text, members.len() as u64)?;
    text.push(b'\t')?;
    add_number(text, editions.len() as u64)?;
    add_places(text, members)?;
    add_all_keys(alloc, text, editions)?;
    text.push(b'\n')?;
    Ok(())
}

/// Adds the line of these records, and answers how many editions they resolve to. Tests each pair of editions at most.
///
/// Returns `Memory` if allocation fails.
pub(crate) fn add_line(
    alloc: Global,
    text: &mut Vec<u8>,
    members: &[Standing],
) -> Result<usize, Memory>
    ensures { IfOk result (λ count. AddsLine members.now text.old.items text.new.items count) }
{
    let editions = resolved(alloc, members)?;
    add_columns(alloc, text, members, editions.as_slice())?;
    Ok(editions.len())
}
