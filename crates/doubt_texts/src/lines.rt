//! The line of an edition, or its row.
ghost use Rattle.std.specs.Prelude.{◌≡◌, ◌++◌, OnOk, length, decimal};
ghost use Rattle.std.specs.Option.{option_copied};
ghost use Rattle.why_texts.specs.Ids.{count_text};
ghost use Rattle.doubt_texts.specs.Lines.{merge_text, told_merge, line_text, least_text, id_cell, names_cell, merge_cell, row_text};

use crate::cells::add_cell;
use crate::names::add_names;
use catalogue_editions::edition::Edition;
use edition_derivations::step::Step;
use edition_doubts::doubts::Doubt;
use std::alloc::{AllocError, Global};
use why_texts::ids::{add_id, add_ids};
use why_texts::numbers::{add_count, add_number};
use why_texts::reasons::add_reasons;

/// Adds the records of both sides of a step, and by what they match.
fn add_merge(text: &mut Vec<u8>, step: &Step) -> Result<(), AllocError>
    ensures { OnOk result (text.new.items ≡ text.old.items ++ merge_text step.now) }
{
    add_ids(text, step.left.contributors().as_slice())?;
    text.extend_from_slice(b" = ")?;
    add_ids(text, step.right.contributors().as_slice())?;
    add_reasons(text, step.left.features(), step.right.features())?;
    Ok(())
}

/// Adds the same of a step, where there is one.
fn add_told_merge(text: &mut Vec<u8>, step: Option<&Step>) -> Result<(), AllocError>
    ensures { OnOk result (text.new.items
        ≡ text.old.items ++ told_merge (option_copied step.entry)) }
{
    match step {
        Some(step) => add_merge(text, step),
        None => Ok(()),
    }
}

/// Adds the edition's id.
#[tactic(auto, unfolding(crate::specs::Lines::least_text))]
fn add_least(text: &mut Vec<u8>, edition: &Edition) -> Result<(), AllocError>
    ensures { OnOk result (text.new.items ≡ text.old.items ++ least_text edition.now) }
{
    add_id(text, edition.least())
}

/// Adds how many records the edition has, in words.
fn add_size(text: &mut Vec<u8>, edition: &Edition) -> Result<(), AllocError>
    ensures { OnOk result (text.new.items ≡ text.old.items
        ++ count_text (length edition.now.content.contributors)) }
{
    add_count(text, edition.contributors().as_slice().len())
}

/// Adds how many records the edition has, as a number.
fn add_size_number(text: &mut Vec<u8>, edition: &Edition) -> Result<(), AllocError>
    ensures { OnOk result (text.new.items ≡ text.old.items
        ++ decimal (length edition.now.content.contributors)) }
{
    add_number(text, edition.contributors().as_slice().len() as u64)
}

/// Adds the line of an edition: its id, how many records it has, the reasons, and the step.
pub(crate) fn add_line(
    text: &mut Vec<u8>,
    edition: &Edition,
    doubts: &[Doubt],
    step: Option<&Step>,
) -> Result<(), AllocError>
    ensures { OnOk result (text.new.items ≡ text.old.items
        ++ line_text edition.now doubts.now (option_copied step.entry)) }
{
    add_least(text, edition)?;
    text.extend_from_slice(b"  ")?;
    add_size(text, edition)?;
    text.extend_from_slice(b"  ")?;
    add_names(text, doubts)?;
    text.extend_from_slice(b"  ")?;
    add_told_merge(text, step)?;
    text.extend_from_slice(b"\n")?;
    Ok(())
}

/// Adds the id as a cell.
#[tactic(auto, unfolding(crate::specs::Lines::id_cell))]
fn add_id_cell(alloc: Global, text: &mut Vec<u8>, edition: &Edition) -> Result<(), AllocError>
    ensures { OnOk result (text.new.items ≡ text.old.items ++ id_cell edition.now) }
{
    let mut id = Vec::new(alloc);
    add_least(&mut id, edition)?;
    add_cell(text, id.as_slice())
}

/// Adds the names of the reasons as a cell.
#[tactic(auto, unfolding(crate::specs::Lines::names_cell))]
fn add_names_cell(alloc: Global, text: &mut Vec<u8>, doubts: &[Doubt]) -> Result<(), AllocError>
    ensures { OnOk result (text.new.items ≡ text.old.items ++ names_cell doubts.now) }
{
    let mut names = Vec::new(alloc);
    add_names(&mut names, doubts)?;
    add_cell(text, names.as_slice())
}

/// Adds the step as a cell.
#[tactic(auto, unfolding(crate::specs::Lines::merge_cell))]
fn add_merge_cell(alloc: Global, text: &mut Vec<u8>, step: Option<&Step>) -> Result<(), AllocError>
    ensures { OnOk result (text.new.items
        ≡ text.old.items ++ merge_cell (option_copied step.entry)) }
{
    let mut merge = Vec::new(alloc);
    add_told_merge(&mut merge, step)?;
    add_cell(text, merge.as_slice())
}

/// Adds the row of an edition, with the same in its cells.
pub(crate) fn add_row(
    alloc: Global,
    text: &mut Vec<u8>,
    edition: &Edition,
    doubts: &[Doubt],
    step: Option<&Step>,
) -> Result<(), AllocError>
    ensures { OnOk result (text.new.items ≡ text.old.items
        ++ row_text edition.now doubts.now (option_copied step.entry)) }
{
    add_id_cell(alloc, text, edition)?;
    text.extend_from_slice(b",")?;
    add_size_number(text, edition)?;
    text.extend_from_slice(b",")?;
    add_names_cell(alloc, text, doubts)?;
    text.extend_from_slice(b",")?;
    add_merge_cell(alloc, text, step)?;
    text.extend_from_slice(b"\r\n")?;
    Ok(())
}
