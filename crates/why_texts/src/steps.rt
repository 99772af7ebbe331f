//! The steps of a derivation as text.
ghost use Rattle.std.specs.Prelude.{◌≡◌, ◌++◌, OnOk};
ghost use Rattle.why_texts.specs.Steps.{side_text, step_text, told_step, steps_text};

use crate::ids::add_ids;
use crate::numbers::add_number;
use crate::reasons::add_reasons;
use crate::sources::Sides;
use catalogue_editions::edition::Edition;
use edition_derivations::step::Step;
use std::alloc::{AllocError, Global};
use union_base::memory::Memory;

/// Adds the ids of the edition's records.
fn add_side(text: &mut Vec<u8>, side: &Edition) -> Result<(), AllocError>
    ensures { OnOk result (text.new.items ≡ text.old.items ++ side_text side.now) }
{
    add_ids(text, side.contributors().as_slice())
}

/// Adds the line of a step.
fn add_step(text: &mut Vec<u8>, number: u64, step: &Step) -> Result<(), AllocError>
    ensures { OnOk result (text.new.items ≡ text.old.items ++ step_text number step.now) }
{
    add_number(text, number)?;
    text.extend_from_slice(b"  ")?;
    add_side(text, &step.left)?;
    text.extend_from_slice(b" = ")?;
    add_side(text, &step.right)?;
    add_reasons(text, step.left.features(), step.right.features())?;
    text.extend_from_slice(b"\n")?;
    Ok(())
}

/// The steps that are told, and the records of their edition.
#[derive(Clone, Copy)]
pub struct Told<'a> {
    pub records: &'a [Edition],
    pub steps: &'a [Step],
}

/// Adds the line of a step, and those of the records and fields that bring what it names.
fn add_told(
    alloc: Global,
    text: &mut Vec<u8>,
    records: &[Edition],
    number: u64,
    step: &Step,
) -> Result<(), Memory>
    ensures { OnOk result (text.new.items
        ≡ text.old.items ++ told_step records.now number step.now) }
{
    add_step(text, number, step)?;
    let sides = Sides {
        records,
        left: &step.left,
        right: &step.right,
    };
    sides.add_sources(alloc, text)?;
    Ok(())
}

/// Adds the lines of each step, numbered from 1. Returns `Memory` if allocation fails.
pub fn add_steps(
    alloc: Global,
    text: &mut Vec<u8>,
    records: &[Edition],
    steps: &[Step],
) -> Result<(), Memory>
    ensures { OnOk result (text.new.items
        ≡ text.old.items ++ steps_text records.now 1 steps.now) }
{
    for (i, step) in steps.iter().enumerate() {
        add_told(alloc, text, records, i as u64 + 1, step)?;
    }
    Ok(())
}
