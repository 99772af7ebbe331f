//! The turns of a load, and what is told of them.
ghost use Rattle.std.specs.Prelude.{◌≡◌, IfOk, OnOk};
ghost use Rattle.union_script.specs.Notices.{AddsNotice, AddsText, IsNotice, TellsTurn, outcomes_over, with_turn};

use crate::union::Union;
use catalogue_core::batch::Batch;
use catalogue_core::catalogue::Catalogue;
use catalogue_core::delta::Delta;
use catalogue_core::outcome::Outcome;
use catalogue_query::line_texts::{add_lines, add_six_digits};
use change_notices::laws::resolutions_can_be_held;
use change_notices::notice::notice;
use merge_laws::steps::Steps;
use std::alloc::Global;
use std::sync::ledger::Ledger;
use union_base::memory::Memory;

/// The number under which a script applies batches.
const PASS: u32 = 0;

/// Adds the notice of the turn of that number, which has that delta: `notice T`, and then the lines on each edition that was
/// closed or opened. Returns `Memory` if allocation fails.
fn add_notice(alloc: Global, text: &mut Vec<u8>, turn: u64, delta: &Delta) -> Result<(), Memory>
    ensures { OnOk result (AddsNotice turn delta.now text.old.items text.new.items) }
{
    let lines = notice(alloc, delta)?;
    text.extend_from_slice(b"notice ")?;
    add_six_digits(text, turn)?;
    text.push(b'\n')?;
    add_lines(text, lines.as_slice())?;
    Ok(())
}

/// Applies a batch to the catalogue, adds the notice of its turn to the text, and answers what came of the operations. Returns
/// `Memory` if allocation fails.
fn apply_noticed<L: Ledger>(
    alloc: Global,
    batch: Batch,
    catalogue: &mut Catalogue,
    steps: &mut Steps<L>,
    text: &mut Vec<u8>,
) -> Result<Vec<Outcome>, Memory>
    ensures appended { OnOk result (catalogue.new.history ≡ with_turn catalogue.old.history batch) }
    ensures names { catalogue.new.names ≡ catalogue.old.names }
    ensures outcomes { IfOk result (λ found. found.items
        ≡ outcomes_over catalogue.old.history batch) }
    ensures notice { OnOk result (AddsText (IsNotice catalogue.old.history batch) text.old
        text.new) }
{
    // The counts are not used: their clauses say that there are editions before the turn, and after it, for the notice to tell of.
    // A follower can hold them.
    let _before = catalogue.edition_count();
    let (found, delta) = catalogue.apply_told(alloc, PASS, batch, steps)?;
    let _after = catalogue.edition_count();
    resolutions_can_be_held();
    add_notice(alloc, text, catalogue.turns(), &delta)?;
    Ok(found)
}

/// Applies a batch, and answers what came of its operations. Where turns are told, the notice of the turn is added to the text.
/// Returns `Memory` if allocation fails.
pub fn apply_turn<L: Ledger>(
    alloc: Global,
    batch: Batch,
    union: &mut Union<L>,
    text: &mut Vec<u8>,
) -> Result<Vec<Outcome>, Memory>
    ensures told { OnOk result (union.new.told ≡ union.old.told) }
    ensures appended { OnOk result (union.new.catalogue.history
        ≡ with_turn union.old.catalogue.history batch) }
    ensures outcomes { IfOk result (λ found. found.items
        ≡ outcomes_over union.old.catalogue.history batch) }
    ensures tells { OnOk result (AddsText
        (TellsTurn union.old.told union.old.catalogue.history batch) text.old text.new) }
{
    if union.told {
        apply_noticed(alloc, batch, &mut union.catalogue, &mut union.steps, text)
    } else {
        union.catalogue.apply(alloc, PASS, batch, &mut union.steps)
    }
}
