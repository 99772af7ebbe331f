//! The applying of one turn to a catalogue.
ghost use Rattle.std.specs.Prelude.{◌≡◌, ◌<◌, ◌++◌, ◌∷◌, [], OnOk, OnErr};

use catalogue_core::catalogue::Catalogue;
use catalogue_editions::batch::Batch;
use merge_laws::steps::Steps;
use std::alloc::Global;
use std::marker::Brand;
use std::sync::ledger::{Blank, Ledger};
use union_base::memory::Memory;

/// Applies the batch under that number, with the match tests counted in a ledger of their own.
fn apply_by<L: Ledger>(
    alloc: Global,
    catalogue: &mut Catalogue,
    pass: u32,
    batch: Batch,
    blank: Blank,
) -> Result<(), Memory>
    requires name { blank.name ≡ L.name }
    requires parts { blank.parts ≡ L.parts }
    requires some { 0 < L.parts }
    ensures appended { OnOk result (catalogue.new.history ≡ catalogue.old.history
        ++ record { pass = pass; batch = batch } ∷ []) }
    ensures names { catalogue.new.names ≡ catalogue.old.names }
    ensures kept { OnErr result (catalogue.new ≡ catalogue.old) }
{
    let mut steps: Steps<L> = Steps::open(blank);
    match catalogue.apply(alloc, pass, batch, &mut steps) {
        Ok(_) => Ok(()),
        Err(Memory) => Err(Memory),
    }
}

/// Applies the batch under that number. Returns `Memory` if allocation fails; the catalogue is as before then.
pub fn apply_batch(
    alloc: Global,
    catalogue: &mut Catalogue,
    pass: u32,
    batch: Batch,
) -> Result<(), Memory>
    ensures appended { OnOk result (catalogue.new.history ≡ catalogue.old.history
        ++ record { pass = pass; batch = batch } ∷ []) }
    ensures names { catalogue.new.names ≡ catalogue.old.names }
    ensures kept { OnErr result (catalogue.new ≡ catalogue.old) }
{
    apply_by::<Brand>(alloc, catalogue, pass, batch, Blank::new(1))
}
