//! The notices of histories of which another program made them.
ghost use Rattle.std.specs.Prelude.{◌≡◌, ◌<◌};

use crate::worked::{library_of, op_in, text_of, whole_batch};
use catalogue_core::batch::Batch;
use catalogue_core::catalogue::Catalogue;
use change_notices::notice::notice;
use key_hashing::hashing::Hashing;
use merge_laws::steps::Steps;
use std::alloc::Global;
use std::marker::Brand;
use std::sync::ledger::{Blank, Ledger};
use std::test::Fail;

mod cases;

/// The batch of a library whose operations these frames ask for.
fn batch_in(alloc: Global, library: &str, frames: &str) -> Result<Batch, Fail> {
    let code = library_of(library)?;
    let mut ops = Vec::new(alloc);
    for frame in frames.split('¶') {
        ops.push(op_in(alloc, &code, frame.as_bytes())?)?;
    }
    whole_batch(code, ops)
}

/// Whether the turn is told as expected.
fn tells_turn<L: Ledger>(
    alloc: Global,
    turn: &str,
    catalogue: &mut Catalogue,
    steps: &mut Steps<L>,
) -> Result<bool, Fail> {
    let (library, rest) = turn.split_once('§').ok_or("a library")?;
    let (frames, lines) = rest.split_once('§').ok_or("frames")?;
    let batch = batch_in(alloc, library, frames)?;
    let (_, delta) = catalogue.apply_told(alloc, 0, batch, steps)?;
    let told = text_of(alloc, notice(alloc, &delta)?.as_slice())?;
    Ok(told.as_slice() == lines.as_bytes())
}

/// The turns of a history, with what is told of each.
#[derive(Drop)]
struct History<'a> {
    turns: &'a str,
}

/// Whether each turn of the history is told as expected.
fn tells<L: Ledger>(alloc: Global, history: &History<'_>, blank: Blank) -> Result<bool, Fail>
    requires name { blank.name ≡ L.name }
    requires parts { blank.parts ≡ L.parts }
    requires some { 0 < L.parts }
{
    let mut steps: Steps<L> = Steps::open(blank);
    let mut catalogue = Catalogue::empty(alloc, Hashing::fixed())?;
    for turn in history.turns.split('¦') {
        if !turn.is_empty() && !tells_turn(alloc, turn, &mut catalogue, &mut steps)? {
            return Ok(false);
        }
    }
    Ok(true)
}

/// Whether each turn of the history is told as expected, in a catalogue of its own.
fn is_told(alloc: Global, history: &History<'_>) -> Result<bool, Fail> {
    tells::<Brand>(alloc, history, Blank::new(1))
}

#[test]
fn notices_of_histories(rt: HostRuntime) -> Result<(), Fail> {
    let mut found: u32 = 0;
    for case in cases::NOTICES.split('‡') {
        if !case.is_empty() {
            let (about, turns) = case.split_once('¦').ok_or("turns")?;
            assert!(rt; is_told(rt.alloc(), &History { turns })?, "{about}");
            found = found.saturating_add(1);
        }
    }
    assert_eq!(rt; found, 38);
    Ok(())
}
