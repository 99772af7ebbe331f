//! The cuts of a stream that is held in pieces.
ghost use Rattle.std.specs.Prelude.{◌≡◌, ℕ, List, ◌++◌, IfOk, OnOk};
ghost use Rattle.std.specs.List.{concat};
ghost use Rattle.iso2709_frame.specs.Frames.{frames};

use crate::cut::Cut;
use crate::cutter::Cutter;
use std::alloc::Global;
use union_base::bytes::Bytes;
use union_base::memory::Memory;

/// Adds the cuts that end in the piece, each with its frame where it is whole.
fn add_cuts(
    alloc: Global,
    cutter: &mut Cutter,
    piece: &[u8],
    cuts: &mut Vec<(Cut, Bytes)>,
) -> Result<(), Memory>
    ensures { OnOk result ((more : List ℕ) → cuts.old.items
        ++ frames (cutter.old.pending ++ (piece.now ++ more))
        ≡ cuts.new.items ++ frames (cutter.new.pending ++ more)) }
{
    let mut rest = piece;
    while !rest.is_empty() {
        let (taken, cut) = cutter.feed(rest);
        if let Some(cut) = cut {
            cuts.push((cut, Bytes::of(alloc, cutter.frame())?))?;
        }
        let (_, behind) = rest.split_at(taken);
        rest = behind;
    }
    Ok(())
}

/// The cuts of a stream that is held in pieces, each with its frame where it is whole: whatever the pieces are, those of
/// the stream. Takes the room of a frame once, and each frame's own.
pub fn cut_all(alloc: Global, pieces: &[Bytes]) -> Result<Vec<(Cut, Bytes)>, Memory>
    ensures { IfOk result (λ cuts. cuts.items ≡ frames (concat pieces.now)) }
{
    let mut cutter = Cutter::open(alloc)?;
    let mut cuts = Vec::new(alloc);
    for piece in pieces {
        add_cuts(alloc, &mut cutter, piece.bytes(), &mut cuts)?;
    }
    if let Some(cut) = cutter.finish() {
        cuts.push((cut, Bytes::of(alloc, &[])?))?;
    }
    Ok(cuts)
}
