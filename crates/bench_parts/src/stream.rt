//! A stream that is cut into frames.
ghost use Rattle.std.specs.Prelude.{◌≡◌};
ghost use Rattle.iso2709_frame.specs.Frames.{IsWhole};

use iso2709_frame::cut::Cut;
use iso2709_frame::cutter::Cutter;
use std::alloc::{AllocError, Global};
use std::io;
use std::io::Read;

/// How many bytes are read at once.
const PIECE: usize = 65_536;

/// What is made of the frames of a stream.
pub trait Measure {
    /// Takes in the next frame, by how it was cut. One that was not cut whole comes without its bytes.
    fn take(&mut self, alloc: Global, cut: Cut, frame: &[u8])
        requires { cut ≡ Cut.Whole → IsWhole frame.now };
}

/// Takes in the frames that end in the piece.
fn take_piece<M: Measure>(alloc: Global, cutter: &mut Cutter, piece: &[u8], measure: &mut M) {
    let mut rest = piece;
    while !rest.is_empty() {
        let (taken, cut) = cutter.feed(rest);
        if let Some(cut) = cut {
            measure.take(alloc, cut, cutter.frame());
        }
        let (_, behind) = rest.split_at(taken);
        rest = behind;
    }
}

/// Takes in the frames of the whole stream.
pub fn take_all<S: Read, M: Measure>(
    alloc: Global,
    stream: &mut S,
    measure: &mut M,
) -> io::Result<()> {
    let mut buffer = vec![in alloc; 0u8; PIECE]?;
    let Ok(mut cutter) = Cutter::open(alloc) else {
        return Err(io::Error::from(AllocError));
    };
    for _ in 0..u64::MAX {
        let size = stream.read(&mut buffer)?;
        if size == 0 {
            break;
        }
        take_piece(alloc, &mut cutter, &buffer[..size], measure);
    }
    if let Some(cut) = cutter.finish() {
        measure.take(alloc, cut, &[]);
    }
    Ok(())
}
