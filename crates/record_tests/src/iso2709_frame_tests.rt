//! The streams from outside, fed in pieces of several sizes.
ghost use Rattle.std.specs.Prelude.{◌<◌};

use crate::streams::{MOST_PIECES, STREAMS, cuts_of, stream_of};
use iso2709_frame::cut::Cut;
use iso2709_frame::cutter::Cutter;
use iso2709_frame::stream::cut_all;
use std::alloc::Global;
use std::test::Fail;
use union_base::bytes::Bytes;
use union_base::memory::Memory;

/// The stream in pieces of one size.
fn pieces_of(alloc: Global, stream: &[u8], size: usize) -> Result<Vec<Bytes>, Memory>
    requires { 0 < size }
{
    let mut pieces = Vec::new(alloc);
    for piece in stream.chunks(size) {
        pieces.push(Bytes::of(alloc, piece)?)?;
    }
    Ok(pieces)
}

/// The cuts of the stream in pieces of one size.
fn cuts_in(alloc: Global, stream: &[u8], size: usize) -> Result<Vec<(Cut, Bytes)>, Memory>
    requires { 0 < size }
{
    let pieces = pieces_of(alloc, stream, size)?;
    cut_all(alloc, pieces.as_slice())
}

#[test]
fn streams_are_cut_whatever_their_pieces(rt: HostRuntime) -> Result<(), Fail> {
    for number in 0..STREAMS {
        let stream = stream_of(rt.alloc(), number)?;
        let expected = cuts_of(rt.alloc(), number, stream.bytes())?;
        // The last size is more than any stream has.
        for size in [1, 2, 3, 7, 57, 400_000] {
            if stream.bytes().len() / size < MOST_PIECES {
                let cuts = cuts_in(rt.alloc(), stream.bytes(), size)?;
                assert!(rt;
                    cuts.as_slice() == expected.as_slice(),
                    "stream {number} in pieces of {size}"
                );
            }
        }
    }
    Ok(())
}

#[test]
fn a_frame_is_lent_until_the_next_feed(rt: HostRuntime) -> Result<(), Fail> {
    let mut cutter = Cutter::open(rt.alloc())?;
    assert_eq!(rt; cutter.feed(b"\r\nab"), (4, None));
    assert!(rt; cutter.frame().is_empty());
    assert_eq!(rt; cutter.feed(b"c\x1dd"), (2, Some(Cut::Whole)));
    assert_eq!(rt; cutter.frame(), b"abc\x1d".as_slice());
    assert_eq!(rt; cutter.feed(b"d"), (1, None));
    assert!(rt; cutter.frame().is_empty());
    assert_eq!(rt; cutter.finish(), Some(Cut::Truncated));
    assert_eq!(rt; cutter.finish(), None);
    Ok(())
}
