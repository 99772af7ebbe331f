//! The pieces of a text, and the frame in a piece, as iso2709_frame has them.
ghost use Rattle.std.specs.Prelude.{◌≡◌, ◌<◌, ◌≤◌, ◌+◌, ◌++◌, ◌∷◌, [], length, drop};
ghost use Rattle.std.specs.List.{list_any};
ghost use Rattle.iso2709_frame.specs.Frames.{first_piece, skip_breaks, is_terminator, cut_piece, IsWhole};

use iso2709_frame::cut::{CARRIAGE_RETURN, Cut, LARGEST_FRAME, LINE_FEED, RECORD_TERMINATOR};
use memchr::memchr;

/// How many bytes the text has up to and with its first record terminator: all where there is none.
pub(crate) fn piece_size(text: &[u8]) -> usize
    ensures value { result ≡ length (first_piece text.now) }
    ensures within { result ≤ length text.now }
    ensures some { 0 < length text.now → 0 < result }
{
    match memchr(RECORD_TERMINATOR, text) {
        Some(at) => at + 1,
        None => text.len(),
    }
}

/// The piece without the CR and LF at its beginning.
pub(crate) fn behind_breaks(piece: &[u8]) -> &[u8]
    ensures value { result.now ≡ skip_breaks piece.now }
    ensures size { length result.now ≤ length piece.now }
{
    let mut rest = piece;
    while let [CARRIAGE_RETURN | LINE_FEED, behind @ ..] = rest {
        rest = behind;
    }
    rest
}

/// Whether the piece has a record terminator.
pub(crate) fn is_ended(piece: &[u8]) -> bool
    ensures { result ≡ list_any is_terminator piece.now }
{
    piece.iter().any(|byte| *byte == RECORD_TERMINATOR)
}

/// How the frame of a piece is cut, and its bytes where it is whole.
pub(crate) fn cut_frame<'a>(piece: &[u8], frame: &'a [u8]) -> (Cut, &'a [u8])
    requires piece { first_piece piece.now ≡ piece.now }
    requires frame { frame.now ≡ skip_breaks piece.now }
    requires some { 0 < length frame.now }
    ensures cut { cut_piece piece.now ≡ (result.0, result.1.now) ∷ [] }
    ensures whole { result.0 ≡ Cut.Whole → IsWhole result.1.now }
{
    if !is_ended(frame) {
        (Cut::Truncated, &[])
    } else if LARGEST_FRAME < frame.len() {
        (Cut::TooLong, &[])
    } else {
        (Cut::Whole, frame)
    }
}
