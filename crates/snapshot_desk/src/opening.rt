//! The opening of a published history.
ghost use Rattle.std.specs.Prelude.{◌≡◌, [], IfOk};

use crate::board::board_of;
use crate::log::{Head, Reached};
use crate::publisher::Publisher;
use crate::viewer::Viewer;
use catalogue_core::catalogue::Catalogue;
use key_hashing::hashing::Hashing;
use logbook::Start;
use std::alloc::Global;
use std::collections::VecDeque;
use std::sync::Arc;
use union_base::memory::Memory;

/// A publisher, of nothing yet, and its viewer, whose catalogue keeps its works and hashes keys by these numbers. Both are ended by
/// `Publisher::close`.
///
/// Returns `Memory` if allocation fails.
pub fn open(alloc: Global, hashing: Hashing) -> Result<(Publisher, Viewer), Memory>
    ensures publisher { IfOk result (λ opened. (opened.0.published ≡ [])
        × (opened.0.pending ≡ [])) }
    ensures viewer { IfOk result (λ opened. opened.1
        ≡ record { book = opened.0.book; seen = []; learnt = [] }) }
{
    let mut catalogue = Catalogue::empty(alloc, hashing)?;
    catalogue.keep_works(alloc)?;
    let (reached, mut first, _second) = Reached::open(Start::alone(), 0, 0);
    let board = Arc::new(alloc, board_of(alloc, &reached)?)?;
    let viewer = Viewer {
        reached: reached.again(),
        owed: 0,
        board: Arc::try_clone(&board)?,
        catalogue,
    };
    Ok((
        Publisher {
            head: Head::tracked(0, &mut first),
            reached,
            count: 0,
            board,
            pending: VecDeque::new(alloc),
        },
        viewer,
    ))
}
