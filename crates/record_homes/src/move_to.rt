//! What a turn changes of a home.
ghost use Rattle.std.specs.Prelude.{◌≡◌};
ghost use Rattle.record_homes.specs.Maps.{moved_to};

use crate::home::Home;
use crate::place::Place;

/// Where a record moves: to another place of the history, or to another block.
#[derive(Clone, Copy, Debug)]
pub(crate) enum MoveTo {
    Place(Place),
    Block(u64),
}

impl MoveTo {
    /// The home after the move.
    pub(crate) fn of(self, home: Home) -> Home
        ensures { result ≡ moved_to self home }
    {
        match self {
            MoveTo::Place(place) => Home {
                place,
                block: home.block,
            },
            MoveTo::Block(block) => Home {
                place: home.place,
                block,
            },
        }
    }
}
