//! The draws of one library's frames, one after the other.
ghost use Rattle.std.specs.Prelude.{◌≡◌, ◌∷◌, ◌<◌, ◌≤◌, [], MatchOption};
ghost use Rattle.union_trial.specs.Draws.{library_draws};
ghost use Rattle.union_words.specs.Numbers.{most_generated};
ghost use Rattle.union_trial.specs.Streams.{still_drawn};

use crate::draws::Draws;
use crate::generator::Generator;
use crate::library_draws::LibraryDraws;

/// How many libraries the frames belong to in turn.
pub const LIBRARIES: u32 = 3;

impl LibraryDraws {
    /// The draws of the library at that place, of `count` frames that are generated from that seed.
    pub fn of(seed: u64, count: u32, place: u32) -> LibraryDraws
        requires some { 0 < count }
        requires most { count ≤ most_generated }
        ensures { still_drawn result ≡ library_draws seed count place }
    {
        LibraryDraws {
            generator: Generator { state: seed },
            count,
            place,
            number: 0,
        }
    }

    /// The draws of the library's next frame: None where there is none.
    pub fn next(&mut self) -> Option<Draws>
        ensures { MatchOption result ((still_drawn self.old ≡ []) × (still_drawn self.new ≡ []))
            (λ drawn. still_drawn self.old ≡ drawn ∷ still_drawn self.new) }
    {
        while self.number < self.count {
            let mine = self.number % LIBRARIES == self.place;
            let draws = self.generator.draws(self.count);
            self.number += 1;
            if mine {
                return Some(draws);
            }
        }
        None
    }
}
