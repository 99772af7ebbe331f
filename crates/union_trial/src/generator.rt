//! The generator of the frames' draws.
ghost use Rattle.std.specs.Prelude.{◌≡◌, ◌<◌, ◌≤◌};
ghost use Rattle.union_trial.specs.Draws.{next_state, number_below, draws_of, state_behind};
ghost use Rattle.union_words.specs.Numbers.{most_generated};

use crate::draws::Draws;

/// The multiplier and the increment of the linear congruence (Knuth, MMIX).
const MULTIPLIER: u64 = 6_364_136_223_846_793_005;

const INCREMENT: u64 = 1_442_695_040_888_963_407;

/// How many bits of a state a draw leaves out.
const LOW_BITS: u32 = 33;

/// The year of the earliest records.
const FIRST_YEAR: u32 = 1990;

/// The state of the generator.
#[derive(Clone, Copy, Debug, PartialEq, Eq)]
pub struct Generator {
    pub state: u64,
}

impl Generator {
    /// A number below that one.
    fn draw(&mut self, below: u32) -> u32
        requires { 0 < below }
        ensures state { self.new.state ≡ next_state self.old.state }
        ensures number { result ≡ number_below below self.new.state }
        ensures less { result < below }
    {
        self.state = self.state.wrapping_mul(MULTIPLIER).wrapping_add(INCREMENT);
        ((self.state >> LOW_BITS) % u64::from(below)) as u32
    }

    /// What is drawn for the next frame, where `count` are generated.
    pub fn draws(&mut self, count: u32) -> Draws
        requires some { 0 < count }
        requires most { count ≤ most_generated }
        ensures state { self.new.state ≡ state_behind self.old.state }
        ensures draws { result ≡ draws_of count self.old.state }
    {
        Draws {
            op: self.draw(10),
            control: self.draw(count),
            title: self.draw(4 * count),
            name: self.draw(count / 8 + 1),
            year: FIRST_YEAR + self.draw(3),
            number: self.draw(4 * count),
        }
    }
}
