//! The draws of one library's frames.
ghost use Rattle.std.specs.Prelude.{◌<◌, ◌≤◌};
ghost use Rattle.union_words.specs.Numbers.{most_generated};

use crate::generator::Generator;

/// The draws of one library's frames, one after the other. The draws of the other libraries' frames are passed over, so that
/// no list of frames is kept.
#[derive(Clone, Copy, Debug)]
pub struct LibraryDraws {
    /// The generator after the frames so far.
    pub generator: Generator,
    /// How many frames are generated.
    pub count: u32,
    /// The library's place.
    pub place: u32,
    /// The number of the next frame.
    pub number: u32,
    pub ghost some: { 0 < count },
    pub ghost most: { count ≤ most_generated },
    pub ghost within: { number ≤ count },
}
