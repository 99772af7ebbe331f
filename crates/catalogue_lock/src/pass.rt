//! The token with which one caller takes turns.
ghost use Rattle.std.specs.Prelude.{◌≡◌};
ghost use Rattle.catalogue_lock.specs.Steps.{Rests};

use crate::board::Place;
use crate::machine::Machine;

/// A pass at one desk. It may move to another thread, and its calls borrow it, so it makes one call at a time.
///
/// A contract reads what it knows as `view pass` (`specs/Tokens.antt`), and which desk it belongs to by `IsPassOf`.
#[derive(Drop)]
pub struct Pass<M: Machine> {
    pub(crate) number: u32,
    pub(crate) place: Place<M>,
    pub ghost rests: { Rests place.me },
    pub ghost number_is: { number ≡ place.me.0.number },
}
