//! The token with which passes are made and ended.
ghost use Rattle.std.specs.Prelude.{◌≡◌, min, [], length};
ghost use Rattle.catalogue_lock.specs.Ended.Role.{AsRoot};

use crate::board::Place;
use crate::machine::Machine;

/// The root of one desk.
///
/// A contract reads what it knows as `root_of root` (`specs/Tokens.antt`): the setting, how many passes were made, and for
/// each ended pass its number, its own changes and what it had seen. `IsRootOf` says which desk it belongs to.
#[derive(Drop)]
pub struct Root<M: Machine> {
    pub(crate) made: u32,
    // No step tells the root how many passes are live, so this count stops at its type's end. `made` never passes it.
    pub(crate) ended: u32,
    pub(crate) place: Place<M>,
    pub ghost rests: { (place.me.0.role ≡ AsRoot) × (place.me.1 ≡ []) },
    pub ghost made_is: { made ≡ place.me.0.made },
    pub ghost ended_is: { ended ≡ min (length place.me.0.ended) 4294967295 },
}
