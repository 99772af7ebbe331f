//! A note of what was published.
use crate::log::Reached;
use std::marker::Model;

/// A note of the list that was published when the note was made. It is small, and may go to another thread.
#[derive(Drop)]
pub struct Told {
    pub(crate) count: u64,
    pub(crate) reached: Reached,
}

impl Model for Told {
    ghost use Rattle.std.specs.Prelude.{◌≡◌, length};
    ghost use Rattle.snapshot_desk.specs.States.{Noting};

    ghost Value = { Noting };

    ghost view = { λ told. record { book = told.reached.book; published = told.reached.log } };

    ghost invariant = { λ told. told.count ≡ length told.reached.log };
}
