//! A list of values in order.
ghost use Rattle.std.specs.Prelude.{◌≡◌};

use crate::copied::{Copied, push_copies};
use crate::memory::Memory;
use std::alloc::Global;
use std::marker::Model;

/// Values in order, which contracts see as a list. It is made of a `Vec` and gives it back, and takes no memory of its own.
#[derive(Debug, Drop)]
pub struct Sequence<T> {
    items: Vec<T>,
}

impl<T> Model for Sequence<T> {
    ghost use Rattle.std.specs.Prelude.{List};

    ghost Value = { List T };

    ghost view = { λ s. s.items.items };
}

impl<T> Sequence<T> {
    /// The values. Takes no memory.
    pub fn as_slice(&self) -> &[T]
        ensures { result.now ≡ self.now }
    {
        self.items.as_slice()
    }

    /// The values, given back. Takes no memory.
    pub fn into_vec(self) -> Vec<T>
        ensures { result.items ≡ self }
    {
        let Sequence { items } = self;
        items
    }
}

impl<T> From<Vec<T>> for Sequence<T> {
    ghost from_gives = { λ items s. s ≡ items.items };

    fn from(items: Vec<T>) -> Sequence<T> {
        Sequence { items }
    }
}

impl<T: Copied> Copied for Sequence<T> {
    fn copied(&self, alloc: Global) -> Result<Sequence<T>, Memory> {
        let mut items = Vec::with_capacity(alloc, self.items.len())?;
        push_copies(alloc, &mut items, self.items.as_slice())?;
        Ok(Sequence { items })
    }
}
