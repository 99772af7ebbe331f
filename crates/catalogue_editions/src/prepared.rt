//! Batches whose records are resolved among themselves, before their turn.
ghost use Rattle.std.specs.Prelude.{◌≡◌};
ghost use Rattle.catalogue_editions.specs.Net.{net};
ghost use Rattle.catalogue_editions.specs.Resolutions.{IsOrderedResolution};

use crate::batch::Batch;
use crate::edition::Edition;
use std::marker::Model;

/// A batch, and the editions to which the records that it leaves of its loads resolve among themselves, in order of the least
/// contributors. Contracts see it as the batch, by which the editions are determined.
pub struct Prepared {
    batch: Batch,
    parts: Vec<Edition>,
}

/// A drop of its own, as that of `Bytes`.
impl Drop for Prepared {
    fn drop(self) {
        let Prepared { batch: _, parts: _ } = self;
    }
}

impl Model for Prepared {
    ghost use Rattle.catalogue_editions.specs.declared.batch.Batch.{Batch as BatchModel};
    ghost use Rattle.catalogue_editions.specs.Net.{net};
    ghost use Rattle.catalogue_editions.specs.Resolutions.{IsOrderedResolution};

    ghost Value = { BatchModel };

    ghost view = { λ p. p.batch };

    ghost invariant = { λ p. IsOrderedResolution (net p.batch) p.parts.items };
}

impl Prepared {
    /// The batch with these editions. Takes no memory.
    pub fn of(batch: Batch, parts: Vec<Edition>) -> Prepared
        requires { IsOrderedResolution (net batch) parts.items }
        ensures { result ≡ batch }
    {
        Prepared { batch, parts }
    }

    /// The batch, and the editions. Takes no memory.
    pub fn into_parts(self) -> (Batch, Vec<Edition>)
        ensures batch { result.0 ≡ self }
        ensures parts { IsOrderedResolution (net self) result.1.items }
    {
        let Prepared { batch, parts } = self;
        (batch, parts)
    }
}
