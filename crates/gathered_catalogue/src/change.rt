//! What a turn applies.
ghost use Rattle.std.specs.Prelude.{◌≡◌};
ghost use Rattle.gathered_catalogue.specs.Engines.{batch_of};

use catalogue_editions::batch::Batch;
use catalogue_editions::prepared::Prepared;
use std::marker::Model;

/// A batch as it was read, or one whose records are resolved among themselves.
#[derive(Drop)]
pub enum ChangeKind {
    Plain(Batch),
    Prepared(Prepared),
}

/// What a turn applies: a batch, prepared for a turn that resolves, or as it was read. Contracts see it as the batch.
pub struct Change {
    kind: ChangeKind,
}

/// Written by hand: a derived drop is proved again at every exit.
impl Drop for Change {
    fn drop(self) {
        let Change { kind: _ } = self;
    }
}

impl Model for Change {
    ghost use Rattle.catalogue_editions.specs.declared.batch.Batch.{Batch as BatchModel};

    ghost Value = { BatchModel };

    ghost use Rattle.gathered_catalogue.specs.Engines.{batch_of};

    ghost view = { λ change. batch_of change.kind };
}

impl Change {
    /// The batch as it was read. Takes no memory.
    pub fn plain(batch: Batch) -> Change
        ensures { result ≡ batch }
    {
        Change {
            kind: ChangeKind::Plain(batch),
        }
    }

    /// The prepared batch. Takes no memory.
    pub fn prepared(prepared: Prepared) -> Change
        ensures { result ≡ prepared }
    {
        Change {
            kind: ChangeKind::Prepared(prepared),
        }
    }

    /// The batch, in the form that it has. Takes no memory.
    pub fn into_kind(self) -> ChangeKind
        ensures { batch_of result ≡ self }
    {
        let Change { kind } = self;
        kind
    }

    /// The batch alone. Takes no memory.
    pub fn into_batch(self) -> Batch
        ensures { result ≡ self }
    {
        match self.into_kind() {
            ChangeKind::Plain(batch) => batch,
            ChangeKind::Prepared(prepared) => prepared.into_parts().0,
        }
    }
}
