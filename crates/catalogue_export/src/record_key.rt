//! Ids of records, as the keys of a table.
ghost use Rattle.std.specs.Prelude.{◌≡◌, ◌∷◌, [], IfOk};
ghost use Rattle.std.specs.BTreeMap.{is_at};
ghost use Rattle.std.specs.Cmp.{eq_by_cmp_equiv, partial_equiv_from_equiv};
ghost use Rattle.union_base.specs.RecordIds.{id_cmp};
ghost use Rattle.field_merge.specs.KeptLaws.{id_total};
ghost use Rattle.catalogue_export.specs.RecordKeys.{same_input};

use std::alloc::Global;
use std::cmp::Ordering;
use std::hash::{Hash, Hasher};
use std::marker::Model;
use union_base::copied::Copied;
use union_base::memory::Memory;
use union_base::record_id::RecordId;

/// The id of a record, which contracts see as it is.
pub struct RecordKey {
    id: RecordId,
}

/// Written by hand: a derived drop is proved again at every exit.
impl Drop for RecordKey {
    fn drop(self) {
        let RecordKey { id: _ } = self;
    }
}

impl Model for RecordKey {
    ghost use Rattle.union_base.specs.declared.record_id.RecordId.{RecordId};

    ghost Value = { RecordId };

    ghost view = { λ key. key.id };
}

impl RecordKey {
    /// The id. Takes no memory.
    pub(crate) fn new(id: RecordId) -> RecordKey
        ensures { result ≡ id }
    {
        RecordKey { id }
    }

    /// A copy of the id. Returns `Memory` if allocation fails.
    pub(crate) fn of(alloc: Global, id: &RecordId) -> Result<RecordKey, Memory>
        ensures { IfOk result (λ key. key ≡ id.now) }
    {
        Ok(RecordKey {
            id: id.copied(alloc)?,
        })
    }
}

impl PartialEq for RecordKey {
    ghost eq = { λ x y. is_at (id_cmp x) y };

    ghost laws = { partial_equiv_from_equiv (eq_by_cmp_equiv id_total) };

    fn eq(&self, other: &RecordKey) -> bool {
        match self.id.library.cmp(&other.id.library) {
            Ordering::Equal => self.id.control.cmp(&other.id.control).is_eq(),
            _ => false,
        }
    }
}

impl Eq for RecordKey {
    ghost laws = { eq_by_cmp_equiv id_total };
}

/// Either part goes to the hasher in one piece.
impl Hash for RecordKey {
    ghost hash_input = { λ id. id.library ∷ id.control ∷ [] };

    ghost respects_eq = { same_input };

    fn hash<H: Hasher>(&self, state: &mut H) {
        state.write(self.id.library.bytes());
        state.write(self.id.control.bytes());
    }
}
