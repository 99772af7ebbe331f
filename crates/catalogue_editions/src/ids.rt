//! The id by which an edition is named, as `specs/Ids.antt` has it.
ghost use Rattle.std.specs.Prelude.{◌≡◌};
ghost use Rattle.catalogue_editions.specs.Ids.{least};

use crate::edition::Edition;
use union_base::record_id::RecordId;

impl Edition {
    /// The least contributor, which stands for the edition. Takes no memory.
    pub fn least(&self) -> &RecordId
        ensures { result.now ≡ least self.now }
    {
        &self.contributors().as_slice()[0]
    }
}
