//! What editions merge to, as `specs/Joining.antt` has it.
ghost use Rattle.catalogue_editions.specs.Joining.{join};
ghost use Rattle.catalogue_editions.specs.JoinLaws.{edition_join_laws};

use crate::edition::Edition;
use merge_laws::join::Join;
use std::alloc::Global;
use union_base::memory::Memory;

impl Join for Edition {
    ghost join = { join };

    fn joined(&self, alloc: Global, other: &Edition) -> Result<Edition, Memory> {
        let features = self.features().joined(alloc, other.features())?;
        let contents = self.contents().joined(alloc, other.contents())?;
        Edition::with_contents(alloc, features, contents)
    }

    fn copied(&self, _alloc: Global) -> Result<Edition, Memory> {
        self.shared()
    }

    ghost join_laws = { edition_join_laws };
}
