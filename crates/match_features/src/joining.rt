//! What features merge to: the union of each list, as `specs/Joining.antt` has it.
ghost use Rattle.match_features.specs.Joining.{join};
ghost use Rattle.match_features.specs.JoinLaws.{features_join_laws};

use crate::features::Features;
use merge_laws::join::Join;
use std::alloc::Global;
use union_base::copied::Copied;
use union_base::memory::Memory;

impl Join for Features {
    ghost join = { join };

    fn joined(&self, alloc: Global, other: &Features) -> Result<Features, Memory> {
        let control = self.control.union(alloc, &other.control)?;
        let types = self.types.union(alloc, &other.types)?;
        let isbns = self.isbns.union(alloc, &other.isbns)?;
        let issns = self.issns.union(alloc, &other.issns)?;
        let titles = self.titles.union(alloc, &other.titles)?;
        let dates = self.dates.union(alloc, &other.dates)?;
        let names = self.names.union(alloc, &other.names)?;
        Ok(Features {
            control,
            types,
            isbns,
            issns,
            titles,
            dates,
            names,
        })
    }

    fn copied(&self, alloc: Global) -> Result<Features, Memory> {
        let control = self.control.copied(alloc)?;
        let types = self.types.copied(alloc)?;
        let isbns = self.isbns.copied(alloc)?;
        let issns = self.issns.copied(alloc)?;
        let titles = self.titles.copied(alloc)?;
        let dates = self.dates.copied(alloc)?;
        let names = self.names.copied(alloc)?;
        Ok(Features {
            control,
            types,
            isbns,
            issns,
            titles,
            dates,
            names,
        })
    }

    ghost join_laws = { features_join_laws };
}
