//! Files whose reads are told.
ghost use Rattle.std.specs.Prelude.{◌≡◌};

use crate::teller::Tells;
use std::alloc::Global;
use union_base::bytes::Bytes;
use union_io::failed::Failed;
use union_io::shelf::{OpenFail, Shelf};
use union_io::source::Source;

/// A source whose reads are told.
#[derive(Drop)]
pub struct ToldSource<'a, S: Source, T> {
    source: S,
    teller: &'a T,
}

impl<S: Source, T: Tells> Source for ToldSource<'_, S, T> {
    ghost name = { λ told. S.name told.source };

    ghost left = { λ told. S.left told.source };

    ghost faults = { λ told. S.faults told.source };

    fn read(&mut self, into: &mut [u8]) -> Result<usize, Failed> {
        let count = self.source.read(into)?;
        self.teller.read(into.split_at(count).0);
        Ok(count)
    }
}

/// A shelf the reads of whose files are told.
#[derive(Drop)]
pub struct ToldShelf<'a, F: Shelf, T> {
    shelf: F,
    teller: &'a T,
}

impl<'a, F: Shelf, T> ToldShelf<'a, F, T> {
    /// The shelf, the reads of whose files are told to the teller.
    pub fn of(shelf: F, teller: &'a T) -> ToldShelf<'a, F, T>
        ensures { result.shelf ≡ shelf }
    {
        ToldShelf { shelf, teller }
    }
}

impl<'a, F: Shelf, T: Tells> Shelf for ToldShelf<'a, F, T> {
    type Src = ToldSource<'a, F::Src, T>;

    ghost files = { λ told. F.files told.shelf };

    ghost opened = { λ told. F.opened told.shelf };

    ghost faults = { λ told. F.faults told.shelf };

    fn open(&mut self, alloc: Global, path: &Bytes) -> Result<ToldSource<'a, F::Src, T>, OpenFail> {
        let source = self.shelf.open(alloc, path)?;
        Ok(ToldSource {
            source,
            teller: self.teller,
        })
    }

    fn give_back(&mut self, source: ToldSource<'a, F::Src, T>) {
        let ToldSource { source, teller: _ } = source;
        self.shelf.give_back(source);
    }
}
