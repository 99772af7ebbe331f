//! The files of the system, read in pieces as large as the caller's buffer. Nothing is copied but by the system.
ghost use Rattle.std.specs.Prelude.{◌≡◌, None, List, ℕ, []};
ghost use Rattle.union_io.specs.Opened.{names_in, count_in};

use crate::failed::Failed;
use crate::opened_names::OpenedNames;
use crate::reader_source::ReaderSource;
use crate::shelf::{OpenFail, Shelf};
use std::alloc::Global;
use std::fs::File;
use std::rt::Files;
use std::str;
use union_base::bytes::Bytes;
use union_base::copied::Copied;

/// The files of a runtime, by their paths in UTF-8. It tells no content.
#[derive(Drop)]
pub struct FileShelf<R: Files + Drop> {
    files: R,
    names: OpenedNames,
}

impl<R: Files + Drop> FileShelf<R>
where
    R::File: Send,
{
    /// The files of that runtime, of which none was opened.
    pub fn new(alloc: Global, files: R) -> FileShelf<R>
        ensures opened { ⟦<FileShelf<R> as Shelf>⟧.opened result ≡ [] }
        ensures fresh { (name : List ℕ) → ⟦<FileShelf<R> as Shelf>⟧.faults result name ≡ 0 }
    {
        FileShelf {
            files,
            names: OpenedNames::new(alloc),
        }
    }
}

impl<R: Files + Drop> FileShelf<R> {
    /// Opens the file of that path. A path that is no UTF-8 fails, as a missing file does.
    fn open_file(&self, path: &Bytes) -> Result<R::File, Failed> {
        let Ok(path) = str::from_utf8(path.bytes()) else {
            return Err(Failed);
        };
        match File::open(&self.files, path) {
            Ok(file) => Ok(file),
            Err(_) => Err(Failed),
        }
    }
}

impl<R: Files + Drop> Shelf for FileShelf<R>
where
    R::File: Send,
{
    type Src = ReaderSource<R::File>;

    ghost files = { λ _. None };

    ghost opened = { λ shelf. names_in shelf.names };

    ghost faults = { λ shelf. count_in shelf.names };

    fn open(&mut self, alloc: Global, path: &Bytes) -> Result<ReaderSource<R::File>, OpenFail> {
        let name = path.copied(alloc)?;
        self.names.add(path.copied(alloc)?)?;
        match self.open_file(path) {
            Ok(file) => Ok(ReaderSource::of(name, file)),
            Err(Failed) => {
                self.names.count_fault(path);
                Err(OpenFail::Failed)
            }
        }
    }

    fn give_back(&mut self, source: ReaderSource<R::File>) {
        self.names.take_back(source.name(), source.faults());
    }
}
