//! The opening of the files of a command's libraries, in their order. Nothing is read before each of them is open, and
//! where one cannot be opened no later one is tried.
//!
//! Each source that was opened is given back to its shelf, whatever happens. There is room for as many as the command
//! names.
ghost use Rattle.std.specs.Prelude.{◌≡◌, ◌≤◌, ◌∷◌, ℕ, List, length, drop, IsTrue, IfOk, IfErr, OnOk};
ghost use Rattle.union_io.specs.Counts.{SameCounts};
ghost use Rattle.union_io.specs.Names.{is_among, AddsName};
ghost use Rattle.union_words.specs.Meanings.{file_meaning, libraries_meaning};
ghost use Rattle.union_words.specs.Words;
ghost use Rattle.union_files.specs.Inputs.{StopsOpening, OpensInOrder, IsFresh, AreFresh, state_of, states_of, file_of, files_of};

use crate::opened_file::OpenedFile;
use std::alloc::Global;
use std::collections::VecDeque;
use union_base::bytes::Bytes;
use union_base::memory::Memory;
use union_io::shelf::{OpenFail, Shelf};
use union_words::input::Input;
use union_words::libraries::Libraries;
use union_words::library_file::LibraryFile;
use union_words::status::Status;

/// Gives back opened files of which nothing was read. Takes no memory.
pub fn give_back_all<F: Shelf>(opened: &mut VecDeque<OpenedFile<F::Src>>, shelf: &mut F)
    requires { AreFresh (F.files shelf.old) (F.opened shelf.old)
        (states_of F.Src.name F.Src.left F.Src.faults opened.old.items) }
    ensures files { F.files shelf.new ≡ F.files shelf.old }
    ensures names { F.opened shelf.new ≡ F.opened shelf.old }
    ensures calm { SameCounts (F.faults shelf.old) (F.faults shelf.new) }
{
    if let Some(file) = opened.pop_front() {
        shelf.give_back(file.source);
        give_back_all(opened, shelf);
    }
}

/// Opens the file of a library.
fn open_file<F: Shelf>(
    alloc: Global,
    file: &LibraryFile<'_>,
    shelf: &mut F,
) -> Result<OpenedFile<F::Src>, Status>
    ensures files { F.files shelf.new ≡ F.files shelf.old }
    ensures kept { (name : List ℕ) → IsTrue (is_among name (F.opened shelf.old))
        → IsTrue (is_among name (F.opened shelf.new)) }
    ensures file { IfOk result (λ opened. file_of
        (state_of F.Src.name F.Src.left F.Src.faults opened) ≡ file_meaning file.now) }
    ensures fresh { IfOk result (λ opened. IsFresh (F.files shelf.new) (F.opened shelf.new)
        (state_of F.Src.name F.Src.left F.Src.faults opened)) }
    ensures calm { OnOk result (SameCounts (F.faults shelf.old) (F.faults shelf.new)) }
    ensures opened { IfOk result (λ _. AddsName (F.opened shelf.old) (F.opened shelf.new)
        (file_meaning file.now).path) }
    ensures in_order { IfErr result (λ status. (rest : List Words.LibraryFile)
        → OpensInOrder status (file_meaning file.now ∷ rest) (F.opened shelf.old)
        (F.opened shelf.new)) }
    ensures stops { IfErr result (λ status. (rest : List Words.LibraryFile)
        → StopsOpening status (file_meaning file.now ∷ rest)
        (record {
          files = F.files shelf.old;
          before = F.faults shelf.old;
          after = F.faults shelf.new;
        })) }
{
    let Ok(path) = Bytes::of(alloc, file.path) else {
        return Err(Status::Memory);
    };
    match shelf.open(alloc, &path) {
        Ok(source) => Ok(OpenedFile {
            library: file.library,
            source,
        }),
        Err(OpenFail::Failed) => Err(Status::OpenFault(Input::Library(file.library))),
        Err(OpenFail::Memory) => Err(Status::Memory),
    }
}

/// Puts an opened file before others. Where there is no room, it and they are given back.
fn put_first<F: Shelf>(
    file: OpenedFile<F::Src>,
    mut opened: VecDeque<OpenedFile<F::Src>>,
    shelf: &mut F,
) -> Result<VecDeque<OpenedFile<F::Src>>, Status>
    requires file { IsFresh (F.files shelf.old) (F.opened shelf.old)
        (state_of F.Src.name F.Src.left F.Src.faults file) }
    requires others { AreFresh (F.files shelf.old) (F.opened shelf.old)
        (states_of F.Src.name F.Src.left F.Src.faults opened.items) }
    ensures files { F.files shelf.new ≡ F.files shelf.old }
    ensures names { F.opened shelf.new ≡ F.opened shelf.old }
    ensures calm { SameCounts (F.faults shelf.old) (F.faults shelf.new) }
    ensures put { IfOk result (λ all. all.items ≡ file ∷ opened.items) }
    ensures stops { IfErr result (λ status. status ≡ Status.Memory) }
{
    match opened.push_front(file) {
        Ok(()) => Ok(opened),
        Err(refused) => {
            shelf.give_back(refused.value.source);
            give_back_all(&mut opened, shelf);
            Err(Status::Memory)
        }
    }
}

/// Opens the files of the libraries from this place on, in their order.
///
/// # Errors
///
/// - `OpenFault`: this file could not be opened; those before it were opened, in their order, and none after it.
/// - `Memory`: allocation failed.
pub fn open_rest<F: Shelf>(
    alloc: Global,
    libraries: &Libraries<'_>,
    place: usize,
    shelf: &mut F,
) -> Result<VecDeque<OpenedFile<F::Src>>, Status>
    requires { place ≤ length (libraries_meaning libraries.now) }
    ensures files { F.files shelf.new ≡ F.files shelf.old }
    ensures kept { (name : List ℕ) → IsTrue (is_among name (F.opened shelf.old))
        → IsTrue (is_among name (F.opened shelf.new)) }
    ensures opened { IfOk result (λ opened. files_of
        (states_of F.Src.name F.Src.left F.Src.faults opened.items)
        ≡ drop place (libraries_meaning libraries.now)) }
    ensures fresh { IfOk result (λ opened. AreFresh (F.files shelf.new) (F.opened shelf.new)
        (states_of F.Src.name F.Src.left F.Src.faults opened.items)) }
    ensures calm { OnOk result (SameCounts (F.faults shelf.old) (F.faults shelf.new)) }
    ensures in_order { IfErr result (λ status. OpensInOrder status
        (drop place (libraries_meaning libraries.now))
        (F.opened shelf.old) (F.opened shelf.new)) }
    ensures stops { IfErr result (λ status. StopsOpening status
        (drop place (libraries_meaning libraries.now))
        (record {
          files = F.files shelf.old;
          before = F.faults shelf.old;
          after = F.faults shelf.new;
        })) }
{
    if place == libraries.len() {
        return match VecDeque::with_capacity(alloc, libraries.len()) {
            Ok(none) => Ok(none),
            Err(_) => Err(Status::Memory),
        };
    }
    match open_file(alloc, &libraries.at(place), shelf) {
        Ok(file) => match open_rest(alloc, libraries, place + 1, shelf) {
            Ok(opened) => put_first(file, opened, shelf),
            Err(status) => {
                shelf.give_back(file.source);
                Err(status)
            }
        },
        Err(status) => Err(status),
    }
}
