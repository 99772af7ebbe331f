//! The status of a load that stopped.
ghost use Rattle.std.specs.Prelude.{◌≡◌, ◌<◌, IfSome, false, length, nat_eq, slice_get};
ghost use Rattle.std.specs.Cmp.Lexicographic.{pointwise};
ghost use Rattle.union_words.specs.Meanings.{file_meaning, libraries_meaning};
ghost use Rattle.union_files.specs.Inputs.{is_open_fault};
ghost use Rattle.union_follow.specs.Turning.{IsFirstOf, TellsHalt};

use crate::libraries::Halt;
use library_batches::stop::Stop;
use union_base::library_code::LibraryCode;
use union_words::input::Input;
use union_words::libraries::Libraries;
use union_words::status::Status;

/// Whether the file of the library at that place has that name. Takes no memory.
fn has_path(libraries: &Libraries<'_>, place: usize, path: &[u8]) -> bool
    requires { place < length (libraries_meaning libraries.now) }
    ensures { IfSome (slice_get (libraries_meaning libraries.now) place)
        (λ file. result ≡ pointwise nat_eq file.path path.now) }
{
    libraries.at(place).path == path
}

/// The first library whose file has the name of the file at that place: two libraries may have one file, and then the first of them
/// names it. Takes no memory.
fn first_of(libraries: &Libraries<'_>, place: usize) -> LibraryCode
    requires { place < length (libraries_meaning libraries.now) }
    ensures { IsFirstOf (libraries_meaning libraries.now) place result }
{
    let path = libraries.at(place).path;
    for earlier in 0..place {
        if has_path(libraries, earlier, path) {
            return libraries.at(earlier).library;
        }
    }
    libraries.at(place).library
}

/// The status of a load that stopped there.
pub fn status_of(libraries: &Libraries<'_>, halt: &Halt) -> Status
    requires { halt.now.place < length (libraries_meaning libraries.now) }
    ensures stops { TellsHalt (libraries_meaning libraries.now) halt.now result }
    ensures other { is_open_fault result ≡ false }
{
    let place = halt.place as usize;
    match halt.stop {
        Stop::Failed => Status::ReadFault(Input::Library(first_of(libraries, place))),
        Stop::TooLong => Status::TooLong(Input::Library(libraries.at(place).library)),
        Stop::Memory => Status::Memory,
    }
}
