//! Which library's file could not be read.
//!
//! Several sessions may have failed, and two libraries may have one file. Each pair of libraries is looked at; a command has few
//! of them.
ghost use Rattle.std.specs.Prelude.{◌≡◌, Some, drop, slice_get};
ghost use Rattle.union_words.specs.Meanings.{libraries_meaning};
ghost use Rattle.union_load.specs.Sessions.{course_of, courses_of, failed_library, fails_on, file_of, is_failed_in, is_fault, libraries_of};

use load_sessions::end::End;
use load_sessions::session::Session;
use union_base::library_code::LibraryCode;
use union_io::source::Source;
use union_words::libraries::Libraries;

/// Whether a read failed. Takes no memory.
fn is_fault(end: End) -> bool
    ensures { result ≡ is_fault end }
{
    match end {
        End::ReadFault => true,
        End::NotRun | End::Done | End::TooLong | End::Memory => false,
    }
}

/// Whether a read of the file of that name failed in this session, which is of the library at that place.
fn fails_on<S: Source>(
    libraries: &Libraries<'_>,
    place: usize,
    session: &Session<S>,
    path: &[u8],
) -> bool
    requires { slice_get (libraries_meaning libraries.now) place
        ≡ Some (file_of S.name session.now) }
    ensures { result ≡ fails_on path.now (course_of S.name session.now) }
{
    is_fault(session.end) && libraries.at(place).path == path
}

/// Whether it did in one of these sessions, which are of the libraries from this place on.
fn is_failed_in<S: Source>(
    libraries: &Libraries<'_>,
    place: usize,
    sessions: &[Session<S>],
    path: &[u8],
) -> bool
    requires libraries { libraries_of S.name sessions.now
        ≡ drop place (libraries_meaning libraries.now) }
    ensures { result ≡ is_failed_in (courses_of S.name sessions.now) path.now }
{
    match sessions {
        [] => false,
        [session, rest @ ..] => {
            fails_on(libraries, place, session, path)
                || is_failed_in(libraries, place + 1, rest, path)
        }
    }
}

/// The first library whose file could not be read, by its own session or by another of the same file. Takes no memory.
pub fn first_failed<S: Source>(
    libraries: &Libraries<'_>,
    sessions: &[Session<S>],
) -> Option<LibraryCode>
    requires { libraries_of S.name sessions.now ≡ libraries_meaning libraries.now }
    ensures { result ≡ failed_library (courses_of S.name sessions.now)
        (libraries_meaning libraries.now) }
{
    for place in 0..libraries.len() {
        let file = libraries.at(place);
        if is_failed_in(libraries, 0, sessions, file.path) {
            return Some(file.library);
        }
    }
    None
}
