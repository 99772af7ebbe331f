//! What the words of the command line ask for, and the texts of the program's own.
ghost use Rattle.std.specs.Prelude.{◌≡◌};
ghost use Rattle.std.specs.Option.{option_map};
ghost use Rattle.union_explain.specs.Requests.{request_meaning, table_of, request_of};
ghost use Rattle.union_words.specs.Words.{alone_of};

use crate::form::Form;
use union_base::bytes::Bytes;
use union_words::libraries::Libraries;

/// The answer to `--version`.
pub const VERSION: &[u8] = b"union-explain 0.4.0\n";

/// The answer to `--help`.
pub const HELP: &[u8] = b"\
union-explain - say what the refused records of a report are

Reads a report, as 'union check' and 'union export' write it, from standard
input, and the libraries' files again. Writes a row for each refused record of
these libraries, and then on standard error a line of counts.

USAGE
    union-explain [--csv] LIB=PATH ..
    union-explain --help         show this help
    union-explain --version      show the program's name and version

    LIB is a library's code in the report, PATH its file as it was then. There
    are 1 to 64 libraries, each under a code of its own. '-' is no file: write
    /dev/stdin for a file that comes from a pipe.

A ROW HAS NINE COLUMNS, parted by tabs
    library         its code
    frame           the number of the record in the file, from 1
    offset          how many bytes of the file are before its first byte
    length          how many bytes it has
    control number  its 001, where that can be read
    tag             the tag of the field that the rule is about, where it is one
    rule            the rule that the report names
    what it says    what the rule finds in the record; where the record of that
                    number does not break it there, that the file is another
    what to do      how such a record is mended

    --csv writes CSV with a heading: each column between quotation marks, parted
    by commas. Rows come library by library in the order of the command.

THE COUNTS
    'lines L explained E passed P': the report's lines that are not empty, the
    rows, and the lines without a row: counts, other libraries, a refused line
    whose number does not rise within its library, and one whose record the file
    has not. Where records are refused that say they are in MARC-8 and are not
    ASCII, 'MARC-8 N: COMMAND' tells how many, and what converts a file.

EXIT STATUS
    0    done
    1    done, and a file is not the one of the report: a refused line names a
         record that it has not, or that does not break that rule at that place
    2    bad command line
    3    cannot open: a library's file could not be opened
    4    read failed: the report or a file could not be read
    5    write failed
    6    too long: the report or a file has more than 1,099,511,627,776 bytes
    7    out of memory

    With status 2, 3, 4, 6 or 7 standard error has one line that says why, and
    standard output stays empty.

EXAMPLES
    What the refused records of a delivery are:
        union check LIBA=liba.mrc | union-explain LIBA=liba.mrc
    The same as a table for a spreadsheet, of a night's report:
        union-explain --csv LIBA=liba.mrc LIBB=libb.mrc < report.txt > refused.csv
";

/// What the program is asked to do. It borrows the words.
#[derive(Clone, Copy)]
pub enum Request<'a> {
    /// `[--csv] LIB=PATH ..`: explain a report.
    Explain(Form, Libraries<'a>),
    /// `--help`: tell the forms of words.
    Help,
    /// `--version`: tell the program's name and version.
    Version,
}

impl<'a> Request<'a> {
    /// What the words after the program's name ask for: None exactly where they are in no form that the program has. Takes no
    /// memory.
    pub fn read(words: &'a [Bytes]) -> Option<Request<'a>>
        ensures { option_map request_meaning result ≡ request_of words.now }
    {
        match words {
            [] => None,
            [word, rest @ ..] => {
                if word.bytes() == b"--csv".as_slice() {
                    table(Form::Csv, rest)
                } else if word.bytes() == b"--help".as_slice() {
                    alone(Request::Help, rest)
                } else if word.bytes() == b"--version".as_slice() {
                    alone(Request::Version, rest)
                } else {
                    table(Form::Tabs, words)
                }
            }
        }
    }
}

/// The request, where no word follows it.
fn alone<'a>(request: Request<'a>, rest: &[Bytes]) -> Option<Request<'a>>
    ensures { option_map request_meaning result
        ≡ alone_of (request_meaning request.entry) rest.now }
{
    match rest {
        [] => Some(request),
        _ => None,
    }
}

/// The table of the libraries that the words name.
fn table(form: Form, words: &[Bytes]) -> Option<Request<'_>>
    ensures { option_map request_meaning result ≡ table_of form words.now }
{
    match Libraries::read(words) {
        Some(libraries) => Some(Request::Explain(form, libraries)),
        None => None,
    }
}
