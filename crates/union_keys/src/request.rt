//! What the words of the command line ask for, and the texts of the program's own.
ghost use Rattle.std.specs.Prelude.{◌≡◌};
ghost use Rattle.std.specs.Option.{option_map, option_copied};
ghost use Rattle.std.specs.declared.option.Option.{Option};
ghost use Rattle.union_keys.specs.Requests.{request_meaning, keys_of, numbers_of, table_of, request_of};
ghost use Rattle.union_words.specs.Words.{alone_of};

use union_base::bytes::Bytes;
use union_words::libraries::Libraries;
use union_words::number::option_text;

/// The answer to `--version`.
pub const VERSION: &[u8] = b"union-keys 0.4.0\n";

/// The answer to `--help`.
pub const HELP: &[u8] = b"\
union-keys - say by which keys records of libraries' files may meet others

USAGE
    union-keys [--table] [--groups=PATH] LIB=PATH ..
    union-keys --help         show this help
    union-keys --version      show the program's name and version

    LIB is a library's code, PATH its file. There are 1 to 64 libraries, each
    under a code of its own. '-' is no file: write /dev/stdin for a file that
    comes from a pipe.

WHAT IS WRITTEN
    A line for each accepted record, in the order of the files; with --groups, a
    line for each group. Its columns are parted by tabs:
    records      how many records the line tells of
    editions     how many editions they resolve to
    then for each record
    id           LIB.CTL
    offset       how many bytes of its library's file are before its first byte
    length       how many bytes it has
    and then the keys of the editions, each a letter s or p, a letter for its
    kind, and its text in hex. Records that one edition could have in common with
    another share a key that the one has under s and the other under p.

    A record that withdraws another of its id has no edition and no keys. The
    last record of an id is the one that counts.

TABLE
    --table writes numbers for machines, each of 8 bytes with the least first:
    how many records there are; a row of 56 bytes for each; and then a row of 24
    bytes for each key.
    record       library (16 bytes, its code and zeros), id (16), offset (8),
                 length (8), and 1 if it loads, 0 if it withdraws (8)
    key          key (8), number of its record from 0 (8), and 1 for s, 2 for p (8)
    An id is the MD5 of LIB.CTL. A key is the first 8 bytes of the MD5 of what its
    column has after s or p.

GROUPS
    PATH has a line LIB.CTL for each record, and an empty line after each group.
    An empty line where no group is begun makes none.

    With --table PATH has numbers of 8 bytes: n is the n-th record, counted from 1,
    and 0 ends a group. The rows of keys are those of the groups, which are counted
    from 0. The last record of an id in a group is the one that counts.

STANDARD ERROR
    'LIB refused FRAME RULE PLACE' for each refused record, as union check has
    them; with --groups, 'group N has E editions' where E is not 1, and
    'no record LIB.CTL' for an id that no accepted record has.

EXIT STATUS
    0    done
    1    done, and standard error tells of something
    2    bad command line
    3    cannot open: a file could not be opened
    4    read failed: a file could not be read
    5    write failed
    6    too long: a file has more than 1,099,511,627,776 bytes
    7    out of memory

    With status 2, 3, 4, 6 or 7 standard error has one line that says why, and
    standard output stays empty.
";

/// What the program is asked to do. It borrows the words.
#[derive(Clone, Copy)]
pub enum Request<'a> {
    /// `[--groups=PATH] LIB=PATH ..`: tell keys.
    Keys(Option<&'a [u8]>, Libraries<'a>),
    /// `--table [--groups=PATH] LIB=PATH ..`: tell keys as numbers.
    Table(Option<&'a [u8]>, Libraries<'a>),
    /// `--help`: tell the forms of words.
    Help,
    /// `--version`: tell the program's name and version.
    Version,
}

impl<'a> Request<'a> {
    /// What the words after the program's name ask for: None exactly where they are in no form that the program has. Takes no
    /// memory.
    pub fn read(words: &'a [Bytes]) -> Option<Request<'a>>
        ensures { option_map request_meaning result ≡ request_of words.now }
    {
        match words {
            [] => None,
            [word, rest @ ..] => {
                if word.bytes() == b"--help".as_slice() {
                    alone(Request::Help, rest)
                } else if word.bytes() == b"--version".as_slice() {
                    alone(Request::Version, rest)
                } else if word.bytes() == b"--table".as_slice() {
                    table(rest)
                } else {
                    match option_text(b"--groups=", word.bytes()) {
                        Some(path) => keys(Some(path), rest),
                        None => keys(None, words),
                    }
                }
            }
        }
    }
}

/// The request, where no word follows it.
fn alone<'a>(request: Request<'a>, rest: &[Bytes]) -> Option<Request<'a>>
    ensures { option_map request_meaning result
        ≡ alone_of (request_meaning request.entry) rest.now }
{
    match rest {
        [] => Some(request),
        _ => None,
    }
}

/// The keys of the libraries that the words name.
fn keys<'a>(groups: Option<&'a [u8]>, words: &'a [Bytes]) -> Option<Request<'a>>
    ensures { option_map request_meaning result ≡ keys_of (option_copied groups.entry) words.now }
{
    match Libraries::read(words) {
        Some(libraries) => Some(Request::Keys(groups, libraries)),
        None => None,
    }
}

/// The table of the libraries that the words after `--table` name.
fn table<'a>(words: &'a [Bytes]) -> Option<Request<'a>>
    ensures { option_map request_meaning result ≡ table_of words.now }
{
    match words {
        [] => None,
        [word, rest @ ..] => match option_text(b"--groups=", word.bytes()) {
            Some(path) => numbers(Some(path), rest),
            None => numbers(None, words),
        },
    }
}

/// The table of the libraries that the words name.
fn numbers<'a>(groups: Option<&'a [u8]>, words: &'a [Bytes]) -> Option<Request<'a>>
    ensures { option_map request_meaning result ≡ numbers_of (option_copied groups.entry) words.now }
{
    match Libraries::read(words) {
        Some(libraries) => Some(Request::Table(groups, libraries)),
        None => None,
    }
}
