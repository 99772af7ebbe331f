//! The texts that the program has of its own: the answers to `--help` and `--version`, in plain ASCII and lines of at
//! most 80 characters.
ghost use Rattle.std.specs.Prelude.{◌≡◌};

/// The answer to `--version`.
pub const VERSION: &[u8] = b"union 0.4.0\n";

/// The answer to `--help`.
pub const HELP: &[u8] = b"\
union - a union catalogue of MARC 21 records

Checks a library's file of bibliographic records (ISO 2709), or loads the files
of up to 64 libraries and writes their union catalogue, its works, or answers
to questions. Writes records as MARC in JSON, and reads them back.

USAGE
    union check LIB=PATH         say which records of the file break a rule
    union tojson LIB=PATH        write the file's records as MARC in JSON
    union fromjson LIB=PATH      write a file of MARC in JSON as ISO 2709
    union export [--workers=N] [--prefer=LIB,..] [--names=PATH] [--json]
                 [--owners] LIB=PATH ..
                                 load the files and export the union catalogue
    union works [--workers=N] [--prefer=LIB,..] [--names=PATH] LIB=PATH ..
                                 load the files and list the works
    union watch --ask=PATH [--workers=N] [--prefer=LIB,..] [--names=PATH]
                LIB=PATH ..      load the files, and answer the questions of a
                                 file beside
    union follow --ask=PATH LIB=PATH ..
                                 load one file after the other, and answer the
                                 questions of a file without waiting for a turn
    union script PATH            run a script
    union trial SEED COUNT WORKERS
                                 generate COUNT records, load them and measure
                                 the catalogue
    union --help                 show this help
    union --version              show the program's name and version

    LIB is the library's code, 1 to 16 of A-Z and 0-9. PATH is the path of its
    file, at least one byte and UTF-8: everything after the first '='.
    A path is taken from the folder in which union runs, also one in a script.
    '-' is no file: standard input is /dev/stdin.
    export, works, watch and follow take 1 to 64 libraries, each under a code of
    its own. N workers load them at once, 1 to 64: without the option there are
    4. With --json the export is MARC in JSON. Options stand in the order above.
    With --owners each local field of an export (852, 856, 590-599, 900-999)
    comes once for each library that has it in a record of the edition, with a
    last subfield 5 that has the library's code. A local field that has a
    subfield 5 stays as it is, and so does one that has no room for it.
    --prefer has 1 to 64 different codes, the most trusted first. An edition has
    its leader and 008, and each of 005, 010, 040, 1XX, 240 and 245, of the one
    record that has it and whose library is named first; a library that is not
    named comes after all that are. Between records of one library, or of
    libraries that are not named, the encoding level decides and then 005, as
    without the option. A library may be named that is not loaded. What matches
    is the same with any preference, and so is all else that an edition shows.
    --names is a file of MARC 21 authority records. Where a name of an edition
    (100, 110, 111, 700, 710, 711) is a see-from heading in it (400, 410, 411),
    the key of the work has the heading that is established for it (100, 110,
    111), so the works of one person stand together. A see-from heading stays as
    it is where it is established itself or two headings are established for it,
    and is looked up once. Records of status d count for nothing. What matches
    is the same with any names.
    A record of status d withdraws the library's record with its control
    number; any other is loaded, in place of an earlier one.
    SEED is 0 to 18446744073709551615, COUNT 1 to 200000 and WORKERS 1 to 64,
    in decimal digits without sign and without leading zero.

SCRIPT
    load LIB PATH                load the file on top of what was loaded
    export                       write the export of the catalogue
    works                        write the list of works
    notices                      have each later load tell what it changed
    Any other line is a question. Lines are run one by one.

QUESTIONS
    id LIB CTL                   the edition that has this record
    isbn X                       the editions with this ISBN
    issn X                       the editions with this ISSN
    control (S)N                 the editions with this control number
    title T                      the editions with this title
    work K                       the editions of the work with this key
    holdings LIB CTL             who holds the edition of this record
    count                        how many editions, works and records there are

    A file of questions has one on each line. In it and in a script empty lines
    and lines that begin with '#' are passed over. A line in no such form writes
    'refused unknown' or 'refused word'.

WHAT GOES WHERE
    check     Standard output has a line 'LIB refused FRAME RULE PLACE' for each
              record that breaks a rule, then one line
              'LIB frames F load L withdraw W refused N'.
              Standard error has nothing.
    tojson    Standard output has each record that breaks no rule, as a line of
              MARC in JSON.
              Standard error has the refused records as check tells them, then
              'LIB frames F written W refused N'.
    fromjson  Standard output has the record of each line, as ISO 2709.
              Standard error has a line 'LIB refused LINE NAME PLACE' for each
              line that has no such record, then one line
              'LIB lines F written W refused N'. NAME is Json, Shape,
              LineTooLong, FieldTooLong, RecordTooLong or the name of a rule.
              Empty lines are passed over, and F does not count them.
    export    Standard output has the catalogue's records, as ISO 2709, or with
              --json as lines of MARC in JSON. Records that match are merged
              into one.
              Standard error has with --names first a line
              'names refused FRAME NAME PLACE' for each record of that file that
              is refused, then 'names frames F pairs P refused N': P see-from
              headings are looked up. NAME is Kind, Coding, NotUtf8, Heading or
              the name of a rule.
              Then it has, for each library in the order of the command, the
              refused records as check tells them, and
              'LIB frames F added A replaced R removed D absent X refused N'.
              Then it has a line 'left LIB.CTL N' for each exported record that
              had no room for N fields.
    works     Standard output has for each work a line 'work KEY', then for each
              of its editions a blank and LIB.CTL. Standard error is as with
              export, without the 'left' lines.
    watch     Standard output has for each batch of records, in the order in
              which they were loaded, a line 'turn T LIB N': the turn's number,
              the library, and how many records it loads or withdraws. After
              these it has for each question, in the order of the file, a line
              'reply T LINE' and the answer over the first T turns. The last
              question is asked when all is loaded, and with one worker so is
              each; the others are asked meanwhile.
              Standard error is as with works.
    follow    As watch, but the libraries are loaded one after the other, in the
              order of the command, and an answer is over the turns that were
              published when it was asked for. The last question is asked when
              all is loaded.
    script    Standard output has what each line writes: a load its report, a
              question its answer. After a line 'notices' each load first has
              for each of its turns a line 'notice T', the turn's number, and
              the editions that it closed and opened: a line 'closed LIB.CTL' or
              'opened LIB.CTL', and for each record a blank, its LIB.CTL and
              'to LIB.CTL' or 'gone', 'from LIB.CTL' or 'new'.
              Standard error has nothing.
    trial     Standard output has one line
              'frames F records R editions E works W bytes B': how many records
              were generated, how many of them are current, how many editions
              and works they make, and how many bytes the export has. It is the
              same for any WORKERS. Standard error has nothing.
    --help and --version write to standard output alone.

    With status 2, 3, 4, 6 or 7 standard error has one line that says why,
    unless a report was begun before. Standard output stays empty with status
    2, 3, 4 or 6; of a script it has what the lines before the fault wrote.

EXIT STATUS
    0    done
    1    done, and some records or lines were refused
    2    bad command line: the words are in none of the forms above
    3    cannot open: a file could not be opened
    4    read failed: a file could not be read to its end
    5    write failed: an output has a part of its text at most
    6    too long: a file has more than 1,099,511,627,776 bytes, or a script
         or a file of questions more than 1,048,576
    7    out of memory

EXAMPLES
    Which records of a file break a rule, and which rule:
        union check LIBA=liba.mrc
    The union catalogue of two libraries, and their reports, in two files:
        union export LIBA=liba.mrc LIBB=libb.mrc > union.mrc 2> report.txt
    The records of a file as lines of JSON, and back:
        union tojson LIBA=liba.mrc > liba.jsonl
        union fromjson LIBA=liba.jsonl > again.mrc
    The same, with the cataloguing of LIBB before that of all others:
        union export --prefer=LIBB LIBA=liba.mrc LIBB=libb.mrc > union.mrc
    The same union, where each local field tells whose it is:
        union export --owners LIBA=liba.mrc LIBB=libb.mrc > union.mrc
    The works of two libraries, by the established forms of names:
        union works --names=names.mrc LIBA=liba.mrc LIBB=libb.mrc
    Questions that are answered while two libraries are loaded:
        union watch --ask=questions.txt LIBA=liba.mrc LIBB=libb.mrc
    The same, with readers that never wait for a turn:
        union follow --ask=questions.txt LIBA=liba.mrc LIBB=libb.mrc
    What a night's script comes to:
        union script night.txt
    The measures of a catalogue of 20000 generated records:
        union trial 7 20000 4
    This help, a page at a time:
        union --help | less
    Which version this is:
        union --version
";

/// The text that `--version` writes. Takes no memory.
pub fn version_text() -> &'static [u8]
    ensures { result.now ≡ VERSION.now }
{
    VERSION
}

/// The text that `--help` writes. Takes no memory.
pub fn help_text() -> &'static [u8]
    ensures { result.now ≡ HELP.now }
{
    HELP
}
