//! What no clause says: worked records from a file to the texts, over files in memory with each fault in turn.
use crate::records::{EXPORT, ONE, OTHER, OTHER_EXPORT, WITHDRAWAL};
use crate::runs::{Files, calm, ends, library};
use crate::texts::{joined, words_between};
use key_hashing::hashing::Hashing;
use std::test::Fail;
use union_base::bytes::Bytes;
use union_base::library_code::LibraryCode;
use union_io::gate::OpenGate;
use union_io::sure_shelf::SureShelf;
use union_io::sure_sink::SureSink;
use union_io::sure_source::SureSource;
use union_program::host::Host;
use union_program::run::union_run;
use union_watch::check::check_run;
use union_words::status::Status;

/// The record `id` with the title `Dog`, and with a blank coding.
const DOG: &[u8; 114] =
    b"00114nam a2200061 a 4500001000300000008004100003245000800044\x1Eid\x1E240101s1999    xx                  eng d\x1E00\x1FaDog\x1E\x1D";

const BLANK: &[u8; 114] =
    b"00114nam  2200061 a 4500001000300000008004100003245000800044\x1Eid\x1E240101s1999    xx                  eng d\x1E00\x1FaCat\x1E\x1D";

/// Records that break a rule: a byte above ASCII under a blank coding, and one that is no UTF-8.
const MARC8: &[u8; 114] =
    b"00114nam  2200061 a 4500001000300000008004100003245000800044\x1Eid\x1E240101s1999    xx                  eng d\x1E00\x1FaC\xE9t\x1E\x1D";

const LATIN1: &[u8; 114] =
    b"00114nam a2200061 a 4500001000300000008004100003245000800044\x1Eid\x1E240101s1999    xx                  eng d\x1E00\x1FaC\xE9t\x1E\x1D";

/// The record with a field 008 that begins in the one before it, with its directory in another order, and with two wrong
/// digits in it.
const SHORT: &[u8; 114] =
    b"00114nam a2200061 a 4500001000300000008004100002245000800044\x1Eid\x1E240101s1999    xx                  eng d\x1E00\x1FaCat\x1E\x1D";

const TURNED: &[u8; 114] =
    b"00114nam a2200061 a 4500245000800044001000300000008004100003\x1Eid\x1E240101s1999    xx                  eng d\x1E00\x1FaCat\x1E\x1D";

const WRONG: &[u8; 114] =
    b"00114nam a2200061 a 45000!100030000000800a100003245000800044\x1Eid\x1E240101s1999    xx                  eng d\x1E00\x1FaCat\x1E\x1D";

/// The first 50 bytes of the record.
const CUT: &[u8; 50] = b"00114nam a2200061 a 450000100030000000800410000324";

/// The export of the one with the title `Dog`, as LIBA's.
const DOG_EXPORT: &[u8; 192] =
    b"00192nam a2200097 a 4500001000800000003000600008008004100014245000800055991001800063993001300081\x1ELIBA.id\x1EUNION\x1E240101s1999    xx                  eng d\x1E00\x1FaDog\x1E  \x1Fadog///LIBA.id\x1E  \x1FaLIBA\x1Fbid\x1E\x1D";

/// The reports of LIBA where no record, one and two were loaded.
const EMPTY: &[u8; 62] = b"LIBA frames 0 added 0 replaced 0 removed 0 absent 0 refused 0\n";

const REPORT: &[u8; 62] = b"LIBA frames 1 added 1 replaced 0 removed 0 absent 0 refused 0\n";

const TWO: &[u8; 62] = b"LIBA frames 2 added 2 replaced 0 removed 0 absent 0 refused 0\n";

/// The report and the findings of LIBA where the one frame was refused.
const REFUSED: &[u8; 62] = b"LIBA frames 1 added 0 replaced 0 removed 0 absent 0 refused 1\n";

const FOUND: &[u8; 42] = b"LIBA frames 1 load 0 withdraw 0 refused 1\n";

#[test]
fn records_are_exported(rt: HostRuntime) -> Result<(), Fail> {
    for content in [ONE, BLANK, TURNED] {
        for most in [4096, 1] {
            let files = Files {
                most,
                ..calm(content, b"", b"")
            };
            assert!(rt;
                ends(
                    &rt,
                    rt.alloc(),
                    b"export LIBA=a",
                    &files,
                    Status::Done,
                    (EXPORT, REPORT)
                )?
            );
        }
    }
    Ok(())
}

/// Files in three parts, their exports in two, and the reports.
const FILES: [([&[u8]; 3], [&[u8]; 2], &[u8]); 6] = [
    ([b"", b"", b""], [b"", b""], EMPTY),
    ([b"\r\n", b"", b""], [b"", b""], EMPTY),
    ([b"\r\n", b"\r\n", b""], [b"", b""], EMPTY),
    (
        [ONE, DOG, b""],
        [DOG_EXPORT, b""],
        b"LIBA frames 2 added 1 replaced 1 removed 0 absent 0 refused 0\n",
    ),
    ([OTHER, ONE, b""], [EXPORT, OTHER_EXPORT], TWO),
    ([ONE, b"\r\n", OTHER], [EXPORT, OTHER_EXPORT], TWO),
];

#[test]
fn files_are_exported(rt: HostRuntime) -> Result<(), Fail> {
    let alloc = rt.alloc();
    for (parts, exports, report) in FILES {
        let content = joined(alloc, &parts)?;
        let text = joined(alloc, &exports)?;
        assert!(rt;
            ends(
                &rt,
                alloc,
                b"export LIBA=a",
                &calm(content.as_slice(), b"", b""),
                Status::Done,
                (text.as_slice(), report)
            )?
        );
    }
    Ok(())
}

/// Files in two parts, the line on their refused frame, their export, and the last lines of the report and of the findings.
const FAULTY: [([&[u8]; 2], &[u8], &[u8], &[u8], &[u8]); 5] = [
    (
        [SHORT, b""],
        b"LIBA refused 1 Tiling 2\n",
        b"",
        REFUSED,
        FOUND,
    ),
    (
        [WRONG, b""],
        b"LIBA refused 1 EntryDigits 2\n",
        b"",
        REFUSED,
        FOUND,
    ),
    (
        [MARC8, b""],
        b"LIBA refused 1 Coding 3\n",
        b"",
        REFUSED,
        FOUND,
    ),
    (
        [LATIN1, b""],
        b"LIBA refused 1 NotUtf8 3\n",
        b"",
        REFUSED,
        FOUND,
    ),
    (
        [ONE, CUT],
        b"LIBA refused 2 Truncated 0\n",
        EXPORT,
        b"LIBA frames 2 added 1 replaced 0 removed 0 absent 0 refused 1\n",
        b"LIBA frames 2 load 1 withdraw 0 refused 1\n",
    ),
];

#[test]
fn refused_frames_are_told(rt: HostRuntime) -> Result<(), Fail> {
    let alloc = rt.alloc();
    for (parts, line, export, counts, found) in FAULTY {
        let content = joined(alloc, &parts)?;
        let files = calm(content.as_slice(), b"", b"");
        let report = joined(alloc, &[line, counts])?;
        let findings = joined(alloc, &[line, found])?;
        assert!(rt;
            ends(
                &rt,
                alloc,
                b"export LIBA=a",
                &files,
                Status::DoneWithRefusals,
                (export, report.as_slice())
            )?
        );
        assert!(rt;
            ends(
                &rt,
                alloc,
                b"check LIBA=a",
                &files,
                Status::DoneWithRefusals,
                (findings.as_slice(), b"")
            )?
        );
    }
    Ok(())
}

#[test]
fn withdrawals_are_checked_and_exported(rt: HostRuntime) -> Result<(), Fail> {
    let files = calm(WITHDRAWAL, b"", b"");
    let findings = b"LIBA frames 1 load 0 withdraw 1 refused 0\n";
    assert!(rt;
        ends(
            &rt,
            rt.alloc(),
            b"check LIBA=a",
            &files,
            Status::Done,
            (findings, b"")
        )?
    );
    let report = b"LIBA frames 1 added 0 replaced 0 removed 0 absent 1 refused 0\n";
    assert!(rt;
        ends(
            &rt,
            rt.alloc(),
            b"export LIBA=a",
            &files,
            Status::Done,
            (b"", report)
        )?
    );
    Ok(())
}

#[test]
fn each_fault_has_its_status(rt: HostRuntime) -> Result<(), Fail> {
    let open = Files {
        opens: &[1],
        ..calm(ONE, b"", b"")
    };
    let out = Files {
        limit: 40,
        ..calm(ONE, b"", b"")
    };
    let findings = b"LIBA frames 1 load 1 withdraw 0 refused 0\n";
    for (line, text) in [
        (b"export LIBA=a".as_slice(), EXPORT.as_slice()),
        (b"check LIBA=a", findings),
    ] {
        let fault = Status::OpenFault(library(b"LIBA")?);
        assert!(rt;
            ends(
                &rt,
                rt.alloc(),
                line,
                &open,
                fault,
                (b"", b"union: cannot open LIBA\n")
            )?
        );
        for failing in [1, 2, 3] {
            let read = Files {
                reads: [&[failing], &[], &[]],
                most: 57,
                ..calm(ONE, b"", b"")
            };
            let fault = Status::ReadFault(library(b"LIBA")?);
            assert!(rt;
                ends(
                    &rt,
                    rt.alloc(),
                    line,
                    &read,
                    fault,
                    (b"", b"union: read failed in LIBA\n")
                )?
            );
        }
        assert!(rt;
            ends(
                &rt,
                rt.alloc(),
                line,
                &out,
                Status::WriteFault,
                (text.split_at(40).0, b"")
            )?
        );
    }
    Ok(())
}

#[test]
fn notes_that_cannot_be_written_have_a_status(rt: HostRuntime) -> Result<(), Fail> {
    let notes = Files {
        notes: &[1],
        ..calm(ONE, b"", b"")
    };
    assert!(rt;
        ends(
            &rt,
            rt.alloc(),
            b"export LIBA=a",
            &notes,
            Status::WriteFault,
            (EXPORT, b"")
        )?
    );
    Ok(())
}

/// Words in no form.
const NO_FORMS: [&[u8]; 12] = [
    b"",
    b"export",
    b"export LIBA=a LIBA=a",
    b"export LIBA=a LIBA=b",
    b"export --workers=0 LIBA=a",
    b"export --workers=01 LIBA=a",
    b"export liba=a",
    b"export LIBA=",
    b"check LIBA=a LIBB=a",
    b"merge LIBA=a",
    b"--help LIBA=a",
    b"\xFF",
];

#[test]
fn other_words_are_refused(rt: HostRuntime) -> Result<(), Fail> {
    let files = calm(ONE, ONE, ONE);
    let told = b"union: bad command line\n";
    for line in NO_FORMS {
        assert!(rt; ends(&rt, rt.alloc(), line, &files, Status::Usage, (b"", told))?);
    }
    let version = b"union 0.4.0\n";
    assert!(rt;
        ends(
            &rt,
            rt.alloc(),
            b"--version",
            &files,
            Status::Done,
            (version, b"")
        )?
    );
    Ok(())
}

/// Lines of words whose runs over a sure file `a` are done; a sure shelf has each other file too, and it is empty.
const SURE: [&[u8]; 4] = [
    b"export LIBA=a",
    b"export LIBA=a LIBB=b",
    b"check LIBA=a",
    b"--help",
];

#[test]
fn sure_files_end_done(rt: HostRuntime) -> Result<(), Fail> {
    let alloc = rt.alloc();
    for line in SURE {
        let mut shelf = SureShelf::new(alloc);
        shelf.put(Bytes::of(alloc, b"a")?, Bytes::of(alloc, ONE)?, 10)?;
        let words = words_between(alloc, line, b' ')?;
        let host = Host {
            rt: &rt,
            alloc,
            hashing: Hashing::fixed(),
            gate: &OpenGate,
        };
        let ended = union_run(
            &host,
            words.as_slice(),
            &mut shelf,
            &mut SureSink::new(),
            &mut SureSink::new(),
        );
        assert!(rt; ended == Status::Done);
    }
    let library = LibraryCode::read(b"LIBA").ok_or("a code")?;
    let mut source = SureSource::of(Bytes::of(alloc, LATIN1)?, 1);
    assert!(rt;
        check_run(alloc, &library, &mut source, &mut SureSink::new()) == Status::DoneWithRefusals
    );
    Ok(())
}
