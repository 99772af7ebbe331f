//! What no clause says of runs with a file of names: worked tables and what is told of them, and each fault of the file.
use crate::records::ONE;
use crate::runs::{Files, calm, ends};
use crate::texts::joined;
use std::test::Fail;
use union_words::input::Input;
use union_words::status::Status;

/// It establishes a name, and has another as a variant of it.
const DVORAK: &[u8; 132] =
    b"00132nz  a2200061n  4500001000300000100003600003400003100039\x1En1\x1E1 \x1FaDvo\xC5\x99\xC3\xA1k, Anton\xC3\xADn,\x1Fd1841-1904.\x1E1 \x1FaDvorak, Anton,\x1Fd1841-1904.\x1E\x1D";

/// It establishes another name, and has the same variant.
const MAX: &[u8; 125] =
    b"00125nz  a2200061n  4500001000300000100002900003400003100032\x1En2\x1E1 \x1FaDvorak, Max,\x1Fd1841-1904.\x1E1 \x1FaDvorak, Anton,\x1Fd1841-1904.\x1E\x1D";

/// A record of a library that has the variant.
const LETTERS: &[u8; 165] =
    b"00165nam a2200073 a 4500001000300000008004100003100003100044245001600075\x1Ew1\x1E240101s1999    xx                  eng d\x1E1 \x1FaDvorak, Anton,\x1Fd1841-1904.\x1E14\x1FaThe letters\x1E\x1D";

/// The work by the established name, and by the variant.
const ESTABLISHED: &[u8; 48] = b"work dvorak, antonin 1841 1904/letters\n LIBA.w1\n";

const VARIANT: &[u8; 46] = b"work dvorak, anton 1841 1904/letters\n LIBA.w1\n";

/// Records of names one after the other, how the run ends, the works, and what is told of the names.
const TABLES: [(&[&[u8]], Status, &[u8], &[u8]); 6] = [
    (
        &[],
        Status::Done,
        VARIANT,
        b"names frames 0 pairs 0 refused 0\n",
    ),
    (
        &[DVORAK],
        Status::Done,
        ESTABLISHED,
        b"names frames 1 pairs 1 refused 0\n",
    ),
    (
        &[DVORAK, MAX],
        Status::Done,
        VARIANT,
        b"names frames 2 pairs 0 refused 0\n",
    ),
    (
        &[MAX, DVORAK],
        Status::Done,
        VARIANT,
        b"names frames 2 pairs 0 refused 0\n",
    ),
    (
        &[ONE],
        Status::DoneWithRefusals,
        VARIANT,
        b"names refused 1 Kind 0\nnames frames 1 pairs 0 refused 1\n",
    ),
    (
        &[ONE, DVORAK, b"x"],
        Status::DoneWithRefusals,
        ESTABLISHED,
        b"names refused 1 Kind 0\nnames refused 3 Truncated 0\nnames frames 3 pairs 1 refused 2\n",
    ),
];

/// The report on the one library.
const LOADED: &[u8] = b"LIBA frames 1 added 1 replaced 0 removed 0 absent 0 refused 0\n";

#[test]
fn works_stand_under_established_names(rt: HostRuntime) -> Result<(), Fail> {
    let alloc = rt.alloc();
    for (records, status, works, told) in TABLES {
        let names = joined(alloc, records)?;
        let notes = joined(alloc, &[told, LOADED])?;
        let files = calm(LETTERS, names.as_slice(), b"");
        let texts = (works, notes.as_slice());
        assert!(rt; ends(&rt, alloc, b"works --names=b LIBA=a", &files, status, texts)?);
        let line = b"works --workers=2 --prefer=LIBA --names=b LIBA=a";
        assert!(rt; ends(&rt, alloc, line, &files, status, texts)?);
    }
    Ok(())
}

#[test]
fn questions_are_answered_by_names(rt: HostRuntime) -> Result<(), Fail> {
    let asks =
        b"work dvorak, antonin 1841 1904/letters\nwork dvorak, anton 1841 1904/letters\nid LIBA w1\n";
    let out =
        b"turn 000001 LIBA 1\nreply 000001 work dvorak, antonin 1841 1904/letters\nedition LIBA.w1\nreply 000001 work dvorak, anton 1841 1904/letters\nnone\nreply 000001 id LIBA w1\nedition LIBA.w1\nby LIBA.w1\nwork dvorak, antonin 1841 1904/letters\n";
    let notes = joined(rt.alloc(), &[b"names frames 1 pairs 1 refused 0\n", LOADED])?;
    let line = b"watch --ask=c --workers=1 --names=b LIBA=a";
    let files = calm(LETTERS, DVORAK, asks);
    let texts = (out.as_slice(), notes.as_slice());
    assert!(rt; ends(&rt, rt.alloc(), line, &files, Status::Done, texts)?);
    Ok(())
}

/// Words whose file of names or of questions is not there, or cannot be read, and what is told. No library is read, so the one that
/// is not there has no part in it.
const FAULTS: [(&[u8], Status, &[u8]); 6] = [
    (
        b"works --names=x LIBA=y",
        Status::OpenFault(Input::Names),
        b"union: cannot open names\n",
    ),
    (
        b"export --names=b --json LIBA=y",
        Status::ReadFault(Input::Names),
        b"union: read failed in names\n",
    ),
    (
        b"watch --ask=c --names=b LIBA=y",
        Status::ReadFault(Input::Names),
        b"union: read failed in names\n",
    ),
    (
        b"watch --ask=c --names=x LIBA=y",
        Status::OpenFault(Input::Names),
        b"union: cannot open names\n",
    ),
    (
        b"watch --ask=x --names=b LIBA=y",
        Status::OpenFault(Input::Asks),
        b"union: cannot open asks\n",
    ),
    (
        b"watch --ask=b --names=x LIBA=y",
        Status::ReadFault(Input::Asks),
        b"union: read failed in asks\n",
    ),
];

#[test]
fn names_are_read_before_libraries(rt: HostRuntime) -> Result<(), Fail> {
    let failing = Files {
        reads: [&[], &[1], &[]],
        ..calm(LETTERS, DVORAK, b"count")
    };
    for (line, status, told) in FAULTS {
        assert!(rt; ends(&rt, rt.alloc(), line, &failing, status, (b"", told))?);
    }
    Ok(())
}
