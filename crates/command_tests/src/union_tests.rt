//! What no clause says of the export of records that leave no room, and of several libraries: each fault in turn, over files in
//! memory.
use crate::records::{EXPORT, ONE, OTHER, OTHER_EXPORT};
use crate::runs::{Files, calm, ends, library, run};
use crate::texts::joined;
use std::alloc::{AllocError, Global};
use std::test::Fail;
use union_io::gate::OpenGate;
use union_words::status::Status;

/// The leader and the directory of a record of 99,999 bytes, and its first three fields. Ten fields 500 stand after them.
const LARGEST_FRONT: &[u8; 233] =
    b"99999nam a2200181 a 4500001000300000008004100003245000800044500999900052500999910051500999920050500999930049500999940048500999950047500999960046500999970045500999980044500977490043\x1Eid\x1E240101s1999    xx                  eng d\x1E00\x1FaCat\x1E";

/// Adds a field 500 whose one subfield has the byte `count` times.
fn add_note(text: &mut Vec<u8>, byte: u8, count: u32) -> Result<(), AllocError> {
    text.extend_from_slice(b"  \x1Fa")?;
    for _ in 0..count {
        text.push(byte)?;
    }
    text.push(0x1E)?;
    Ok(())
}

/// A record of 99,999 bytes, or more where its last field has more than 9,769 bytes of text, with that text after it.
fn largest(alloc: Global, last: u32, tail: &[u8]) -> Result<Vec<u8>, AllocError> {
    let mut text = LARGEST_FRONT.to_vec(alloc)?;
    for byte in *b"abcdefghi" {
        add_note(&mut text, byte, 9_994)?;
    }
    add_note(&mut text, b'j', last)?;
    text.push(0x1D)?;
    text.extend_from_slice(tail)?;
    Ok(text)
}

#[test]
fn fields_that_do_not_fit_are_left_out(rt: HostRuntime) -> Result<(), Fail> {
    let record = largest(rt.alloc(), 9_769, b"")?;
    assert_eq!(rt; record.len(), 99_999);
    let files = calm(record.as_slice(), b"", b"");
    let (ended, out, notes) = run(&rt, rt.alloc(), b"export LIBA=a", &files, &OpenGate)?;
    assert!(rt; ended == Status::Done);
    assert_eq!(rt; out.content().len(), 90_291);
    let report = b"LIBA frames 1 added 1 replaced 0 removed 0 absent 0 refused 0\nleft LIBA.id 1\n";
    assert!(rt; notes.content() == report.as_slice());
    Ok(())
}

#[test]
fn longer_record_is_refused(rt: HostRuntime) -> Result<(), Fail> {
    let records = largest(rt.alloc(), 9_770, ONE)?;
    let files = calm(records.as_slice(), b"", b"");
    let report =
        b"LIBA refused 1 TooLong 0\nLIBA frames 2 added 1 replaced 0 removed 0 absent 0 refused 1\n";
    assert!(rt;
        ends(
            &rt,
            rt.alloc(),
            b"export LIBA=a",
            &files,
            Status::DoneWithRefusals,
            (EXPORT, report)
        )?
    );
    Ok(())
}

/// Words that name a file of which a read fails or that is not there, whether it is not there, and what is told.
const FAULTS: [(&[u8], bool, &[u8]); 5] = [
    (
        b"export LIBA=a LIBB=b LIBC=c",
        false,
        b"union: read failed in LIBB\n",
    ),
    (
        b"export LIBA=a LIBB=x LIBC=c",
        true,
        b"union: cannot open LIBB\n",
    ),
    (b"export LIBA=b LIBB=x", true, b"union: cannot open LIBB\n"),
    (
        b"follow --ask=c LIBA=a LIBB=b",
        false,
        b"union: read failed in LIBB\n",
    ),
    (
        b"follow --ask=c LIBA=a LIBB=x",
        true,
        b"union: cannot open LIBB\n",
    ),
];

#[test]
fn each_fault_of_a_library_has_its_status(rt: HostRuntime) -> Result<(), Fail> {
    let alloc = rt.alloc();
    let failing = Files {
        reads: [&[], &[2], &[]],
        most: 50,
        ..calm(ONE, OTHER, b"")
    };
    let libb = library(b"LIBB")?;
    for (line, missing, told) in FAULTS {
        let status = if missing {
            Status::OpenFault(libb)
        } else {
            Status::ReadFault(libb)
        };
        assert!(rt; ends(&rt, alloc, line, &failing, status, (b"", told))?);
    }
    let two = joined(alloc, &[ONE, b"\r\n", OTHER])?;
    let both = joined(alloc, &[EXPORT, OTHER_EXPORT])?;
    assert_eq!(rt; both.len(), 384);
    let narrow = Files {
        limit: 200,
        ..calm(two.as_slice(), b"", b"")
    };
    let front = both.as_slice().split_at(200).0;
    assert!(rt;
        ends(
            &rt,
            alloc,
            b"export LIBA=a",
            &narrow,
            Status::WriteFault,
            (front, b"")
        )?
    );
    Ok(())
}

/// The words that load two files one after the other, in each order, and what is written of the turns and of one question.
const FOLLOWED: [(&[u8], &[u8], &[u8]); 2] = [
    (
        b"follow --ask=c LIBA=a LIBB=b",
        b"turn 000001 LIBA 1\nturn 000002 LIBB 1\nreply 000002 count\neditions 2 works 2 records 2\n",
        b"LIBA frames 1 added 1 replaced 0 removed 0 absent 0 refused 0\nLIBB frames 1 added 1 replaced 0 removed 0 absent 0 refused 0\n",
    ),
    (
        b"follow --ask=c LIBB=b LIBA=a",
        b"turn 000001 LIBB 1\nturn 000002 LIBA 1\nreply 000002 count\neditions 2 works 2 records 2\n",
        b"LIBB frames 1 added 1 replaced 0 removed 0 absent 0 refused 0\nLIBA frames 1 added 1 replaced 0 removed 0 absent 0 refused 0\n",
    ),
];

#[test]
fn libraries_are_followed_in_the_order_of_the_words(rt: HostRuntime) -> Result<(), Fail> {
    let files = calm(ONE, OTHER, b"count");
    for (line, out, notes) in FOLLOWED {
        assert!(rt; ends(&rt, rt.alloc(), line, &files, Status::Done, (out, notes))?);
    }
    Ok(())
}
