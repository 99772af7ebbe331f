//! What no clause says of MARC in JSON: a worked record written as a line and read again, its export, refused lines, and each fault
//! in turn.
use crate::records::{LINE, ONE};
use crate::runs::{Files, calm, ends, library};
use std::test::Fail;
use union_words::status::Status;

/// The export of `ONE` as LIBA's.
const EXPORT_LINE: &[u8] =
    b"{\"fields\":[{\"001\":\"LIBA.id\"},{\"003\":\"UNION\"},{\"008\":\"240101s1999    xx                  eng d\"},{\"245\":{\"ind1\":\"0\",\"ind2\":\"0\",\"subfields\":[{\"a\":\"Cat\"}]}},{\"991\":{\"ind1\":\" \",\"ind2\":\" \",\"subfields\":[{\"a\":\"cat///LIBA.id\"}]}},{\"993\":{\"ind1\":\" \",\"ind2\":\" \",\"subfields\":[{\"a\":\"LIBA\"},{\"b\":\"id\"}]}}],\"leader\":\"00000nam a2200000 a 4500\"}\n";

/// After an empty line a record whose field 008 is too short.
const NO_DATE: &[u8] =
    b"\n{\"fields\":[{\"001\":\"id\"},{\"008\":\"240101s199\"},{\"245\":{\"ind1\":\"0\",\"ind2\":\"0\",\"subfields\":[{\"a\":\"Cat\"}]}}],\"leader\":\"00000nam a2200000 a 4500\"}\n";

/// Words, the file `a`, how the run ends, and what it writes on its two outputs.
const RUNS: [(&[u8], &[u8], Status, &[u8], &[u8]); 9] = [
    (
        b"tojson LIBA=a",
        ONE,
        Status::Done,
        LINE,
        b"LIBA frames 1 written 1 refused 0\n",
    ),
    (
        b"tojson LIBA=a",
        b"",
        Status::Done,
        b"",
        b"LIBA frames 0 written 0 refused 0\n",
    ),
    (
        b"tojson LIBA=a",
        LINE,
        Status::DoneWithRefusals,
        b"",
        b"LIBA refused 1 Truncated 0\nLIBA frames 1 written 0 refused 1\n",
    ),
    (
        b"fromjson LIBA=a",
        LINE,
        Status::Done,
        ONE,
        b"LIBA lines 1 written 1 refused 0\n",
    ),
    (
        b"fromjson LIBA=a",
        b"\n\r\n",
        Status::Done,
        b"",
        b"LIBA lines 0 written 0 refused 0\n",
    ),
    (
        b"fromjson LIBA=a",
        b"{\n{\"leader\":1}\n",
        Status::DoneWithRefusals,
        b"",
        b"LIBA refused 1 Json 0\nLIBA refused 2 Shape 0\nLIBA lines 2 written 0 refused 2\n",
    ),
    (
        b"fromjson LIBA=a",
        NO_DATE,
        Status::DoneWithRefusals,
        b"",
        b"LIBA refused 2 Fixed008 2\nLIBA lines 1 written 0 refused 1\n",
    ),
    (
        b"export --json LIBA=a",
        ONE,
        Status::Done,
        EXPORT_LINE,
        b"LIBA frames 1 added 1 replaced 0 removed 0 absent 0 refused 0\n",
    ),
    (
        b"export --workers=1 --json LIBA=a",
        b"",
        Status::Done,
        b"",
        b"LIBA frames 0 added 0 replaced 0 removed 0 absent 0 refused 0\n",
    ),
];

#[test]
fn records_and_lines_are_written(rt: HostRuntime) -> Result<(), Fail> {
    for (line, content, status, text, notes) in RUNS {
        for most in [4096, 7] {
            let files = Files {
                most,
                ..calm(content, b"", b"")
            };
            assert!(rt; ends(&rt, rt.alloc(), line, &files, status, (text, notes))?);
        }
    }
    Ok(())
}

/// Words, the file `a`, and the text that is written where nothing fails.
const CALM: [(&[u8], &[u8], &[u8]); 3] = [
    (b"tojson LIBA=a", ONE, LINE),
    (b"fromjson LIBA=a", LINE, ONE),
    (b"export --json LIBA=a", ONE, EXPORT_LINE),
];

#[test]
fn inputs_at_fault_have_their_status(rt: HostRuntime) -> Result<(), Fail> {
    for (line, content, _) in CALM {
        let open = Files {
            opens: &[1],
            ..calm(content, b"", b"")
        };
        let read = Files {
            reads: [&[2], &[], &[]],
            most: 57,
            ..calm(content, b"", b"")
        };
        for (files, status, told) in [
            (
                open,
                Status::OpenFault(library(b"LIBA")?),
                b"union: cannot open LIBA\n".as_slice(),
            ),
            (
                read,
                Status::ReadFault(library(b"LIBA")?),
                b"union: read failed in LIBA\n",
            ),
        ] {
            assert!(rt; ends(&rt, rt.alloc(), line, &files, status, (b"", told))?);
        }
    }
    Ok(())
}

#[test]
fn outputs_at_fault_have_their_status(rt: HostRuntime) -> Result<(), Fail> {
    for (line, content, text) in CALM {
        let out = Files {
            limit: 40,
            ..calm(content, b"", b"")
        };
        let notes = Files {
            notes: &[1],
            ..calm(content, b"", b"")
        };
        for (files, text) in [(out, text.split_at(40).0), (notes, text)] {
            assert!(rt;
                ends(
                    &rt,
                    rt.alloc(),
                    line,
                    &files,
                    Status::WriteFault,
                    (text, b"")
                )?
            );
        }
    }
    Ok(())
}
