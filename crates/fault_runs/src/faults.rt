//! Runs in which chosen calls on files and outputs fail.
use crate::files::{Files, NONE, run};
use crate::report::add_ended;
use std::alloc::Global;
use std::sync::Wait;
use std::thread::Threads;
use union_base::memory::Memory;
use union_io::gate::OpenGate;

/// The longest script, in bytes.
const LONGEST_SCRIPT: usize = 1_048_576;

/// A run: its name, its words, and what fails.
type Case<'a> = (&'a [u8], &'a [u8], Files<'a>);

const EXPORT: &[u8] = b"export --workers=1 LIBA=a LIBB=b";

/// Each kind of fault, and which of two is told.
const CASES: [Case<'static>; 12] = [
    (b"export, nothing fails", EXPORT, NONE),
    (
        b"export, open 1",
        EXPORT,
        Files {
            opens: &[1],
            ..NONE
        },
    ),
    (
        b"export, open 2",
        EXPORT,
        Files {
            opens: &[2],
            ..NONE
        },
    ),
    (
        b"export, read 1 of LIBA",
        EXPORT,
        Files {
            reads: [&[1], &[]],
            ..NONE
        },
    ),
    (
        b"export, read 2 of LIBA",
        EXPORT,
        Files {
            reads: [&[2], &[]],
            ..NONE
        },
    ),
    (
        b"export, read 3 of LIBA",
        EXPORT,
        Files {
            reads: [&[3], &[]],
            ..NONE
        },
    ),
    (
        b"export, read 1 of both",
        EXPORT,
        Files {
            reads: [&[1], &[1]],
            ..NONE
        },
    ),
    (
        b"export, write 1 of out",
        EXPORT,
        Files { out: &[1], ..NONE },
    ),
    (
        b"export, write 1 of notes",
        EXPORT,
        Files {
            notes: &[1],
            ..NONE
        },
    ),
    (
        b"no library, write 1 of notes",
        b"export",
        Files {
            notes: &[1],
            ..NONE
        },
    ),
    (
        b"watch, open 1",
        b"watch --ask=q LIBA=a",
        Files {
            opens: &[1],
            ..NONE
        },
    ),
    (
        b"script, read 1 of LIBB",
        b"script s",
        Files {
            script: b"load LIBA a\nload LIBB b\n",
            reads: [&[], &[1]],
            ..NONE
        },
    ),
];

/// The names and the lengths of scripts of one comment.
const LONG_SCRIPTS: [(&[u8], usize); 2] = [
    (b"script, a comment of 1,048,576 bytes", LONGEST_SCRIPT),
    (b"script, one byte more", LONGEST_SCRIPT + 1),
];

/// Adds how the runs with faults ended.
pub fn tell_faults<R: Threads + Wait + Sync>(
    rt: &R,
    alloc: Global,
    text: &mut Vec<u8>,
) -> Result<(), Memory> {
    for (name, line, files) in CASES {
        let ended = run(rt, alloc, line, &files, &OpenGate)?;
        add_ended(text, name, &ended)?;
    }
    for (name, length) in LONG_SCRIPTS {
        let script = vec![in alloc; b'#'; length]?;
        let files = Files {
            script: script.as_slice(),
            ..NONE
        };
        let ended = run(rt, alloc, b"script s", &files, &OpenGate)?;
        add_ended(text, name, &ended)?;
    }
    Ok(())
}
