//! What no clause says of a script: worked scripts, from their files to what is written, and each fault in turn, over files in
//! memory.
use crate::records::{BRIDGE, WITHDRAWAL};
use crate::runs::{library, put};
use crate::texts::joined;
use key_hashing::hashing::Hashing;
use std::alloc::Global;
use std::test::Fail;
use union_base::bytes::Bytes;
use union_base::memory::Memory;
use union_io::mem_shelf::MemShelf;
use union_io::mem_sink::MemSink;
use union_script::run::script_run;
use union_words::input::Input;
use union_words::status::Status;

/// Loads the three and withdraws the second, and asks before and after.
const BRIDGE_GOES: &[u8] =
    b"load LIBA abc\ncount\nload LIBA d\ncount\nwork hill, ann/red ships\nworks\n";

const BRIDGE_WENT: &[u8] =
    b"LIBA frames 3 added 3 replaced 0 removed 0 absent 0 refused 0\neditions 1 works 1 records 3\nLIBA frames 1 added 0 replaced 0 removed 1 absent 0 refused 0\neditions 2 works 1 records 2\nedition LIBA.a1\nedition LIBA.c1\nwork hill, ann/red ships\n LIBA.a1\n LIBA.c1\n";

/// Which reads of the file `d` fail, and how many bytes the output takes.
#[derive(Clone, Copy)]
struct Faults<'a> {
    failing: &'a [u64],
    limit: usize,
}

const NONE: Faults<'static> = Faults {
    failing: &[],
    limit: 4096,
};

/// The files `s`, a script, `abc` and `d`, of which a read gives 100 bytes.
fn shelf_of(alloc: Global, script: &[u8], faults: &Faults<'_>) -> Result<MemShelf, Memory> {
    let abc = joined(alloc, &BRIDGE)?;
    let mut shelf = MemShelf::new(alloc);
    put(alloc, &mut shelf, b"s", script, &[], 100)?;
    put(alloc, &mut shelf, b"abc", abc.as_slice(), &[], 100)?;
    put(alloc, &mut shelf, b"d", WITHDRAWAL, faults.failing, 100)?;
    Ok(shelf)
}

/// Runs the script of that name, and says whether the run ended so and wrote this.
fn ends(
    alloc: Global,
    name: &[u8],
    script: &[u8],
    faults: &Faults<'_>,
    status: Status,
    text: &[u8],
) -> Result<bool, Fail> {
    let mut shelf = shelf_of(alloc, script, faults)?;
    let mut out = MemSink::new(
        Vec::new(alloc),
        Vec::with_capacity(alloc, 4096)?,
        faults.limit,
    );
    let path = Bytes::of(alloc, name)?;
    let ended = script_run(alloc, Hashing::fixed(), &path, &mut shelf, &mut out);
    Ok(ended == status && out.content() == text)
}

#[test]
fn scripts_are_run(rt: HostRuntime) -> Result<(), Fail> {
    let alloc = rt.alloc();
    assert!(rt; ends(alloc, b"s", BRIDGE_GOES, &NONE, Status::Done, BRIDGE_WENT)?);
    assert!(rt; ends(alloc, b"s", b"# nothing\r\n\r\n", &NONE, Status::Done, b"")?);
    let refused =
        b"load\nexport x\nfind x\nload LIBA\nisbn 123\ncount 1\nisbn 9780306406157\nexport\n";
    let text =
        b"refused word\nrefused word\nrefused unknown\nrefused word\nrefused word\nrefused word\nnone\n";
    assert!(rt; ends(alloc, b"s", refused, &NONE, Status::DoneWithRefusals, text)?);
    Ok(())
}

#[test]
fn faults_end_a_script(rt: HostRuntime) -> Result<(), Fail> {
    let alloc = rt.alloc();
    let libb = library(b"LIBB")?;
    let count = b"editions 0 works 0 records 0\n";
    let fault = Status::OpenFault(Input::Script);
    assert!(rt; ends(alloc, b"t", b"", &NONE, fault, b"")?);
    let missing = b"count\nload LIBB x\ncount\n";
    assert!(rt; ends(alloc, b"s", missing, &NONE, Status::OpenFault(libb), count)?);
    let failing = Faults {
        failing: &[1],
        ..NONE
    };
    let failed = b"count\nload LIBB d\ncount\n";
    assert!(rt;
        ends(
            alloc,
            b"s",
            failed,
            &failing,
            Status::ReadFault(libb),
            count
        )?
    );
    let full = Faults { limit: 10, ..NONE };
    let twice = b"count\ncount\n";
    assert!(rt; ends(alloc, b"s", twice, &full, Status::WriteFault, b"editions 0")?);
    Ok(())
}
