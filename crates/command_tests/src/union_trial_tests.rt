//! What no clause says of a trial: draws, frames and lines, as a script of another kind worked them out.
ghost use Rattle.std.specs.Prelude.{◌≤◌};
ghost use Rattle.union_words.specs.Numbers.{most_generated};

use key_hashing::hashing::Hashing;
use load_sessions::crew::Crew;
use std::alloc::{AllocError, Global};
use std::test::Fail;
use std::thread::Threads;
use union_base::library_code::LibraryCode;
use union_io::mem_sink::MemSink;
use union_trial::draws::Draws;
use union_trial::generator::Generator;
use union_trial::operations::operation;
use union_trial::trial::trial_run;
use union_words::status::Status;

#[test]
fn first_draws(rt: HostRuntime) -> Result<(), Fail> {
    let cases = [
        (0, 1, [7, 0, 1, 0, 1992, 3]),
        (7, 10, [8, 1, 33, 1, 1991, 19]),
        (u64::MAX, 4, [8, 3, 5, 0, 1990, 3]),
    ];
    for (seed, count, want) in cases {
        let mut generator = Generator { state: seed };
        let d = generator.draws(count);
        assert_eq!(rt; [d.op, d.control, d.title, d.name, d.year, d.number], want);
    }
    Ok(())
}

/// A load and a withdrawal: the frame is what the operation leaves in the buffer.
#[test]
fn frames(rt: HostRuntime) -> Result<(), Fail> {
    let library = LibraryCode::read(b"T0").ok_or("a code")?;
    let loaded =
        b"00193nam a2200085 a 4500001000900000008004100009020001800050100002000068245001900088\x1E00000012\x1E240101s1991    xx                  eng d\x1E  \x1Fa9780306406157\x1E1 \x1FaAuthor 00000007\x1E00\x1FaTitle 00199999\x1E\x1D";
    let withdrawn = b"00047dam a2200037 a 4500001000900000\x1E00000012\x1E\x1D";
    let mut frame = Vec::new(rt.alloc());
    for (op, want) in [(3, loaded.as_slice()), (0, withdrawn.as_slice())] {
        let draws = Draws {
            op,
            control: 12,
            title: 199_999,
            name: 7,
            year: 1991,
            number: 30_640_615,
        };
        operation(rt.alloc(), &library, &draws, &mut frame)?;
        assert_eq!(rt; frame.as_slice(), want);
    }
    Ok(())
}

/// A trial by `workers` workers, whose output takes `limit` bytes: its status, and what it wrote.
fn trial<R: Threads + Sync>(
    rt: &R,
    alloc: Global,
    seed: u64,
    count: u32,
    workers: u32,
    limit: usize,
) -> Result<(Status, MemSink), AllocError>
    requires some { 1 ≤ count }
    requires most { count ≤ most_generated }
    requires some_worker { 1 ≤ workers }
    requires most_workers { workers ≤ 64 }
{
    let room = Vec::with_capacity(alloc, 256)?;
    let mut out = MemSink::new(Vec::new(alloc), room, limit);
    let crew = Crew {
        workers,
        hashing: Hashing::fixed(),
        prepares: true,
    };
    let status = trial_run(rt, alloc, seed, count, crew, &mut out);
    Ok((status, out))
}

#[test]
fn lines(rt: HostRuntime) -> Result<(), Fail> {
    let cases: [(u64, u32, u32, &[u8]); 6] = [
        (
            0,
            1,
            1,
            b"frames 1 records 1 editions 1 works 1 bytes 290\n",
        ),
        (
            7,
            10,
            1,
            b"frames 10 records 6 editions 6 works 5 bytes 1740\n",
        ),
        (
            7,
            100,
            64,
            b"frames 100 records 72 editions 67 works 67 bytes 19575\n",
        ),
        (
            u64::MAX,
            800,
            3,
            b"frames 800 records 614 editions 552 works 552 bytes 161878\n",
        ),
        (
            7,
            3000,
            1,
            b"frames 3000 records 2286 editions 2073 works 2073 bytes 607347\n",
        ),
        (
            7,
            3000,
            4,
            b"frames 3000 records 2286 editions 2073 works 2073 bytes 607347\n",
        ),
    ];
    for (seed, count, workers, want) in cases {
        let (status, out) = trial(&rt, rt.alloc(), seed, count, workers, 256)?;
        assert_eq!(rt; status, Status::Done);
        assert_eq!(rt; out.content(), want);
    }
    Ok(())
}

#[test]
fn output_that_fails(rt: HostRuntime) -> Result<(), Fail> {
    let (status, out) = trial(&rt, rt.alloc(), 0, 1, 1, 10)?;
    assert_eq!(rt; status, Status::WriteFault);
    assert_eq!(rt; out.content(), b"frames 1 r".as_slice());
    Ok(())
}
