//! Passes at work on one, two and four threads.
ghost use Rattle.std.specs.Thread.{IsSync};
ghost use Rattle.catalogue_lock.specs.Tokens.{IsPassOf};

use crate::numbers::Numbers;
use catalogue_lock::desk::Desk;
use catalogue_lock::pass::Pass;
use std::alloc::Global;
use std::sync::Wait;
use std::thread::{Threads, join};
use union_base::memory::Memory;

/// The pass, after `turns` turns.
fn one<R: Wait>(
    rt: &R,
    alloc: Global,
    desk: &Desk<Numbers>,
    mut pass: Pass<Numbers>,
    turns: u64,
) -> Pass<Numbers>
    requires { IsPassOf pass desk.now }
    ensures { IsPassOf result desk.now }
{
    for k in 0..turns {
        let _ = desk.turn(alloc, rt, &mut pass, k);
    }
    pass
}

/// Two passes, after `turns` turns of each.
fn two<R: Threads + Wait + Sync>(
    rt: &R,
    alloc: Global,
    desk: &Desk<Numbers>,
    a: Pass<Numbers>,
    b: Pass<Numbers>,
    turns: u64,
) -> (Pass<Numbers>, Pass<Numbers>)
    requires { IsPassOf a desk.now × IsPassOf b desk.now }
    ensures { IsPassOf result.0 desk.now × IsPassOf result.1 desk.now }
{
    join(
        rt,
        || one(rt, alloc, desk, a, turns),
        || one(rt, alloc, desk, b, turns),
    )
}

/// The first of four passes, after `turns` turns of each.
fn four<R: Threads + Wait + Sync>(
    rt: &R,
    alloc: Global,
    desk: &Desk<Numbers>,
    first: (Pass<Numbers>, Pass<Numbers>),
    second: (Pass<Numbers>, Pass<Numbers>),
    turns: u64,
) -> Pass<Numbers>
    requires first { IsPassOf first.0 desk.now × IsPassOf first.1 desk.now }
    requires second { IsPassOf second.0 desk.now × IsPassOf second.1 desk.now }
    ensures { IsPassOf result desk.now }
{
    let (a, b) = first;
    let (c, d) = second;
    let ((a, _b), _others) = join(
        rt,
        ||
            requires { IsSync R.row × IsPassOf a desk.now × IsPassOf b desk.now }
            ensures { IsPassOf result.0 desk.entry.now × IsPassOf result.1 desk.entry.now }
        { two(rt, alloc, desk, a, b, turns) },
        ||
            requires { IsSync R.row × IsPassOf c desk.now × IsPassOf d desk.now }
            ensures { IsPassOf result.0 desk.entry.now × IsPassOf result.1 desk.entry.now }
        { two(rt, alloc, desk, c, d, turns) },
    );
    a
}

/// A desk, `turns` turns on each of one, two or four threads, and the number of finished turns.
pub fn run<R: Threads + Wait + Sync>(
    rt: &R,
    alloc: Global,
    threads: u64,
    turns: u64,
) -> Result<u64, Memory> {
    let machine = Numbers {
        entries: Vec::new(alloc),
    };
    let (desk, mut root) = Desk::open(alloc, machine)?;
    let a = desk.make_pass(&mut root);
    let b = desk.make_pass(&mut root);
    let c = desk.make_pass(&mut root);
    let d = desk.make_pass(&mut root);
    let mut last = match threads {
        1 => one(rt, alloc, &desk, a, turns),
        2 => two(rt, alloc, &desk, a, b, turns).0,
        _ => four(rt, alloc, &desk, (a, b), (c, d), turns),
    };
    Ok(desk.glance(&mut last))
}
