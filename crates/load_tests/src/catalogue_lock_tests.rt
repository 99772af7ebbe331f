//! A desk over a machine that keeps a list of numbers, refuses scripted changes, and can hold one until a flag is set.
ghost use Rattle.std.specs.Prelude.{◌≡◌, ◌<◌, [], length, IfOk};
ghost use Rattle.std.proofs.Common.{arith};
ghost use Rattle.catalogue_lock.specs.Tokens.{root_of, IsPassOf, IsRootOf};

use catalogue_lock::desk::{Desk, TryRefusal};
use catalogue_lock::machine::Machine;
use catalogue_lock::pass::Pass;
use catalogue_lock::root::Root;
use std::alloc::Global;
use std::hint::spin_loop;
use std::sync::atomic::{AtomicBool, Ordering};
use std::sync::{Arc, Wait};
use std::test::Fail;
use std::thread::{Threads, join};
use union_base::memory::Memory;

/// How often a flag is looked at before a wait for it is given up.
const LOOKS: u64 = 200_000_000;

/// The change that the machine refuses.
const REFUSED: u64 = 13;

/// The change that the machine holds.
const HELD: u64 = 77;

fn wait_for(flag: &AtomicBool) -> bool {
    for _ in 0..LOOKS {
        if flag.load(Ordering::SeqCst) {
            return true;
        }
        spin_loop();
    }
    false
}

/// Two flags: the machine holds a change, and it may go on.
#[derive(Drop)]
struct Flags {
    holds: AtomicBool,
    goes_on: AtomicBool,
}

#[derive(Drop)]
struct Numbers {
    label: u64,
    entries: Vec<(u32, u64)>,
    flags: Arc<Flags>,
}

impl Machine for Numbers {
    type Setting = u64;

    type Change = u64;

    type Question = ();

    type Outcome = (u64, u64);

    type Answer = (u64, u64);

    ghost setting = { λ m. m.label };

    ghost entries = { λ m. m.entries.items };

    ghost spare = { 0 };

    ghost yields = { λ label entries number change outcome. (outcome.0 ≡ label) × (outcome.1 ≡ length entries) };

    ghost answers = { λ label entries question answer. (answer.0 ≡ label) × (answer.1 ≡ length entries) };

    ghost bounded = { λ m. Prim.omega (arith, m.entries.ok.0, m.entries.ok.1, m.entries.small) };

    fn apply(&mut self, _alloc: Global, number: u32, change: u64) -> Result<(u64, u64), Memory> {
        if change == REFUSED {
            return Err(Memory);
        }
        if change == HELD {
            self.flags.holds.store(true, Ordering::SeqCst);
            wait_for(&self.flags.goes_on);
        }
        let before = self.turns();
        self.entries.push((number, change))?;
        Ok((self.label, before))
    }

    fn ask(&self, _alloc: Global, _question: &()) -> Result<(u64, u64), Memory> {
        Ok((self.label, self.turns()))
    }

    fn turns(&self) -> u64 {
        self.entries.len() as u64
    }
}

fn empty_machine(alloc: Global, label: u64) -> Result<Numbers, Memory>
    ensures { IfOk result (λ m. m.entries.items ≡ []) }
{
    let flags = Flags {
        holds: AtomicBool::new(false),
        goes_on: AtomicBool::new(false),
    };
    Ok(Numbers {
        label,
        entries: Vec::new(alloc),
        flags: Arc::new(alloc, flags)?,
    })
}

#[test]
fn a_new_desk(rt: HostRuntime) -> Result<(), Fail> {
    let alloc = rt.alloc();
    let (desk, mut root) = Desk::open(alloc, empty_machine(alloc, 5)?)?;
    let mut pass = desk.make_pass(&mut root);
    let finished = desk.glance(&mut pass);
    assert!(rt; finished == 0);
    let turned = desk.turn(alloc, &rt, &mut pass, 40)?;
    assert!(rt; turned.turn == 1 && turned.outcome == (5, 0));
    let refused = desk.turn(alloc, &rt, &mut pass, REFUSED);
    assert!(rt; refused.is_err());
    let refused = desk.try_turn(alloc, &mut pass, REFUSED);
    assert!(rt; matches!(refused, Err(TryRefusal::Memory)));
    let (over, answer) = desk.ask(alloc, &rt, &mut pass, &())?;
    assert!(rt; over == 1 && answer == (5, 1));
    assert!(rt; pass.number() == 0 && root.made() == 1 && root.out() == 1);
    desk.end_pass(&mut root, pass);
    let out = root.out();
    assert!(rt; out == 0);
    let machine = desk.close(root);
    assert!(rt; machine.label == 5 && machine.entries.as_slice() == [(0, 40)].as_slice());
    Ok(())
}

fn turn_held<R: Wait>(
    rt: &R,
    alloc: Global,
    desk: &Desk<Numbers>,
    mut pass: Pass<Numbers>,
) -> (Pass<Numbers>, Option<u64>)
    requires { IsPassOf pass desk.now }
    ensures { IsPassOf result.0 desk.now }
{
    let turned = match desk.turn(alloc, rt, &mut pass, HELD) {
        Ok(turned) => Some(turned.turn),
        Err(Memory) => None,
    };
    (pass, turned)
}

fn try_beside(
    alloc: Global,
    desk: &Desk<Numbers>,
    mut pass: Pass<Numbers>,
    flags: &Flags,
) -> (Pass<Numbers>, Option<(u64, u64, u64)>)
    requires { IsPassOf pass desk.now }
    ensures { IsPassOf result.0 desk.now }
{
    wait_for(&flags.holds);
    let busy = match desk.try_turn(alloc, &mut pass, 78) {
        Err(
            TryRefusal::Busy {
                loaded,
                found,
                change,
            },
        ) => Some((loaded, found, change)),
        _ => None,
    };
    flags.goes_on.store(true, Ordering::SeqCst);
    (pass, busy)
}

#[test]
fn a_held_turn_is_busy(rt: HostRuntime) -> Result<(), Fail> {
    let alloc = rt.alloc();
    let machine = empty_machine(alloc, 0)?;
    let flags = Arc::try_clone(&machine.flags)?;
    let (desk, mut root) = Desk::open(alloc, machine)?;
    let first = desk.make_pass(&mut root);
    let second = desk.make_pass(&mut root);
    let ((_first, turned), (mut second, busy)) = join(
        &rt,
        || turn_held(&rt, alloc, &desk, first),
        || try_beside(alloc, &desk, second, &flags),
    );
    assert!(rt; turned == Some(1) && busy == Some((1, 1, 78)));
    let next = desk.try_turn(alloc, &mut second, 78)?;
    let finished = desk.glance(&mut second);
    assert!(rt; next.turn == 2 && finished == 2);
    Ok(())
}

/// `turns` turns with the changes from `from` on, with a question after each tenth. It answers how many turns and good answers there were.
fn work<R: Wait>(
    rt: &R,
    alloc: Global,
    desk: &Desk<Numbers>,
    mut pass: Pass<Numbers>,
    turns: u64,
    from: u64,
) -> (Pass<Numbers>, u64, u64)
    requires { IsPassOf pass desk.now }
    ensures { IsPassOf result.0 desk.now }
{
    let (mut done, mut answered) = (0, 0);
    for k in 0..turns {
        if desk
            .turn(alloc, rt, &mut pass, from.wrapping_add(k))
            .is_ok()
        {
            done += 1;
        }
        if k % 10 == 9
            && let Ok((over, (_, entries))) = desk.ask(alloc, rt, &mut pass, &())
            && over > k
            && over == entries
        {
            answered += 1;
        }
    }
    (pass, done, answered)
}

/// The machine has `turns` entries with the number, and their changes go up from `from`.
fn has_in_order(machine: &Numbers, number: u32, from: u64, turns: usize) -> bool {
    let mut next = from;
    let mut found = 0usize;
    for (n, change) in machine.entries.as_slice() {
        if *n == number {
            if *change != next {
                return false;
            }
            next = next.wrapping_add(1);
            found = found.wrapping_add(1);
        }
    }
    found == turns
}

#[test]
fn two_threads_leave_one_history(rt: HostRuntime) -> Result<(), Fail> {
    let alloc = rt.alloc();
    let (desk, mut root) = Desk::open(alloc, empty_machine(alloc, 0)?)?;
    let first = desk.make_pass(&mut root);
    let second = desk.make_pass(&mut root);
    let ((first, ..), (second, ..)) = join(
        &rt,
        || work(&rt, alloc, &desk, first, 200, 1000),
        || work(&rt, alloc, &desk, second, 200, 5000),
    );
    desk.end_pass(&mut root, second);
    desk.end_pass(&mut root, first);
    let out = root.out();
    assert!(rt; out == 0);
    let machine = desk.close(root);
    assert!(rt; machine.turns() == 400);
    assert!(rt; has_in_order(&machine, 0, 1000, 200) && has_in_order(&machine, 1, 5000, 200));
    Ok(())
}

/// A pass that is made, takes one turn, asks and is ended. It answers the turn and what was asked after it.
fn come_and_go<R: Wait>(
    rt: &R,
    alloc: Global,
    desk: &Desk<Numbers>,
    mut root: Root<Numbers>,
    change: u64,
) -> (Root<Numbers>, Option<(u64, u64)>)
    requires desk { IsRootOf root desk.now }
    requires few { (root_of root).made < 100 }
    ensures { IsRootOf result.0 desk.now }
{
    let mut pass = desk.make_pass(&mut root);
    let turned = desk.turn(alloc, rt, &mut pass, change);
    let asked = desk.ask(alloc, rt, &mut pass, &());
    desk.end_pass(&mut root, pass);
    match (turned, asked) {
        (Ok(turned), Ok((over, _))) => (root, Some((turned.turn, over))),
        _ => (root, None),
    }
}

/// Two passes at work at once.
fn work_both<R: Threads + Wait + Sync>(
    rt: &R,
    alloc: Global,
    desk: &Desk<Numbers>,
    one: Pass<Numbers>,
    two: Pass<Numbers>,
) -> ((Pass<Numbers>, u64, u64), (Pass<Numbers>, u64, u64))
    requires { IsPassOf one desk.now × IsPassOf two desk.now }
    ensures { IsPassOf result.0.0 desk.now × IsPassOf result.1.0 desk.now }
{
    join(
        rt,
        || work(rt, alloc, desk, one, 50, 1000),
        || work(rt, alloc, desk, two, 50, 1000),
    )
}

/// A pass at work, and another that is made and ended meanwhile.
fn work_beside<R: Threads + Wait + Sync>(
    rt: &R,
    alloc: Global,
    desk: &Desk<Numbers>,
    pass: Pass<Numbers>,
    root: Root<Numbers>,
) -> (
    (Pass<Numbers>, u64, u64),
    (Root<Numbers>, Option<(u64, u64)>),
)
    requires pass { IsPassOf pass desk.now }
    requires root { IsRootOf root desk.now }
    requires few { (root_of root).made < 100 }
    ensures { IsPassOf result.0.0 desk.now × IsRootOf result.1.0 desk.now }
{
    join(
        rt,
        || work(rt, alloc, desk, pass, 50, 1000),
        || come_and_go(rt, alloc, desk, root, 9),
    )
}

#[test]
fn four_threads_ask_between(rt: HostRuntime) -> Result<(), Fail> {
    let alloc = rt.alloc();
    let (desk, mut root) = Desk::open(alloc, empty_machine(alloc, 0)?)?;
    let a = desk.make_pass(&mut root);
    let b = desk.make_pass(&mut root);
    let c = desk.make_pass(&mut root);
    let (((a, ..), (b, _, told)), ((c, done, answered), (mut root, come))) = join(
        &rt,
        || work_both(&rt, alloc, &desk, a, b),
        || work_beside(&rt, alloc, &desk, c, root),
    );
    assert!(rt; done == 50 && told == 5 && answered == 5);
    assert!(rt; matches!(come, Some((turn, over)) if 0 < turn && turn <= over && over <= 151));
    desk.end_pass(&mut root, a);
    desk.end_pass(&mut root, b);
    desk.end_pass(&mut root, c);
    let out = root.out();
    assert!(rt; out == 0);
    let machine = desk.close(root);
    assert!(rt; machine.turns() == 151);
    assert!(rt; has_in_order(&machine, 0, 1000, 50) && has_in_order(&machine, 3, 9, 1));
    Ok(())
}
