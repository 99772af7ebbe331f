//! Batches that are drawn.
ghost use Rattle.std.specs.Prelude.{◌≤◌, ◌<◌, ◌+◌, length, IfOk, IsTrue};
ghost use Rattle.catalogue_core.specs.Batches.{is_own_op};

use crate::worked::{library_of, op_in};
use catalogue_core::batch::Batch;
use catalogue_core::op::Op;
use std::alloc::Global;
use std::test::Fail;
use union_base::library_code::LibraryCode;

/// A record with two system numbers, and the places of its digits.
const FRAME: [u8; 166] =
    *b"00166nam a2200085 a 4500001000500000008004100005035001200046035001200058245001000070\x1E0000\x1E240101s1999    xx                  eng d\x1E  \x1Fa(K)0000\x1E  \x1Fa(K)0000\x1E00\x1FaT0000\x1E\x1D";

const NUMBER: usize = 85;

const FIRST: usize = 138;

const SECOND: usize = 150;

const TITLE: usize = 160;

const STATUS: usize = 5;

/// What a library delivers: a record of that number with these two system numbers and that
/// title, or its withdrawal.
#[derive(Clone, Copy)]
pub struct Delivery {
    pub number: u64,
    pub first: u64,
    pub second: u64,
    pub title: u64,
    pub withdrawn: bool,
}

/// Writes four digits.
fn put_digits(frame: &mut [u8], at: usize, number: u64)
    requires { at + 4 ≤ length frame.old }
{
    frame[at] = b'0' + (number / 1000 % 10) as u8;
    frame[at + 1] = b'0' + (number / 100 % 10) as u8;
    frame[at + 2] = b'0' + (number / 10 % 10) as u8;
    frame[at + 3] = b'0' + (number % 10) as u8;
}

/// The code of one of three libraries.
fn library(place: usize) -> Result<LibraryCode, Fail> {
    match place {
        0 => library_of("LIBA"),
        1 => library_of("LIBB"),
        _ => library_of("LIBC"),
    }
}

/// The operation that the delivered record asks for.
fn op_of(alloc: Global, code: &LibraryCode, delivery: Delivery) -> Result<Op, Fail>
    ensures { IfOk result (λ op. IsTrue (is_own_op code.now op)) }
{
    let mut frame = FRAME;
    put_digits(&mut frame, NUMBER, delivery.number);
    put_digits(&mut frame, FIRST, delivery.first);
    put_digits(&mut frame, SECOND, delivery.second);
    put_digits(&mut frame, TITLE, delivery.title);
    if delivery.withdrawn {
        frame[STATUS] = b'd';
    }
    op_in(alloc, code, &frame)
}

/// The batch of a library with these three operations.
pub fn batch_of(alloc: Global, place: usize, deliveries: &[Delivery; 3]) -> Result<Batch, Fail> {
    let code = library(place)?;
    let [first, second, third] = *deliveries;
    let mut ops = Vec::new(alloc);
    ops.push(op_of(alloc, &code, first)?)?;
    ops.push(op_of(alloc, &code, second)?)?;
    ops.push(op_of(alloc, &code, third)?)?;
    Ok(Batch::of(code, ops))
}

/// Numbers that are drawn one after the other.
#[derive(Drop)]
pub struct Draws {
    pub state: u64,
}

impl Draws {
    /// A number below the bound.
    pub fn below(&mut self, bound: u64) -> u64
        requires { 0 < bound }
        ensures { result < bound }
    {
        self.state = self
            .state
            .wrapping_mul(6364136223846793005)
            .wrapping_add(1442695040888963407);
        (self.state >> 33) % bound
    }

    /// A delivery of a library with `numbers` numbers, with system numbers out of `keys`; one in five is a withdrawal.
    fn delivery(&mut self, place: u64, numbers: u64, keys: u64) -> Delivery
        requires place { place < 3 }
        requires numbers { 0 < numbers }
        requires few { numbers < 1000 }
        requires keys { 0 < keys }
    {
        let number = self.below(numbers);
        Delivery {
            number,
            first: self.below(keys),
            second: self.below(keys),
            title: place * 1000 + number % 1000,
            withdrawn: self.below(5) == 0,
        }
    }

    /// Three deliveries of the library at that place.
    pub fn deliveries(&mut self, place: u64, numbers: u64, keys: u64) -> [Delivery; 3]
        requires place { place < 3 }
        requires numbers { 0 < numbers }
        requires few { numbers < 1000 }
        requires keys { 0 < keys }
    {
        [
            self.delivery(place, numbers, keys),
            self.delivery(place, numbers, keys),
            self.delivery(place, numbers, keys),
        ]
    }
}
