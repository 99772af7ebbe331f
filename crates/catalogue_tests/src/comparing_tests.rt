//! The catalogue beside the plain one: after each of many drawn batches the two answer the same.
ghost use Rattle.std.specs.Prelude.{◌≡◌, ◌≤◌, ◌<◌, ◌+◌, length, IfOk, IsTrue};
ghost use Rattle.catalogue_core.specs.Batches.{is_own_op};

use crate::plain_catalogue::PlainCatalogue;
use crate::worked::op_in;
use catalogue_core::batch::Batch;
use catalogue_core::catalogue::Catalogue;
use catalogue_core::edition::Edition;
use catalogue_core::op::Op;
use catalogue_core::outcome::Outcome;
use key_hashing::hashing::Hashing;
use merge_laws::steps::Steps;
use std::alloc::Global;
use std::marker::Brand;
use std::sync::ledger::{Blank, Ledger};
use std::test::Fail;
use union_base::bytes::Bytes;
use union_base::library_code::LibraryCode;
use union_base::memory::Memory;
use union_base::record_id::RecordId;
use work_clusters::works::Works;

/// A record with two system numbers, and the places of its digits.
const FRAME: [u8; 166] =
    *b"00166nam a2200085 a 4500001000500000008004100005035001200046035001200058245001000070\x1E0000\x1E240101s1999    xx                  eng d\x1E  \x1Fa(K)0000\x1E  \x1Fa(K)0000\x1E00\x1FaT0000\x1E\x1D";

const NUMBER: usize = 85;

const FIRST: usize = 138;

const SECOND: usize = 150;

const TITLE: usize = 160;

const STATUS: usize = 5;

/// What a library delivers: a record of that number with these two system numbers and that
/// title, or its withdrawal.
#[derive(Clone, Copy)]
pub struct Delivery {
    pub number: u64,
    pub first: u64,
    pub second: u64,
    pub title: u64,
    pub withdrawn: bool,
}

/// Writes four digits.
pub fn put_digits(frame: &mut [u8], at: usize, number: u64)
    requires { at + 4 ≤ length frame.old }
{
    frame[at] = b'0' + (number / 1000 % 10) as u8;
    frame[at + 1] = b'0' + (number / 100 % 10) as u8;
    frame[at + 2] = b'0' + (number / 10 % 10) as u8;
    frame[at + 3] = b'0' + (number % 10) as u8;
}

/// The code of one of three libraries.
pub fn library(place: usize) -> Result<LibraryCode, Fail> {
    let code: &[u8] = match place {
        0 => b"LIBA",
        1 => b"LIBB",
        _ => b"LIBC",
    };
    Ok(LibraryCode::read(code).ok_or("a library code")?)
}

/// The operation that the delivered record asks for.
pub fn op_of(alloc: Global, code: &LibraryCode, delivery: Delivery) -> Result<Op, Fail>
    ensures { IfOk result (λ op. IsTrue (is_own_op code.now op)) }
{
    let mut frame = FRAME;
    put_digits(&mut frame, NUMBER, delivery.number);
    put_digits(&mut frame, FIRST, delivery.first);
    put_digits(&mut frame, SECOND, delivery.second);
    put_digits(&mut frame, TITLE, delivery.title);
    if delivery.withdrawn {
        frame[STATUS] = b'd';
    }
    op_in(alloc, code, &frame)
}

/// The batch of a library with these three operations.
pub fn batch_of(alloc: Global, place: usize, deliveries: &[Delivery; 3]) -> Result<Batch, Fail> {
    let code = library(place)?;
    let [first, second, third] = *deliveries;
    let mut ops = Vec::new(alloc);
    ops.push(op_of(alloc, &code, first)?)?;
    ops.push(op_of(alloc, &code, second)?)?;
    ops.push(op_of(alloc, &code, third)?)?;
    Ok(Batch::of(code, ops))
}

/// Numbers that are drawn one after the other.
#[derive(Drop)]
pub struct Draws {
    pub state: u64,
}

impl Draws {
    /// A number below the bound.
    pub fn below(&mut self, bound: u64) -> u64
        requires { 0 < bound }
    {
        self.state = self
            .state
            .wrapping_mul(6364136223846793005)
            .wrapping_add(1442695040888963407);
        (self.state >> 33) % bound
    }

    /// A delivery of a library with `numbers` numbers, with system numbers out of `keys`; one in five is a withdrawal.
    pub fn delivery(&mut self, place: u64, numbers: u64, keys: u64) -> Delivery
        requires place { place < 3 }
        requires numbers { 0 < numbers }
        requires few { numbers < 1000 }
        requires keys { 0 < keys }
    {
        let number = self.below(numbers);
        Delivery {
            number,
            first: self.below(keys),
            second: self.below(keys),
            title: place * 1000 + number % 1000,
            withdrawn: self.below(5) == 0,
        }
    }
}

/// Whether both are the same edition, by their contributors and how many fields they have, or both are none.
pub fn same(alloc: Global, one: Option<&Edition>, other: Option<&Edition>) -> Result<bool, Memory> {
    match (one, other) {
        (Some(a), Some(b)) => {
            let shown = a.content(alloc)?;
            let beside = b.content(alloc)?;
            let (left, right) = (&shown.content().united, &beside.content().united);
            Ok(
                a.contributors().as_slice() == b.contributors().as_slice()
                    && left.as_slice().len() == right.as_slice().len(),
            )
        }
        (None, None) => Ok(true),
        _ => Ok(false),
    }
}

/// Whether the editions are the same, place by place.
pub fn same_editions(alloc: Global, one: &[&Edition], other: &[Edition]) -> Result<bool, Memory> {
    for (place, edition) in one.iter().enumerate() {
        if !same(alloc, Some(*edition), other.get(place))? {
            return Ok(false);
        }
    }
    Ok(one.len() == other.len())
}

/// Whether the two have the same works.
pub fn same_works(one: &Works, other: &Works) -> bool {
    let mut key = one.after(None);
    for _ in 0..one.count() {
        match key {
            Some(found) => {
                if one.editions_of(found) != other.editions_of(found) {
                    return false;
                }
                key = one.after(Some(found));
            }
            None => return false,
        }
    }
    key.is_none() && one.count() == other.count()
}

/// Whether the two have the same under each of the numbers of a library.
fn same_records(
    alloc: Global,
    catalogue: &Catalogue,
    plain: &PlainCatalogue,
    place: usize,
    numbers: u64,
) -> Result<bool, Fail> {
    for number in 0..numbers {
        let mut digits = [b'0'; 4];
        put_digits(&mut digits, 0, number);
        let id = RecordId {
            library: library(place)?,
            control: Bytes::of(alloc, &digits)?,
        };
        if !same(alloc, catalogue.holder(&id), plain.holder(&id))?
            || !same(alloc, catalogue.base(&id), plain.base(&id))?
        {
            return Ok(false);
        }
    }
    Ok(true)
}

/// Whether the two answer the same.
pub fn same_answers(
    alloc: Global,
    catalogue: &Catalogue,
    plain: &PlainCatalogue,
    numbers: u64,
) -> Result<bool, Fail> {
    for place in 0..3 {
        if !same_records(alloc, catalogue, plain, place, numbers)? {
            return Ok(false);
        }
    }
    Ok(
        catalogue.record_count() == plain.record_count()
            && catalogue.edition_count() == plain.edition_count()
            && catalogue.turns() == plain.turns()
            && same_editions(
                alloc,
                catalogue.editions(alloc)?.as_slice(),
                plain.editions(),
            )?
            && same_works(catalogue.works(alloc)?.works(), plain.works()),
    )
}

/// Applies the batch to both, and tells whether they answer the same then.
fn apply_both<L: Ledger>(
    alloc: Global,
    catalogue: &mut Catalogue,
    plain: &mut PlainCatalogue,
    place: usize,
    deliveries: &[Delivery; 3],
    numbers: u64,
    steps: &mut Steps<L>,
) -> Result<bool, Fail> {
    let found = catalogue.apply(alloc, 0, batch_of(alloc, place, deliveries)?, steps)?;
    let expected = plain.apply(alloc, 0, batch_of(alloc, place, deliveries)?, steps)?;
    Ok(found.as_slice() == expected.as_slice() && same_answers(alloc, catalogue, plain, numbers)?)
}

/// Whether the two answer the same after each of `turns` batches, drawn from the seed.
fn agree<L: Ledger>(
    alloc: Global,
    seed: u64,
    turns: u64,
    numbers: u64,
    keys: u64,
    blank: Blank,
) -> Result<bool, Fail>
    requires name { blank.name ≡ L.name }
    requires parts { blank.parts ≡ L.parts }
    requires some { 0 < L.parts }
    requires numbers { 0 < numbers }
    requires few { numbers < 1000 }
    requires keys { 0 < keys }
{
    let mut steps: Steps<L> = Steps::open(blank);
    let mut catalogue = Catalogue::empty(alloc, Hashing::fixed())?;
    catalogue.keep_works(alloc)?;
    let mut plain = PlainCatalogue::empty(alloc);
    let mut draws = Draws { state: seed };
    for _ in 0..turns {
        let place = draws.below(3);
        let deliveries = [
            draws.delivery(place % 3, numbers, keys),
            draws.delivery(place % 3, numbers, keys),
            draws.delivery(place % 3, numbers, keys),
        ];
        if !apply_both(
            alloc,
            &mut catalogue,
            &mut plain,
            place as usize,
            &deliveries,
            numbers,
            &mut steps,
        )? {
            return Ok(false);
        }
    }
    Ok(true)
}

#[test]
fn drawn_batches(rt: HostRuntime) -> Result<(), Fail> {
    // Few records with many keys in common, many with some, and editions of up to 60 contributors.
    for (turns, numbers, keys) in [(60, 4, 6), (60, 20, 60), (40, 20, 2)] {
        assert!(rt; agree::<Brand>(rt.alloc(), 0, turns, numbers, keys, Blank::new(1))?);
    }
    Ok(())
}

#[test]
fn drawn_histories(rt: HostRuntime) -> Result<(), Fail> {
    for seed in 0..200 {
        // From few records with many keys in common to many with some.
        let numbers = 2 + seed % 10;
        let keys = 2 + seed % 23;
        assert!(rt; agree::<Brand>(rt.alloc(), seed, 12, numbers, keys, Blank::new(1))?);
    }
    Ok(())
}

/// Three records of a chain from that place on: each has the system numbers of its place and of the next.
fn links(place: u64, withdrawn: bool) -> [Delivery; 3]
    requires { place < 100 }
{
    [
        link(place, withdrawn),
        link(place + 1, withdrawn),
        link(place + 2, withdrawn),
    ]
}

fn link(place: u64, withdrawn: bool) -> Delivery
    requires { place < 200 }
{
    Delivery {
        number: place,
        first: place,
        second: place + 1,
        title: place,
        withdrawn,
    }
}

/// Whether a chain of records is one edition, and the two catalogues answer the same as its links go, three by three from the
/// midst on.
fn chain_goes<L: Ledger>(alloc: Global, blank: Blank) -> Result<bool, Fail>
    requires name { blank.name ≡ L.name }
    requires parts { blank.parts ≡ L.parts }
    requires some { 0 < L.parts }
{
    let mut steps: Steps<L> = Steps::open(blank);
    let mut catalogue = Catalogue::empty(alloc, Hashing::fixed())?;
    let mut plain = PlainCatalogue::empty(alloc);
    let turns: [(u64, bool, u64); 9] = [
        (0, false, 1),
        (6, false, 2),
        (3, false, 1),
        (9, false, 1),
        (12, false, 1),
        (6, true, 2),
        (1, true, 3),
        (6, false, 2),
        (5, true, 3),
    ];
    for (place, withdrawn, editions) in turns {
        let same = apply_both(
            alloc,
            &mut catalogue,
            &mut plain,
            0,
            &links(place % 100, withdrawn),
            15,
            &mut steps,
        )?;
        if !same || catalogue.edition_count() != editions {
            return Ok(false);
        }
    }
    Ok(true)
}

#[test]
fn chain_that_goes(rt: HostRuntime) -> Result<(), Fail> {
    assert!(rt; chain_goes::<Brand>(rt.alloc(), Blank::new(1))?);
    Ok(())
}

/// A record that shares no index key with one of another number.
fn stranger(number: u64, withdrawn: bool) -> Delivery
    requires { number < 5000 }
{
    Delivery {
        number,
        first: 2 * number,
        second: 2 * number + 1,
        title: number,
        withdrawn,
    }
}

/// Whether one record more comes and goes among two thousand that share no key with one another or with it. How many tests its
/// turn may count, the clause of `apply` and the law of strangers say.
fn stranger_comes_and_goes<L: Ledger>(alloc: Global, blank: Blank) -> Result<bool, Fail>
    requires name { blank.name ≡ L.name }
    requires parts { blank.parts ≡ L.parts }
    requires some { 0 < L.parts }
{
    let mut steps: Steps<L> = Steps::open(blank);
    let mut catalogue = Catalogue::empty(alloc, Hashing::fixed())?;
    for place in 0..667 {
        let three = [
            stranger(3 * place, false),
            stranger(3 * place + 1, false),
            stranger(3 * place + 2, false),
        ];
        catalogue.apply(alloc, 0, batch_of(alloc, 0, &three)?, &mut steps)?;
    }
    if catalogue.edition_count() != 2001 {
        return Ok(false);
    }
    let last = [
        stranger(2001, false),
        stranger(2001, true),
        stranger(2001, true),
    ];
    let outcomes = [Outcome::Added, Outcome::Removed, Outcome::Absent];
    let found = catalogue.apply(alloc, 1, batch_of(alloc, 0, &last)?, &mut steps)?;
    Ok(found.as_slice() == outcomes.as_slice() && catalogue.edition_count() == 2001)
}

#[test]
fn stranger_among_many(rt: HostRuntime) -> Result<(), Fail> {
    assert!(rt; stranger_comes_and_goes::<Brand>(rt.alloc(), Blank::new(1))?);
    Ok(())
}
