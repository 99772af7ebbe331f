//! The catalogue beside the plain one, where titles and names are drawn from a handful: records of one title are many, and some
//! of them match by title, date and name alone.
ghost use Rattle.std.specs.Prelude.{◌≡◌, ◌<◌, IfOk, IsTrue};
ghost use Rattle.catalogue_core.specs.Batches.{is_own_op};

use crate::comparing_tests::{Draws, library, put_digits, same_answers};
use crate::plain_catalogue::PlainCatalogue;
use crate::worked::op_in;
use catalogue_core::batch::Batch;
use catalogue_core::catalogue::Catalogue;
use catalogue_core::op::Op;
use key_hashing::hashing::Hashing;
use merge_laws::steps::Steps;
use std::alloc::Global;
use std::marker::Brand;
use std::sync::ledger::{Blank, Ledger};
use std::test::Fail;
use union_base::library_code::LibraryCode;

/// A record with a system number, a name and a title, and the places of its digits.
const FRAME: [u8; 164] =
    *b"00164nam a2200085 a 4500001000500000008004100005035001200046100001000058245001000068\x1E0000\x1E240101s1999    xx                  eng d\x1E  \x1Fa(K)0000\x1E1 \x1FaN0000\x1E00\x1FaT0000\x1E\x1D";

const NUMBER: usize = 85;

const SYSTEM: usize = 138;

const NAME: usize = 148;

const TITLE: usize = 158;

const STATUS: usize = 5;

/// What a library delivers: a record of that number with this system number, this name and this title, or its withdrawal.
#[derive(Clone, Copy)]
struct Titled {
    number: u64,
    system: u64,
    name: u64,
    title: u64,
    withdrawn: bool,
}

/// From how many numbers of records, system numbers, names and titles is drawn.
#[derive(Clone, Copy)]
struct Sizes {
    numbers: u64,
    systems: u64,
    names: u64,
    titles: u64,
}

/// The operation that the delivered record asks for.
fn op_of(alloc: Global, code: &LibraryCode, titled: Titled) -> Result<Op, Fail>
    ensures { IfOk result (λ op. IsTrue (is_own_op code.now op)) }
{
    let mut frame = FRAME;
    put_digits(&mut frame, NUMBER, titled.number);
    put_digits(&mut frame, SYSTEM, titled.system);
    put_digits(&mut frame, NAME, titled.name);
    put_digits(&mut frame, TITLE, titled.title);
    if titled.withdrawn {
        frame[STATUS] = b'd';
    }
    op_in(alloc, code, &frame)
}

/// The batch of a library with these two operations.
fn batch_of(alloc: Global, place: usize, titled: &[Titled; 2]) -> Result<Batch, Fail> {
    let code = library(place)?;
    let [first, second] = *titled;
    let mut ops = Vec::new(alloc);
    ops.push(op_of(alloc, &code, first)?)?;
    ops.push(op_of(alloc, &code, second)?)?;
    Ok(Batch::of(code, ops))
}

/// A drawn delivery; one in six is a withdrawal.
fn drawn(draws: &mut Draws, sizes: Sizes) -> Titled
    requires numbers { 0 < sizes.numbers }
    requires systems { 0 < sizes.systems }
    requires names { 0 < sizes.names }
    requires titles { 0 < sizes.titles }
{
    Titled {
        number: draws.below(sizes.numbers),
        system: draws.below(sizes.systems),
        name: draws.below(sizes.names),
        title: draws.below(sizes.titles),
        withdrawn: draws.below(6) == 0,
    }
}

/// Whether the two catalogues answer the same after each of `turns` batches, drawn from the seed.
fn agree<L: Ledger>(
    alloc: Global,
    seed: u64,
    turns: u64,
    sizes: Sizes,
    blank: Blank,
) -> Result<bool, Fail>
    requires name { blank.name ≡ L.name }
    requires parts { blank.parts ≡ L.parts }
    requires some { 0 < L.parts }
    requires numbers { 0 < sizes.numbers }
    requires systems { 0 < sizes.systems }
    requires names { 0 < sizes.names }
    requires titles { 0 < sizes.titles }
{
    let mut steps: Steps<L> = Steps::open(blank);
    let mut catalogue = Catalogue::empty(alloc, Hashing::fixed())?;
    catalogue.keep_works(alloc)?;
    let mut plain = PlainCatalogue::empty(alloc);
    let mut draws = Draws { state: seed };
    for _ in 0..turns {
        let place = draws.below(3) as usize;
        let titled = [drawn(&mut draws, sizes), drawn(&mut draws, sizes)];
        let found = catalogue.apply(alloc, 0, batch_of(alloc, place, &titled)?, &mut steps)?;
        let expected = plain.apply(alloc, 0, batch_of(alloc, place, &titled)?, &mut steps)?;
        if found.as_slice() != expected.as_slice()
            || !same_answers(alloc, &catalogue, &plain, sizes.numbers)?
        {
            return Ok(false);
        }
    }
    Ok(true)
}

#[test]
fn titles_of_a_handful(rt: HostRuntime) -> Result<(), Fail> {
    for seed in 0..60 {
        let sizes = Sizes {
            numbers: 3 + seed % 12,
            systems: 5 + seed % 40,
            names: 1 + seed % 5,
            titles: 1 + seed % 3,
        };
        assert!(rt; agree::<Brand>(rt.alloc(), seed, 16, sizes, Blank::new(1))?);
    }
    Ok(())
}

#[test]
fn editions_of_many_titles(rt: HostRuntime) -> Result<(), Fail> {
    // Few system numbers, so that an edition comes to more titles with a date and a name than have a key each.
    for seed in 0..4 {
        let sizes = Sizes {
            numbers: 40,
            systems: 6,
            names: 12,
            titles: 12,
        };
        assert!(rt; agree::<Brand>(rt.alloc(), seed, 60, sizes, Blank::new(1))?);
    }
    Ok(())
}
