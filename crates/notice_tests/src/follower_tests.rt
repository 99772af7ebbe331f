//! What followers take and refuse, and hold then, as another program says.
use crate::worked::edition_in;
use catalogue_core::delta::Delta;
use catalogue_core::edition::Edition;
use change_notices::follower::Follower;
use change_notices::refusal::FollowRefusal;
use edition_blocks::same::is_same;
use merge_laws::join::Join;
use std::alloc::Global;
use std::test::Fail;
use union_base::memory::Memory;

mod cases;

/// An edition of a case.
#[derive(Drop)]
struct Named<'a> {
    name: &'a str,
    edition: Edition,
}

/// The edition that these records merge to.
fn merged(alloc: Global, records: &str) -> Result<Edition, Fail> {
    let mut made: Option<Edition> = None;
    for rec in records.split('¶') {
        let (library, frame) = rec.split_once(':').ok_or("a library")?;
        let edition = edition_in(alloc, library, frame.as_bytes())?;
        made = match made {
            Some(before) => Some(before.joined(alloc, &edition)?),
            None => Some(edition),
        };
    }
    Ok(made.ok_or("a record")?)
}

/// The editions of a case.
fn editions_in<'a>(alloc: Global, editions: &'a str) -> Result<Vec<Named<'a>>, Fail> {
    let mut all = Vec::new(alloc);
    for item in editions.split('•') {
        if !item.is_empty() {
            let (name, records) = item.split_once('§').ok_or("records")?;
            let edition = merged(alloc, records)?;
            all.push(Named { name, edition })?;
        }
    }
    Ok(all)
}

/// The edition of that name.
fn of_name(all: &[Named<'_>], name: &str) -> Result<Edition, Fail> {
    for named in all {
        if named.name == name {
            return Ok(named.edition.shared()?);
        }
    }
    Err("an edition of that name")?
}

/// The editions of these names, which have blanks between them.
fn of_names(alloc: Global, all: &[Named<'_>], names: &str) -> Result<Vec<Edition>, Fail> {
    let mut found = Vec::new(alloc);
    for name in names.split(' ') {
        if !name.is_empty() {
            found.push(of_name(all, name)?)?;
        }
    }
    Ok(found)
}

/// Whether the refusal is told so.
fn is_told(refusal: FollowRefusal, answer: &str) -> bool {
    match refusal {
        FollowRefusal::Missing { at } => answer.strip_prefix("Missing ") == Some(digit(at)),
        FollowRefusal::Double { at } => answer.strip_prefix("Double ") == Some(digit(at)),
        FollowRefusal::Memory => false,
    }
}

/// The digit of a place.
fn digit(place: u64) -> &'static str {
    match place {
        0 => "0",
        1 => "1",
        2 => "2",
        _ => "more",
    }
}

/// Whether the lists have the same editions, in the same order.
fn are_same(alloc: Global, one: &[Edition], other: &[Edition]) -> Result<bool, Memory> {
    if one.len() != other.len() {
        return Ok(false);
    }
    for (a, b) in one.iter().zip(other) {
        if !is_same(alloc, a, b)? {
            return Ok(false);
        }
    }
    Ok(true)
}

/// Whether the follower answers the step as expected, and holds what it is to hold then.
fn takes(
    alloc: Global,
    all: &[Named<'_>],
    step: &str,
    follower: &mut Follower,
) -> Result<bool, Fail> {
    let (closed, rest) = step.split_once('§').ok_or("closed editions")?;
    let (opened, rest) = rest.split_once('§').ok_or("opened editions")?;
    let (answer, held) = rest.split_once('§').ok_or("an answer")?;
    let delta = Delta {
        closed: of_names(alloc, all, closed)?,
        opened: of_names(alloc, all, opened)?,
    };
    let is_right = match follower.take(alloc, delta) {
        Ok(()) => answer == "Ok",
        Err(refusal) => is_told(refusal, answer),
    };
    let expected = of_names(alloc, all, held)?;
    Ok(is_right && are_same(alloc, follower.editions(), expected.as_slice())?)
}

/// Whether a follower answers each step of the case as expected.
fn follows(alloc: Global, case: &str) -> Result<bool, Fail> {
    let (editions, steps) = case.split_once('¦').ok_or("steps")?;
    let all = editions_in(alloc, editions)?;
    let mut follower = Follower::empty(alloc);
    for step in steps.split('•') {
        if !step.is_empty() && !takes(alloc, all.as_slice(), step, &mut follower)? {
            return Ok(false);
        }
    }
    Ok(true)
}

#[test]
fn steps_of_followers(rt: HostRuntime) -> Result<(), Fail> {
    let mut found: u32 = 0;
    for case in cases::FOLLOWERS.split('‡') {
        if !case.is_empty() {
            let (about, rest) = case.split_once('¦').ok_or("editions")?;
            assert!(rt; follows(rt.alloc(), rest)?, "{about}");
            found = found.saturating_add(1);
        }
    }
    assert_eq!(rt; found, 39);
    Ok(())
}
