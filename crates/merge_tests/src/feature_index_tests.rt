//! Postings of a few keys.
use feature_index::postings::Postings;
use key_hashing::hashing::Hashing;
use std::alloc::Global;
use std::test::Fail;
use union_base::memory::Memory;

/// Puts the number under the key, unless it stands there.
fn put(postings: &mut Postings<u32>, alloc: Global, key: u32, number: u64) -> Result<(), Memory> {
    let place = postings.row_of(key)?;
    postings.make_room_at(alloc, place)?;
    if !postings.of(&key).contains(&number) {
        postings.add_at(place, number);
    }
    Ok(())
}

/// Takes the number from under the key, if it stands there.
fn take(postings: &mut Postings<u32>, key: u32, number: u64) -> Result<(), Memory> {
    let place = postings.row_of(key)?;
    if postings.of(&key).contains(&number) {
        postings.remove_at(place, number);
    }
    Ok(())
}

#[test]
fn numbers_come_and_go(rt: HostRuntime) -> Result<(), Fail> {
    let alloc = rt.alloc();
    let mut postings: Postings<u32> = Postings::empty(alloc, Hashing::fixed());
    assert!(rt; postings.of(&7).is_empty());

    for (key, number) in [(7, 30), (8, 30), (7, 10), (7, 20), (7, 10)] {
        put(&mut postings, alloc, key, number)?;
    }
    assert_eq!(rt; postings.of(&7), [10, 20, 30].as_slice());
    assert_eq!(rt; postings.of(&8), [30].as_slice());
    assert!(rt; postings.of(&9).is_empty());

    for (key, number) in [(7, 20), (8, 30), (9, 30), (8, 10)] {
        take(&mut postings, key, number)?;
    }
    assert_eq!(rt; postings.of(&7), [10, 30].as_slice());
    assert!(rt; postings.of(&8).is_empty());

    put(&mut postings, alloc, 7, 20)?;
    assert_eq!(rt; postings.of(&7), [10, 20, 30].as_slice());
    Ok(())
}

#[test]
fn keys_stand_in_the_order_of_their_rows(rt: HostRuntime) -> Result<(), Fail> {
    let alloc = rt.alloc();
    let mut postings: Postings<u32> = Postings::with_room(alloc, Hashing::fixed(), 2)?;
    for (key, number) in [(7, 30), (8, 30), (7, 10)] {
        put(&mut postings, alloc, key, number)?;
    }
    let place = postings.row_of(8)?;
    if postings.of(&8).contains(&30) && !postings.of(&8).contains(&20) {
        postings.renumber_at(place, 30, 20);
    }
    assert_eq!(rt; postings.of(&8), [20].as_slice());
    assert_eq!(rt; postings.into_keys(alloc)?.as_slice(), [7, 8].as_slice());
    Ok(())
}
