//! Numbers in ascending order at the first of a few places.
//!
//! Guarantee: a number is put in or taken out without taking memory, and the order stays. What the places after the first
//! ones hold means nothing. Cost: two comparisons at most, and a copy of the places.
ghost use Rattle.std.specs.Prelude.{◌+◌, ◌-◌, ◌<◌, ◌≤◌, take, Contains};
ghost use Rattle.feature_index.specs.Postings.{Ascends, Exchanges, Gains, Loses};
ghost use Rattle.feature_index.specs.Rows.{most_in_place};

/// How many numbers are held in place.
pub(crate) const MOST_IN_PLACE: usize = 3;

/// The first `count` numbers, and this one among them.
pub(crate) fn put_in(places: [u64; MOST_IN_PLACE], count: u8, number: u64) -> [u64; MOST_IN_PLACE]
    requires room { count < most_in_place }
    requires ascending { Ascends (take count places) }
    requires absent { Contains (take count places) number → ⊥ }
    ensures ascending { Ascends (take (count + 1) result) }
    ensures numbers { Gains (take count places) (take (count + 1) result) number }
{
    let [first, second, _] = places;
    if count == 0 || number < first {
        [number, first, second]
    } else if count == 1 || number < second {
        [first, number, second]
    } else {
        [first, second, number]
    }
}

/// The first `count` numbers without this one, which is among them.
pub(crate) fn take_out(places: [u64; MOST_IN_PLACE], count: u8, number: u64) -> [u64; MOST_IN_PLACE]
    requires count { count ≤ most_in_place }
    requires ascending { Ascends (take count places) }
    requires present { Contains (take count places) number }
    ensures ascending { Ascends (take (count - 1) result) }
    ensures numbers { Loses (take count places) (take (count - 1) result) number }
{
    let [first, second, third] = places;
    if number == first {
        [second, third, 0]
    } else if number == second {
        [first, third, 0]
    } else {
        [first, second, 0]
    }
}

/// The first `count` numbers, with one in the place of another, which is among them.
pub(crate) fn exchange(
    places: [u64; MOST_IN_PLACE],
    count: u8,
    from: u64,
    to: u64,
) -> [u64; MOST_IN_PLACE]
    requires count { count ≤ most_in_place }
    requires ascending { Ascends (take count places) }
    requires present { Contains (take count places) from }
    requires absent { Contains (take count places) to → ⊥ }
    ensures ascending { Ascends (take count result) }
    ensures numbers { Exchanges (take count places) (take count result) from to }
{
    put_in(take_out(places, count, from), count - 1, to)
}
