//! The numbers under one key.
ghost use Rattle.std.specs.Prelude.{◌≡◌, ◌+◌, ◌<◌, ◌≤◌, [], length, vec_capacity, IfOk, OnOk, Contains};
ghost use Rattle.feature_index.specs.Postings.{Ascends, Exchanges, Gains, Loses};

use crate::places::{self, MOST_IN_PLACE};
use std::alloc::Global;
use std::marker::Model;
use union_base::memory::Memory;

/// Numbers in ascending order, each once, and how many more are sure to find room. Up to three numbers, with those that are
/// to find room, are held in place, and take no memory of their own.
pub(crate) struct Row {
    numbers: Numbers,
}

/// A drop of its own: the proof of what may drop a row calls it, and does not go through the places where one lies.
impl Drop for Row {
    fn drop(self) {
        let Row { numbers: _ } = self;
    }
}

/// Where the numbers lie. The spares are small, so that a row is no larger than a list and a word.
#[derive(Drop)]
enum Numbers {
    /// The numbers at the first `count` places.
    Few {
        count: u8,
        spare: u8,
        places: [u64; MOST_IN_PLACE],
    },
    Many {
        spare: u32,
        list: Vec<u64>,
    },
}

const _: () = prove!(size_of::<Row>() == 32);

impl Model for Row {
    ghost use Rattle.feature_index.specs.Postings.{Posting, Ascends};
    ghost use Rattle.feature_index.specs.Rows.{numbers_in, spare_in, HasRoomInRow};

    ghost Value = { Posting };

    ghost view = { λ r. record { numbers = numbers_in r.numbers; spare = spare_in r.numbers } };

    ghost invariant = { λ r. Ascends (numbers_in r.numbers) × HasRoomInRow r.numbers };
}

impl Row {
    /// No numbers, and no room asked for. Takes no memory.
    pub(crate) fn empty() -> Row
        ensures { result ≡ record { numbers = []; spare = 0 } }
    {
        Row {
            numbers: Numbers::Few {
                count: 0,
                spare: 0,
                places: [0; MOST_IN_PLACE],
            },
        }
    }

    /// The numbers, in ascending order. Takes no memory.
    pub(crate) fn numbers(&self) -> &[u64]
        ensures value { result.now ≡ self.now.numbers }
        ensures ascending { Ascends result.now }
    {
        match &self.numbers {
            Numbers::Few { count, places, .. } => &places[..*count as usize],
            Numbers::Many { list, .. } => list.as_slice(),
        }
    }

    /// Makes room for one number more. Returns `Memory` if allocation fails; then all stays.
    pub(crate) fn make_room(&mut self, alloc: Global) -> Result<(), Memory>
        ensures numbers { self.new.numbers ≡ self.old.numbers }
        ensures kept { self.old.spare ≤ self.new.spare }
        ensures room { OnOk result (self.new.spare ≡ self.old.spare + 1) }
    {
        match &mut self.numbers {
            &mut Numbers::Few {
                count,
                spare,
                places,
            } => {
                self.numbers = if ((count + spare) as usize) < MOST_IN_PLACE {
                    Numbers::Few {
                        count,
                        spare: spare + 1,
                        places,
                    }
                } else {
                    let spare = spare as u32 + 1;
                    let list = with_room_after(alloc, &places[..count as usize], spare)?;
                    Numbers::Many { spare, list }
                };
            }
            Numbers::Many { spare, list } => {
                let more = spare.checked_add(1).ok_or(Memory)?;
                list.reserve(more as usize)?;
                *spare = more;
            }
        }
        Ok(())
    }

    /// Puts a number in, in the room that was made. Takes no memory.
    pub(crate) fn add(&mut self, number: u64)
        requires spare { 0 < self.old.spare }
        requires absent { Contains self.old.numbers number → ⊥ }
        ensures numbers { Gains self.old.numbers self.new.numbers number }
        ensures used { self.new.spare + 1 ≡ self.old.spare }
    {
        match &mut self.numbers {
            &mut Numbers::Few {
                count,
                spare,
                places,
            } => {
                self.numbers = Numbers::Few {
                    count: count + 1,
                    spare: spare - 1,
                    places: places::put_in(places, count, number),
                };
            }
            Numbers::Many { spare, list } => {
                put_among(list, number);
                *spare -= 1;
            }
        }
    }

    /// Takes a number out. Takes no memory.
    pub(crate) fn remove(&mut self, number: u64)
        requires { Contains self.old.numbers number }
        ensures numbers { Loses self.old.numbers self.new.numbers number }
        ensures spare { self.new.spare ≡ self.old.spare }
    {
        match &mut self.numbers {
            &mut Numbers::Few {
                count,
                spare,
                places,
            } => {
                self.numbers = Numbers::Few {
                    count: count - 1,
                    spare,
                    places: places::take_out(places, count, number),
                };
            }
            Numbers::Many { list, .. } => take_from(list, number),
        }
    }

    /// Puts a number in the place of another, which is taken out. Takes no memory.
    pub(crate) fn renumber(&mut self, from: u64, to: u64)
        requires present { Contains self.old.numbers from }
        requires absent { Contains self.old.numbers to → ⊥ }
        ensures numbers { Exchanges self.old.numbers self.new.numbers from to }
        ensures spare { self.new.spare ≡ self.old.spare }
    {
        match &mut self.numbers {
            &mut Numbers::Few {
                count,
                spare,
                places,
            } => {
                self.numbers = Numbers::Few {
                    count,
                    spare,
                    places: places::exchange(places, count, from, to),
                };
            }
            Numbers::Many { list, .. } => exchange_among(list, from, to),
        }
    }
}

/// A list of the numbers, with room for `spare` more.
fn with_room_after(alloc: Global, numbers: &[u64], spare: u32) -> Result<Vec<u64>, Memory>
    ensures numbers { IfOk result (λ v. v.items ≡ numbers.now) }
    ensures room { IfOk result (λ v. length v.items + spare ≤ vec_capacity v) }
{
    let mut list = Vec::with_capacity(alloc, numbers.len().saturating_add(spare as usize))?;
    list.extend_from_slice(numbers)?;
    list.reserve(spare as usize)?;
    Ok(list)
}

/// Puts a number into a list that has room. Takes no memory.
fn put_among(list: &mut Vec<u64>, number: u64)
    requires room { length list.old.items < vec_capacity list.old }
    requires ascending { Ascends list.old.items }
    requires absent { Contains list.old.items number → ⊥ }
    ensures ascending { Ascends list.new.items }
    ensures numbers { Gains list.old.items list.new.items number }
    ensures size { length list.new.items ≡ length list.old.items + 1 }
    ensures room { vec_capacity list.old ≤ vec_capacity list.new }
{
    if let Err(place) = list.as_slice().binary_search(&number) {
        let _ = list.insert(place, number);
    }
}

/// Takes a number that is there from a list.
fn take_from(list: &mut Vec<u64>, number: u64)
    requires ascending { Ascends list.old.items }
    requires present { Contains list.old.items number }
    ensures ascending { Ascends list.new.items }
    ensures numbers { Loses list.old.items list.new.items number }
    ensures size { length list.new.items + 1 ≡ length list.old.items }
    ensures room { vec_capacity list.new ≡ vec_capacity list.old }
{
    if let Ok(place) = list.as_slice().binary_search(&number) {
        list.remove(place);
    }
}

/// Puts a number into a list in the place of another, which is taken out. Takes no memory.
fn exchange_among(list: &mut Vec<u64>, from: u64, to: u64)
    requires ascending { Ascends list.old.items }
    requires present { Contains list.old.items from }
    requires absent { Contains list.old.items to → ⊥ }
    ensures ascending { Ascends list.new.items }
    ensures numbers { Exchanges list.old.items list.new.items from to }
    ensures size { length list.new.items ≡ length list.old.items }
    ensures room { vec_capacity list.old ≤ vec_capacity list.new }
{
    take_from(list, from);
    put_among(list, to);
}
