//! The subfields of a data field, read from its bytes.
ghost use Rattle.std.specs.Prelude.{◌≡◌, ◌≤◌, [], length, take, drop, true};
ghost use Rattle.std.specs.List.{flat_map};
ghost use Rattle.std.specs.Iterator.{YieldsFirst, item_count};
ghost use Rattle.union_base.specs.Fields.{spelled_subfield};
ghost use Rattle.union_base.specs.Readings.{is_undelimited, is_end, subfields_in};

use crate::body::DELIMITER;
use crate::subfield::Subfield;
use memchr::memchr;
use std::marker::Model;

/// The subfields of a data field, which contracts see as a list. None of the calls takes memory.
#[derive(Debug, Drop)]
pub struct Subfields<'a> {
    rest: &'a [u8],
}

impl<'a> Model for Subfields<'a> {
    ghost use Rattle.std.specs.Prelude.{◌≡◌, List};
    ghost use Rattle.std.specs.List.{flat_map};
    ghost use Rattle.union_base.specs.Bodies.{Subfield as SubfieldValue};
    ghost use Rattle.union_base.specs.Fields.{spelled_subfield};
    ghost use Rattle.union_base.specs.Readings.{subfields_in};

    ghost Value = { List SubfieldValue };

    ghost view = { λ s. subfields_in s.rest.now };

    ghost invariant = { λ s. flat_map spelled_subfield (subfields_in s.rest.now) ≡ s.rest.now };
}

impl<'a> Subfields<'a> {
    /// The subfields that the bytes spell.
    pub(crate) fn of(bytes: &'a [u8]) -> Subfields<'a>
        requires { flat_map spelled_subfield (subfields_in bytes.now) ≡ bytes.now }
        ensures { result ≡ subfields_in bytes.now }
    {
        Subfields { rest: bytes }
    }

    /// No subfields.
    pub fn none() -> Subfields<'a>
        ensures { result ≡ [] }
    {
        Subfields::of(&[])
    }

    /// The bytes that spell the subfields.
    pub fn spelling(&self) -> &'a [u8]
        ensures { result.now ≡ flat_map spelled_subfield self.now }
    {
        self.rest
    }
}

impl<'a> Iterator for Subfields<'a> {
    type Item = Subfield<'a>;

    ghost next_gives = { YieldsFirst (λ s. s) };

    ghost remaining = { item_count (λ s. s) };

    fn next(&mut self) -> Option<Subfield<'a>> {
        let [_, code, behind @ ..] = self.rest else {
            return None;
        };
        let (text, rest) = behind.split_at(undelimited_size(behind));
        self.rest = rest;
        Some(Subfield { code: *code, text })
    }
}

/// How many bytes stand before the first delimiter, or how many there are. Takes no memory.
pub fn undelimited_size(bytes: &[u8]) -> usize
    ensures within { result ≤ length bytes.now }
    ensures before { is_undelimited (take result bytes.now) ≡ true }
    ensures behind { is_end (drop result bytes.now) ≡ true }
{
    match memchr(DELIMITER, bytes) {
        Some(place) => place,
        None => bytes.len(),
    }
}
