//! One subfield of a data field.
use std::marker::Model;

/// A subfield: its code, the byte after the delimiter 0x1F, and its text (MARC 21, 'Data elements').
#[derive(Debug, Drop)]
pub struct Subfield<'a> {
    pub code: u8,
    pub text: &'a [u8],
}

impl<'a> Model for Subfield<'a> {
    ghost use Rattle.union_base.specs.Bodies.{Subfield as SubfieldValue};

    ghost Value = { SubfieldValue };

    ghost view = { λ s. record { code = s.code; text = s.text.now } };
}
