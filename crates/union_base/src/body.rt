//! What a field has after its tag.
ghost use Rattle.std.specs.Prelude.{◌≡◌, ◌≤◌, ◌&&◌, IfOk, IsTrue, nat_le, length};
ghost use Rattle.std.specs.List.{list_all};
ghost use Rattle.union_base.specs.Bodies.{Control, Data, subfields_of};
ghost use Rattle.union_base.specs.Fields.{is_tag_byte, is_tag, is_control_tag, is_text, is_indicator, is_subfield_code, is_subfield, fits_tag, is_field, spelled};
ghost use Rattle.union_base.specs.Readings.{body_in, IsSpelling};
ghost use Rattle.union_base.specs.BodyParts.{ArePartsOf};

use crate::bytes::Bytes;
use crate::copied::Copied;
use crate::memory::Memory;
use crate::subfield::Subfield;
use crate::subfields::Subfields;
use std::alloc::Global;
use std::marker::Model;

/// Ends a record (ISO 2709).
pub const RECORD_TERMINATOR: u8 = 0x1D;

/// Ends a field (ISO 2709).
pub const FIELD_TERMINATOR: u8 = 0x1E;

/// Begins a subfield (ISO 2709).
pub const DELIMITER: u8 = 0x1F;

/// The content of a field (ISO 2709; MARC 21, 'Variable fields'): a control field's text, or a data field's indicators and
/// its subfields. It is kept as the bytes that spell it in a record, in one piece.
#[derive(Debug, Drop)]
pub struct Body {
    spelling: Bytes,
}

impl Model for Body {
    ghost use Rattle.union_base.specs.Bodies.{Body as BodyValue};

    ghost Value = { BodyValue };

    ghost use Rattle.union_base.specs.Readings.{body_in, IsSpelling};

    ghost view = { λ b. body_in b.spelling };

    ghost invariant = { λ b. IsSpelling b.spelling };
}

/// What a content has: a control field's text, or a data field's two indicators and its subfields.
#[derive(Debug, Drop)]
pub enum Parts<'a> {
    Control {
        text: &'a [u8],
    },
    Data {
        ind1: u8,
        ind2: u8,
        subfields: Subfields<'a>,
    },
}

impl Body {
    /// The content of a control field with that text. Takes no memory.
    pub fn control(text: Bytes) -> Body
        requires { IsTrue (is_text text) }
        ensures { result ≡ Control text }
    {
        Body { spelling: text }
    }

    /// The content of a data field with these indicators and these subfields, one at least.
    pub fn of_subfields(
        alloc: Global,
        ind1: u8,
        ind2: u8,
        subfields: &[Subfield<'_>],
    ) -> Result<Body, Memory>
        requires some { 1 ≤ length subfields.now }
        requires formed { IsTrue (list_all is_subfield subfields.now) }
        ensures { IfOk result (λ b. b ≡ Data ind1 ind2 subfields.now) }
    {
        let mut spelling = Vec::new(alloc);
        spelling.extend_from_slice(&[ind1, ind2])?;
        for subfield in subfields {
            spelling.extend_from_slice(&[DELIMITER, subfield.code])?;
            spelling.extend_from_slice(subfield.text)?;
        }
        Ok(Body::spelled_by(Bytes::from(spelling)))
    }

    /// The content that these bytes spell. Takes no memory.
    pub fn spelled_by(spelling: Bytes) -> Body
        requires { IsSpelling spelling }
        ensures { result ≡ body_in spelling }
    {
        Body { spelling }
    }

    /// The bytes that spell the content in a record, without the terminator: a control field's text, or the indicators and
    /// each subfield after its delimiter. Takes no memory.
    pub fn spelling(&self) -> &[u8]
        ensures { result.now ≡ spelled self.now }
    {
        self.spelling.bytes()
    }

    /// What the content has. Takes no memory.
    pub fn parts(&self) -> Parts<'_>
        ensures { ArePartsOf self.now result }
    {
        match self.spelling.bytes() {
            [ind1, ind2, DELIMITER, ..] => Parts::Data {
                ind1: *ind1,
                ind2: *ind2,
                subfields: Subfields::of(&self.spelling.bytes()[2..]),
            },
            text => Parts::Control { text },
        }
    }

    /// The subfields of a data field, and none of a control field. Takes no memory.
    pub fn subfields(&self) -> Subfields<'_>
        ensures { result ≡ subfields_of self.now }
    {
        match self.spelling.bytes() {
            [_, _, DELIMITER, ..] => Subfields::of(&self.spelling.bytes()[2..]),
            _ => Subfields::none(),
        }
    }

    /// Whether this is a field's content under that tag, with all that a [`Field`](crate::field::Field) keeps. Takes no
    /// memory.
    pub fn is_field(&self, tag: &[u8; 3]) -> bool
        ensures { result ≡ is_field tag.now self.now }
    {
        is_tag(tag) && self.fits_tag(tag)
    }

    fn fits_tag(&self, tag: &[u8; 3]) -> bool
        ensures { result ≡ fits_tag tag.now self.now }
    {
        match self.parts() {
            Parts::Control { text } => is_control_tag(tag) && is_text(text),
            Parts::Data {
                ind1,
                ind2,
                subfields,
            } => !is_control_tag(tag) && is_data(ind1, ind2, subfields),
        }
    }
}

/// Whether these are two indicators and subfields, one at least.
fn is_data(ind1: u8, ind2: u8, subfields: Subfields<'_>) -> bool
    ensures { result ≡ ((is_indicator ind1 && is_indicator ind2)
        && (nat_le 1 (length subfields.entry) && list_all is_subfield subfields.entry)) }
{
    (is_indicator(ind1) && is_indicator(ind2))
        && (!subfields.spelling().is_empty() && have_form(subfields))
}

/// Whether each subfield's code is a subfield's, and its text is one.
fn have_form(subfields: Subfields<'_>) -> bool
    ensures { result ≡ list_all is_subfield subfields.entry }
{
    for subfield in subfields {
        if !is_subfield(&subfield) {
            return false;
        }
    }
    true
}

/// Whether the tag is three ASCII letters or digits. Takes no memory.
pub fn is_tag(tag: &[u8; 3]) -> bool
    ensures { result ≡ is_tag tag.now }
{
    are_tag_bytes(tag)
}

fn are_tag_bytes(bytes: &[u8]) -> bool
    ensures { result ≡ list_all is_tag_byte bytes.now }
{
    bytes.iter().all(|b| b.is_ascii_alphanumeric())
}

/// Whether it is the tag of a control field: it begins with `00`. Takes no memory.
pub fn is_control_tag(tag: &[u8; 3]) -> bool
    ensures { result ≡ is_control_tag tag.now }
{
    tag[0] == b'0' && tag[1] == b'0'
}

/// Whether the text has none of the bytes 0x1D, 0x1E and 0x1F. Takes no memory.
pub fn is_text(text: &[u8]) -> bool
    ensures { result ≡ is_text text.now }
{
    text.iter()
        .all(|b| !matches!(*b, RECORD_TERMINATOR..=DELIMITER))
}

/// Whether the byte may be an indicator. Takes no memory.
pub fn is_indicator(byte: u8) -> bool
    ensures { result ≡ is_indicator byte }
{
    matches!(byte, 0x20..=0x7E)
}

/// Whether the byte may be a subfield's code. Takes no memory.
pub fn is_subfield_code(byte: u8) -> bool
    ensures { result ≡ is_subfield_code byte }
{
    matches!(byte, 0x21..=0x7E)
}

/// Whether each of them may stand in a data field: its code is a subfield's, and its text is one. Takes no memory.
pub fn are_subfields(subfields: &[Subfield<'_>]) -> bool
    ensures { result ≡ list_all is_subfield subfields.now }
{
    subfields.iter().all(is_subfield)
}

fn is_subfield(subfield: &Subfield<'_>) -> bool
    ensures { result ≡ is_subfield subfield.now }
{
    is_subfield_code(subfield.code) && is_text(subfield.text)
}

impl Copied for Body {
    fn copied(&self, alloc: Global) -> Result<Body, Memory> {
        Ok(Body {
            spelling: self.spelling.copied(alloc)?,
        })
    }
}
