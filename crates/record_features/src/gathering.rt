//! What the fields of a record give to its features, as `specs/Gathering.antt` has it, gathered in one pass.
//!
//! Cost: a list takes memory only when something comes into it. Most records have one ISBN, one title and one name at most, so
//! these lists get room for one value at a time.
ghost use Rattle.std.specs.Prelude.{◌≡◌, ◌++◌, All, IfOk, OnOk};
ghost use Rattle.std.specs.List.{flat_map};
ghost use Rattle.workset_keys.specs.Names.{HasTexts};
ghost use Rattle.record_features.specs.Gathering.{lccn_in, system_number_in, isbn_in, issn_in, numbers_in, isbns_in, issns_in, title_in, name_in, is_name};
ghost use Rattle.naco_normal.specs.Words.{where_not_empty};

use isbn_keys::control::system_number;
use isbn_keys::isbn::isbn;
use isbn_keys::issn::issn;
use isbn_keys::lccn::lccn;
use marc_parts::parts::has_tag;
use std::alloc::Global;
use union_base::bytes::Bytes;
use union_base::field::Field;
use union_base::memory::Memory;
use union_base::subfield::Subfield;
use union_base::subfields::Subfields;
use workset_keys::fields::{name_of, title245_of};

/// The code of the subfields that numbers are read from (MARC 21, 010, 020, 022 and 035, `$a`).
const NUMBER: u8 = b'a';

/// The source of the numbers of the Library of Congress.
const CONGRESS: [u8; 3] = *b"DLC";

/// What fields give, in the order in which it was found.
#[derive(Drop)]
pub(crate) struct Findings {
    pub(crate) control: Vec<(Bytes, Bytes)>,
    pub(crate) isbns: Vec<[u8; 13]>,
    pub(crate) issns: Vec<[u8; 8]>,
    pub(crate) titles: Vec<Bytes>,
    pub(crate) names: Vec<Bytes>,
}

/// What the fields give, after the control pairs that are there already.
pub(crate) fn gathered(
    alloc: Global,
    control: Vec<(Bytes, Bytes)>,
    fields: &[Field],
) -> Result<Findings, Memory>
    requires { All HasTexts fields.now }
    ensures control { IfOk result (λ found. found.control.items ≡ control.items
        ++ flat_map numbers_in fields.now) }
    ensures isbns { IfOk result (λ found. found.isbns.items ≡ flat_map isbns_in fields.now) }
    ensures issns { IfOk result (λ found. found.issns.items ≡ flat_map issns_in fields.now) }
    ensures titles { IfOk result (λ found. found.titles.items ≡ flat_map title_in fields.now) }
    ensures names { IfOk result (λ found. found.names.items ≡ flat_map name_in fields.now) }
{
    let mut found = Findings {
        control,
        isbns: Vec::new(alloc),
        issns: Vec::new(alloc),
        titles: Vec::new(alloc),
        names: Vec::new(alloc),
    };
    for field in fields {
        found.take(alloc, field)?;
    }
    Ok(found)
}

impl Findings {
    /// Takes what one more field gives, by its tag: numbers (010, 035), ISBNs (020), ISSNs (022), a name (100, 110, 111) or a
    /// title (245).
    fn take(&mut self, alloc: Global, field: &Field) -> Result<(), Memory>
        requires { HasTexts field.now }
        ensures control { OnOk result (self.new.control.items ≡ self.old.control.items
            ++ numbers_in field.now) }
        ensures isbns { OnOk result (self.new.isbns.items ≡ self.old.isbns.items
            ++ isbns_in field.now) }
        ensures issns { OnOk result (self.new.issns.items ≡ self.old.issns.items
            ++ issns_in field.now) }
        ensures titles { OnOk result (self.new.titles.items ≡ self.old.titles.items
            ++ title_in field.now) }
        ensures names { OnOk result (self.new.names.items ≡ self.old.names.items
            ++ name_in field.now) }
    {
        let subfields = field.body.subfields();
        match field.tag {
            [b'0', b'1', b'0'] => push_lccns(alloc, &mut self.control, subfields),
            [b'0', b'3', b'5'] => push_system_numbers(alloc, &mut self.control, subfields),
            [b'0', b'2', b'0'] => push_isbns(&mut self.isbns, subfields),
            [b'0', b'2', b'2'] => push_issns(&mut self.issns, subfields),
            [b'1', b'0', b'0'] | [b'1', b'1', b'0'] | [b'1', b'1', b'1'] => {
                push_where_not_empty(&mut self.names, name_of(alloc, field)?)
            }
            [b'2', b'4', b'5'] => {
                push_where_not_empty(&mut self.titles, title245_of(alloc, field)?)
            }
            _ => Ok(()),
        }
    }
}

/// The LCCN of each $a of a field 010.
fn push_lccns(
    alloc: Global,
    control: &mut Vec<(Bytes, Bytes)>,
    subfields: Subfields<'_>,
) -> Result<(), Memory>
    ensures { OnOk result (control.new.items ≡ control.old.items
        ++ flat_map lccn_in subfields.entry) }
{
    for subfield in subfields {
        push_lccn(alloc, control, &subfield)?;
    }
    Ok(())
}

fn push_lccn(
    alloc: Global,
    control: &mut Vec<(Bytes, Bytes)>,
    subfield: &Subfield<'_>,
) -> Result<(), Memory>
    ensures { OnOk result (control.new.items ≡ control.old.items ++ lccn_in subfield.now) }
{
    if subfield.code != NUMBER {
        return Ok(());
    }
    if let Some(number) = lccn(alloc, subfield.text)? {
        let source = Bytes::of(alloc, &CONGRESS)?;
        control.push((source, number))?;
    }
    Ok(())
}

/// The system number of each $a of a field 035.
fn push_system_numbers(
    alloc: Global,
    control: &mut Vec<(Bytes, Bytes)>,
    subfields: Subfields<'_>,
) -> Result<(), Memory>
    ensures { OnOk result (control.new.items ≡ control.old.items
        ++ flat_map system_number_in subfields.entry) }
{
    for subfield in subfields {
        push_system_number(alloc, control, &subfield)?;
    }
    Ok(())
}

fn push_system_number(
    alloc: Global,
    control: &mut Vec<(Bytes, Bytes)>,
    subfield: &Subfield<'_>,
) -> Result<(), Memory>
    ensures { OnOk result (control.new.items ≡ control.old.items ++ system_number_in subfield.now) }
{
    if subfield.code != NUMBER {
        return Ok(());
    }
    if let Some(pair) = system_number(alloc, subfield.text)? {
        control.push(pair)?;
    }
    Ok(())
}

/// Each 020 $a that is an ISBN.
fn push_isbns(isbns: &mut Vec<[u8; 13]>, subfields: Subfields<'_>) -> Result<(), Memory>
    ensures { OnOk result (isbns.new.items ≡ isbns.old.items ++ flat_map isbn_in subfields.entry) }
{
    for subfield in subfields {
        push_isbn(isbns, &subfield)?;
    }
    Ok(())
}

fn push_isbn(isbns: &mut Vec<[u8; 13]>, subfield: &Subfield<'_>) -> Result<(), Memory>
    ensures { OnOk result (isbns.new.items ≡ isbns.old.items ++ isbn_in subfield.now) }
{
    if subfield.code != NUMBER {
        return Ok(());
    }
    if let Some(digits) = isbn(subfield.text) {
        isbns.reserve_exact(1)?;
        isbns.push(digits)?;
    }
    Ok(())
}

/// Each 022 $a that is an ISSN.
fn push_issns(issns: &mut Vec<[u8; 8]>, subfields: Subfields<'_>) -> Result<(), Memory>
    ensures { OnOk result (issns.new.items ≡ issns.old.items ++ flat_map issn_in subfields.entry) }
{
    for subfield in subfields {
        push_issn(issns, &subfield)?;
    }
    Ok(())
}

fn push_issn(issns: &mut Vec<[u8; 8]>, subfield: &Subfield<'_>) -> Result<(), Memory>
    ensures { OnOk result (issns.new.items ≡ issns.old.items ++ issn_in subfield.now) }
{
    if subfield.code != NUMBER {
        return Ok(());
    }
    if let Some(key) = issn(subfield.text) {
        issns.push(key)?;
    }
    Ok(())
}

fn push_where_not_empty(texts: &mut Vec<Bytes>, text: Bytes) -> Result<(), Memory>
    ensures { OnOk result (texts.new.items ≡ texts.old.items ++ where_not_empty text) }
{
    if !text.bytes().is_empty() {
        texts.reserve_exact(1)?;
        texts.push(text)?;
    }
    Ok(())
}
