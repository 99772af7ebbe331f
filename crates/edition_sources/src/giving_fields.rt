//! The field of a record that gives it a value.
ghost use Rattle.std.specs.Prelude.{◌≡◌, find, IfOk};
ghost use Rattle.std.specs.List.{list_any};
ghost use Rattle.std.specs.Option.{option_copied};
ghost use Rattle.union_base.specs.SortedLists.{has};
ghost use Rattle.match_features.specs.Kept.{texts_cmp, pairs_cmp};
ghost use Rattle.record_features.specs.Gathering.{isbn_in, issn_in, lccn_in, system_number_in};
ghost use Rattle.edition_sources.specs.GivingFields.{gives_isbn, gives_issn, gives_lccn, gives_system_number, gives_number};
ghost use Rattle.edition_sources.specs.GivingFields.{number_field, isbn_field, issn_field, name_field};

use field_merge::content::Content;
use isbn_keys::control::system_number;
use isbn_keys::isbn::isbn;
use isbn_keys::issn::issn;
use isbn_keys::lccn::lccn;
use marc_parts::parts::has_tag;
use std::alloc::Global;
use union_base::bytes::Bytes;
use union_base::field::Field;
use union_base::memory::Memory;
use union_base::subfield::Subfield;
use union_base::subfields::Subfields;

/// The code of the subfields that numbers are read from (MARC 21, 010, 020, 022 and 035, `$a`).
const NUMBER: u8 = b'a';

/// The source of the numbers of the Library of Congress.
const CONGRESS: [u8; 3] = *b"DLC";

/// Whether the subfield is that ISBN.
fn is_isbn(subfield: &Subfield<'_>, wanted: &[u8; 13]) -> bool
    ensures { result ≡ has texts_cmp (isbn_in subfield.now) wanted.now }
{
    if subfield.code != NUMBER {
        return false;
    }
    match isbn(subfield.text) {
        Some(found) => wanted.cmp(&found).is_eq(),
        None => false,
    }
}

fn have_isbn(subfields: Subfields<'_>, wanted: &[u8; 13]) -> bool
    ensures { result ≡ list_any (λ s. has texts_cmp (isbn_in s) wanted.now) subfields.entry }
{
    for subfield in subfields {
        if is_isbn(&subfield, wanted) {
            return true;
        }
    }
    false
}

/// Whether the field gives the ISBN.
fn gives_isbn(field: &Field, wanted: &[u8; 13]) -> bool
    ensures { result ≡ gives_isbn wanted.now field.now }
{
    has_tag(b"020", field) && have_isbn(field.body.subfields(), wanted)
}

/// The field of a record that gives it the ISBN. Takes no memory.
pub fn isbn_field<'a>(content: &'a Content, wanted: &[u8; 13]) -> Option<&'a Field>
    ensures { option_copied result ≡ isbn_field wanted.now content.now }
{
    let fields = content.united.as_slice();
    fields.iter().find(|field| gives_isbn(field, wanted))
}

/// Whether the subfield is that ISSN.
fn is_issn(subfield: &Subfield<'_>, wanted: &[u8; 8]) -> bool
    ensures { result ≡ has texts_cmp (issn_in subfield.now) wanted.now }
{
    if subfield.code != NUMBER {
        return false;
    }
    match issn(subfield.text) {
        Some(found) => wanted.cmp(&found).is_eq(),
        None => false,
    }
}

fn have_issn(subfields: Subfields<'_>, wanted: &[u8; 8]) -> bool
    ensures { result ≡ list_any (λ s. has texts_cmp (issn_in s) wanted.now) subfields.entry }
{
    for subfield in subfields {
        if is_issn(&subfield, wanted) {
            return true;
        }
    }
    false
}

/// Whether the field gives the ISSN.
fn gives_issn(field: &Field, wanted: &[u8; 8]) -> bool
    ensures { result ≡ gives_issn wanted.now field.now }
{
    has_tag(b"022", field) && have_issn(field.body.subfields(), wanted)
}

/// The field of a record that gives it the ISSN. Takes no memory.
pub fn issn_field<'a>(content: &'a Content, wanted: &[u8; 8]) -> Option<&'a Field>
    ensures { option_copied result ≡ issn_field wanted.now content.now }
{
    let fields = content.united.as_slice();
    fields.iter().find(|field| gives_issn(field, wanted))
}

/// Whether the subfield is that number of the Library of Congress. Returns `Memory` if allocation fails.
fn is_lccn(alloc: Global, subfield: &Subfield<'_>, wanted: &(Bytes, Bytes)) -> Result<bool, Memory>
    ensures { IfOk result (λ is. is ≡ has pairs_cmp (lccn_in subfield.now) wanted.now) }
{
    if subfield.code != NUMBER {
        return Ok(false);
    }
    match lccn(alloc, subfield.text)? {
        Some(number) => {
            let found = (Bytes::of(alloc, &CONGRESS)?, number);
            Ok(wanted.cmp(&found).is_eq())
        }
        None => Ok(false),
    }
}

fn have_lccn(
    alloc: Global,
    subfields: Subfields<'_>,
    wanted: &(Bytes, Bytes),
) -> Result<bool, Memory>
    ensures { IfOk result (λ have. have
        ≡ list_any (λ s. has pairs_cmp (lccn_in s) wanted.now) subfields.entry) }
{
    for subfield in subfields {
        if is_lccn(alloc, &subfield, wanted)? {
            return Ok(true);
        }
    }
    Ok(false)
}

/// Whether the subfield is that system number. Returns `Memory` if allocation fails.
fn is_system_number(
    alloc: Global,
    subfield: &Subfield<'_>,
    wanted: &(Bytes, Bytes),
) -> Result<bool, Memory>
    ensures { IfOk result (λ is. is ≡ has pairs_cmp (system_number_in subfield.now) wanted.now) }
{
    if subfield.code != NUMBER {
        return Ok(false);
    }
    match system_number(alloc, subfield.text)? {
        Some(found) => Ok(wanted.cmp(&found).is_eq()),
        None => Ok(false),
    }
}

fn have_system_number(
    alloc: Global,
    subfields: Subfields<'_>,
    wanted: &(Bytes, Bytes),
) -> Result<bool, Memory>
    ensures { IfOk result (λ have. have
        ≡ list_any (λ s. has pairs_cmp (system_number_in s) wanted.now) subfields.entry) }
{
    for subfield in subfields {
        if is_system_number(alloc, &subfield, wanted)? {
            return Ok(true);
        }
    }
    Ok(false)
}

fn gives_lccn(alloc: Global, field: &Field, wanted: &(Bytes, Bytes)) -> Result<bool, Memory>
    ensures { IfOk result (λ gives. gives ≡ gives_lccn wanted.now field.now) }
{
    if has_tag(b"010", field) {
        have_lccn(alloc, field.body.subfields(), wanted)
    } else {
        Ok(false)
    }
}

fn gives_system_number(
    alloc: Global,
    field: &Field,
    wanted: &(Bytes, Bytes),
) -> Result<bool, Memory>
    ensures { IfOk result (λ gives. gives ≡ gives_system_number wanted.now field.now) }
{
    if has_tag(b"035", field) {
        have_system_number(alloc, field.body.subfields(), wanted)
    } else {
        Ok(false)
    }
}

/// Whether the field gives the control number with its source. Returns `Memory` if allocation fails.
fn gives_number(alloc: Global, field: &Field, wanted: &(Bytes, Bytes)) -> Result<bool, Memory>
    ensures { IfOk result (λ gives. gives ≡ gives_number wanted.now field.now) }
{
    if gives_lccn(alloc, field, wanted)? {
        Ok(true)
    } else {
        gives_system_number(alloc, field, wanted)
    }
}

/// The first of the fields that gives the number.
fn first_giving<'a>(
    alloc: Global,
    fields: &'a [Field],
    wanted: &(Bytes, Bytes),
) -> Result<Option<&'a Field>, Memory>
    ensures { IfOk result (λ found.
        option_copied found ≡ find (gives_number wanted.now) fields.now) }
{
    let mut left = fields;
    while let Some((field, rest)) = left.split_first() {
        if gives_number(alloc, field, wanted)? {
            return Ok(Some(field));
        }
        left = rest;
    }
    Ok(None)
}

/// The field of a record that gives it the control number with its source: None where the record's 001, with its 003 or its
/// library's code, gives it. Returns `Memory` if allocation fails.
pub fn number_field<'a>(
    alloc: Global,
    content: &'a Content,
    wanted: &(Bytes, Bytes),
) -> Result<Option<&'a Field>, Memory>
    ensures { IfOk result (λ found. option_copied found ≡ number_field wanted.now content.now) }
{
    if let Some(slot) = &content.f010 {
        if gives_number(alloc, &slot.field, wanted)? {
            return Ok(Some(&slot.field));
        }
    }
    first_giving(alloc, content.united.as_slice(), wanted)
}

/// The field of a record that gives it its name. Takes no memory.
pub fn name_field(content: &Content) -> Option<&Field>
    ensures { option_copied result ≡ name_field content.now }
{
    match &content.f1xx {
        Some(slot) => Some(&slot.field),
        None => None,
    }
}
