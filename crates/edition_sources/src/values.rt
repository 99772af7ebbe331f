//! The values by which records match, and what brings them to an edition.
ghost use Rattle.std.specs.Prelude.{◌≡◌, IfOk};
ghost use Rattle.std.specs.Option.{option_copied};
ghost use Rattle.edition_sources.specs.Values.{value_meaning, is_in, brings, bearer, field_with};

use crate::giving_fields::{isbn_field, issn_field, name_field, number_field};
use catalogue_editions::edition::Edition;
use edition_derivations::common::has;
use edition_derivations::holding::holds;
use field_merge::content::Content;
use match_features::features::Features;
use std::alloc::Global;
use union_base::bytes::Bytes;
use union_base::field::Field;
use union_base::memory::Memory;

/// A value by which records match.
#[derive(Clone, Copy, Debug)]
pub enum Value<'a> {
    /// A control number with its source.
    Control(&'a (Bytes, Bytes)),
    Isbn(&'a [u8; 13]),
    Issn(&'a [u8; 8]),
    /// A title in normal form.
    Title(&'a Bytes),
    /// A year.
    Date(&'a [u8; 4]),
    /// A name in normal form.
    Name(&'a Bytes),
    /// A type of record with its bibliographic level.
    Kind(&'a [u8; 2]),
}

impl<'a> Value<'a> {
    /// Whether the value is among the features. Takes no memory.
    pub fn is_in(&self, features: &Features) -> bool
        ensures { result ≡ is_in (value_meaning self.now) features.now }
    {
        match self {
            Value::Control(pair) => has(features.control.as_slice(), pair),
            Value::Isbn(isbn) => has(features.isbns.as_slice(), isbn),
            Value::Issn(issn) => has(features.issns.as_slice(), issn),
            Value::Title(title) => has(features.titles.as_slice(), title),
            Value::Date(date) => has(features.dates.as_slice(), date),
            Value::Name(name) => has(features.names.as_slice(), name),
            Value::Kind(kind) => has(features.types.as_slice(), kind),
        }
    }

    /// Whether the record is one of the edition's, and has the value.
    fn is_brought(&self, edition: &Edition, rec: &Edition) -> bool
        ensures { result ≡ brings (value_meaning self.now) edition.now rec.now }
    {
        self.is_in(rec.features()) && holds(edition, rec.least())
    }

    /// The first of the edition's records that has the value. Takes no memory.
    pub fn bearer<'b>(&self, records: &'b [Edition], edition: &Edition) -> Option<&'b Edition>
        ensures { option_copied result ≡ bearer (value_meaning self.now) records.now edition.now }
    {
        records.iter().find(|rec| self.is_brought(edition, rec))
    }

    /// The field that gives a record the value: None where that is its 001, its 008 or its leader.
    ///
    /// Returns `Memory` if allocation fails.
    pub fn field<'b>(
        &self,
        alloc: Global,
        content: &'b Content,
    ) -> Result<Option<&'b Field>, Memory>
        ensures { IfOk result (λ found.
            option_copied found ≡ field_with (value_meaning self.now) content.now) }
    {
        match self {
            Value::Control(pair) => number_field(alloc, content, pair),
            Value::Isbn(isbn) => Ok(isbn_field(content, isbn)),
            Value::Issn(issn) => Ok(issn_field(content, issn)),
            Value::Title(_) => Ok(Some(&content.f245.field)),
            Value::Name(_) => Ok(name_field(content)),
            Value::Date(_) | Value::Kind(_) => Ok(None),
        }
    }
}
