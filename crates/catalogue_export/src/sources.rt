//! What an export takes of a catalogue beside its editions.
ghost use Rattle.std.specs.Prelude.{◌≡◌};
ghost use Rattle.std.specs.Option.{option_copied};
ghost use Rattle.catalogue_export.specs.Sources.{plain, with_records};

use crate::records::Records;
use authority_names::name_table::NameTable;
use std::marker::Model;

/// The names by which works have keys, and the current records if local fields are to tell whose they are.
pub struct Sources<'a> {
    names: &'a NameTable,
    records: Option<&'a Records<'a>>,
}

/// Written by hand: a derived drop is proved again at every exit.
impl<'a> Drop for Sources<'a> {
    fn drop(self) {
        let Sources {
            names: _,
            records: _,
        } = self;
    }
}

impl<'a> Model for Sources<'a> {
    ghost use Rattle.std.specs.Option.{option_copied};
    ghost use Rattle.catalogue_export.specs.Sources.{SourcesValue, sources_code};

    ghost Value = { SourcesValue };

    ghost coded = { sources_code };

    ghost view = { λ s. record { names = s.names.now; records = option_copied s.records } };
}

impl<'a> Sources<'a> {
    /// The names alone. Takes no memory.
    pub fn plain(names: &'a NameTable) -> Sources<'a>
        ensures { result ≡ plain names.now }
    {
        Sources {
            names,
            records: None,
        }
    }

    /// The names, and the current records. Takes no memory.
    pub fn with_records(names: &'a NameTable, records: &'a Records<'a>) -> Sources<'a>
        ensures { result ≡ with_records names.now records.now }
    {
        Sources {
            names,
            records: Some(records),
        }
    }

    /// The names. Takes no memory.
    pub(crate) fn names(&self) -> &NameTable
        ensures { result.now ≡ self.now.names }
    {
        self.names
    }

    /// The current records, or None if local fields are not to tell whose they are. Takes no memory.
    pub(crate) fn records(&self) -> Option<&Records<'a>>
        ensures { option_copied result ≡ self.now.records }
    {
        self.records
    }
}
