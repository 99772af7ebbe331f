//! The table of the rows.
ghost use Rattle.std.specs.Prelude.{◌≡◌, ◌+◌, ◌++◌, ◌<◌, ◌||◌, true, false, Some, OnOk, IfOk, OnErr, vec_len};
ghost use Rattle.std.specs.declared.option.Option.{Option};
ghost use Rattle.marc_fields.specs.declared.rules.Failure.{Failure as FailureModel};
ghost use Rattle.union_explain.specs.Broken.{broken_by, is_as_told, is_astray};
ghost use Rattle.union_explain.specs.Rows.{place_cells, name_cells, said_of, advised_of, word_cells, tag_at, row, heading};

use crate::broken::{broken_by, is_as_told};
use crate::form::Form;
use crate::frame::Frame;
use crate::glance::{control_number, tag};
use crate::reported::Reported;
use crate::rules::{advice, meaning, points_at_entry};
use crate::texts;
use marc_fields::rules::{Failure, Rule};
use std::alloc::{AllocError, Global};
use std::marker::Model;
use union_base::memory::Memory;

/// The rows so far. Contracts see their text, how many there are, and whether some line told of no frame of its file.
#[derive(Drop)]
pub struct Table {
    text: Vec<u8>,
    rows: u64,
    astray: bool,
}

impl Model for Table {
    ghost use Rattle.union_explain.specs.Tables.{Written, written_of, IsCounted};

    ghost Value = { Written };

    ghost view = { written_of };

    ghost invariant = { IsCounted };
}

/// Adds which record it is.
fn add_place(
    text: &mut Vec<u8>,
    form: Form,
    library: &[u8],
    number: u64,
    frame: &Frame,
) -> Result<(), AllocError>
    ensures { OnOk result (text.new.items ≡ text.old.items
        ++ place_cells form library.now number frame.now) }
{
    form.add_cell(text, library)?;
    form.add_number(text, number)?;
    form.add_number(text, frame.first())?;
    form.add_number(text, frame.size())?;
    Ok(())
}

/// The tag of the entry at the place, and nothing where the place is no entry's.
fn tag_at(rule: Rule, place: u64, bytes: &[u8]) -> &[u8]
    ensures { result.now ≡ tag_at rule place bytes.now }
{
    if points_at_entry(rule) {
        tag(place, bytes)
    } else {
        &[]
    }
}

/// Adds what the record calls itself, and which field and rule it is about.
fn add_names(
    text: &mut Vec<u8>,
    form: Form,
    rule: Rule,
    place: u64,
    bytes: &[u8],
) -> Result<(), AllocError>
    ensures { OnOk result (text.new.items ≡ text.old.items
        ++ name_cells form rule place bytes.now) }
{
    form.add_next(text, control_number(bytes))?;
    form.add_next(text, tag_at(rule, place, bytes))?;
    form.add_next(text, rule.name())?;
    Ok(())
}

/// What is said of a record that breaks that rule, where its report tells of another or not.
fn said_of(told: &Reported, found: Option<Failure>) -> &'static [u8]
    ensures { result.now ≡ said_of told.now found }
{
    if is_as_told(told, found) {
        meaning(told.rule, told.place)
    } else if found.is_some() {
        texts::OTHER_RULE
    } else {
        texts::NO_RULE
    }
}

/// What to do about it.
fn advised_of(told: &Reported, found: Option<Failure>) -> &'static [u8]
    ensures { result.now ≡ advised_of told.now found }
{
    if is_as_told(told, found) {
        advice(told.rule, told.place)
    } else {
        texts::OTHER_FILE_ADVICE
    }
}

/// Adds what is said of the record, and what to do.
fn add_words(
    text: &mut Vec<u8>,
    form: Form,
    told: &Reported,
    found: Option<Failure>,
) -> Result<(), AllocError>
    ensures some { OnOk result (0 < vec_len text.new) }
    ensures text { OnOk result (text.new.items
        ≡ text.old.items ++ word_cells form told.now found) }
{
    form.add_next(text, said_of(told, found))?;
    form.add_next(text, advised_of(told, found))?;
    text.push(b'\n')?;
    Ok(())
}

/// The row of a refused record, whose frame breaks that rule first.
fn row(
    alloc: Global,
    form: Form,
    library: &[u8],
    told: &Reported,
    frame: &Frame,
    found: Option<Failure>,
) -> Result<Vec<u8>, AllocError>
    requires { found ≡ broken_by frame.now }
    ensures value { IfOk result (λ text. text.items ≡ row form library.now told.now frame.now) }
    ensures some { IfOk result (λ text. 0 < vec_len text) }
{
    let mut text = Vec::new(alloc);
    add_place(&mut text, form, library, told.number, frame)?;
    add_names(&mut text, form, told.rule, told.place, frame.bytes())?;
    add_words(&mut text, form, told, found)?;
    Ok(text)
}

impl Table {
    /// A table of no rows, with its heading.
    pub fn new(alloc: Global, form: Form) -> Result<Table, AllocError>
        ensures text { IfOk result (λ table. table.text ≡ heading form) }
        ensures rows { IfOk result (λ table. table.rows ≡ 0) }
        ensures astray { IfOk result (λ table. table.astray ≡ false) }
    {
        Ok(Table {
            text: Vec::from_slice(alloc, form.heading())?,
            rows: 0,
            astray: false,
        })
    }

    /// The text of the table. Takes no memory.
    pub fn text(&self) -> &[u8]
        ensures { result.now ≡ self.now.text }
    {
        self.text.as_slice()
    }

    /// How many rows there are. Takes no memory.
    pub fn rows(&self) -> u64
        ensures { result ≡ self.now.rows }
    {
        self.rows
    }

    /// Whether some line of the report told of no frame of its file: there is none of its number, or it does not break that
    /// rule at that place. Takes no memory.
    pub fn is_astray(&self) -> bool
        ensures { result ≡ self.now.astray }
    {
        self.astray
    }

    /// Notes that the file has no frame of a number that the report names. Takes no memory.
    pub fn miss(&mut self)
        ensures { self.new
            ≡ record { text = self.old.text; rows = self.old.rows; astray = true } }
    {
        self.astray = true;
    }

    /// Adds the row of a refused record. If allocation fails, the table stays as it was.
    pub fn add(
        &mut self,
        alloc: Global,
        form: Form,
        library: &[u8],
        told: &Reported,
        frame: &Frame,
    ) -> Result<(), Memory>
        ensures text { OnOk result (self.new.text ≡ self.old.text
            ++ row form library.now told.now frame.now) }
        ensures rows { OnOk result (self.new.rows ≡ self.old.rows + 1) }
        ensures astray { OnOk result (self.new.astray
            ≡ (self.old.astray || is_astray told.now (Some frame.now))) }
        ensures err { OnErr result (self.new ≡ self.old) }
    {
        let found = broken_by(alloc, frame)?;
        let row = row(alloc, form, library, told, frame, found)?;
        self.text.extend_from_slice(row.as_slice())?;
        self.rows += 1;
        self.astray = self.astray || !is_as_told(told, found);
        Ok(())
    }
}
