//! Work keys and names whose expected values another program made.
ghost use Rattle.std.specs.Prelude.{All, IsUtf8, IfOk, OnOk};
ghost use Rattle.std.specs.Option.{ForSome, option_copied};
ghost use Rattle.workset_keys.specs.Names.{HasTexts};

use crate::tables::{CELL_END, assert_cases};
use std::alloc::Global;
use std::test::Fail;
use union_base::body::{Body, are_subfields};
use union_base::bytes::Bytes;
use union_base::field::Field;
use union_base::library_code::LibraryCode;
use union_base::record_id::RecordId;
use union_base::subfield::Subfield;
use workset_keys::fields::name_of;
use workset_keys::work_key::work_key;

mod cases;

/// Begins a subfield.
const DELIMITER: char = '$';

/// What the tags of added entries begin with.
const ADDED: u8 = b'7';

#[test]
fn work_keys(rt: HostRuntime) -> Result<(), Fail> {
    assert_cases(&rt, rt.alloc(), cases::WORK_KEYS, 87, has_key)
}

#[test]
fn names(rt: HostRuntime) -> Result<(), Fail> {
    assert_cases(&rt, rt.alloc(), cases::NAMES, 30, has_name)
}

/// A title as long as a field has room for.
#[test]
fn long_title(rt: HostRuntime) -> Result<(), Fail> {
    let alloc = rt.alloc();
    let letters = "é".repeat(alloc, 4_990)?;
    let form = "e".repeat(alloc, 4_990)?;
    let case = format!(in alloc; "{form}///LIBA.w1¦LIBA¦w1¦24500$a{letters}")?;
    assert!(rt; has_key(alloc, case.as_str())?);
    Ok(())
}

/// Whether the record of a case has the key that is expected. A record is its library, its control number and its fields.
fn has_key(alloc: Global, case: &str) -> Result<bool, Fail> {
    let (key, cells) = case.split_once(CELL_END).ok_or("a library")?;
    let (library, cells) = cells.split_once(CELL_END).ok_or("a control number")?;
    let (control, cells) = cells.split_once(CELL_END).ok_or("fields")?;
    let id = RecordId {
        library: LibraryCode::read(library.as_bytes()).ok_or("a library code")?,
        control: Bytes::of(alloc, control.as_bytes())?,
    };
    let fields = fields_of(alloc, cells, false)?;
    let added = fields_of(alloc, cells, true)?;
    let made = key_of_fields(alloc, &fields, &added, &id)?;
    Ok(made.bytes() == key.as_bytes())
}

/// Whether the field of a case has the name that is expected.
fn has_name(alloc: Global, case: &str) -> Result<bool, Fail> {
    let (name, cell) = case.split_once(CELL_END).ok_or("a field")?;
    let field = field_of(alloc, cell)?;
    Ok(name_of(alloc, &field)?.bytes() == name.as_bytes())
}

/// The key by a record's fields, of which `added` are the added entries.
fn key_of_fields(
    alloc: Global,
    fields: &[Field],
    added: &[Field],
    id: &RecordId,
) -> Result<Bytes, Fail>
    requires fields { All HasTexts fields.now }
    requires added { All HasTexts added.now }
{
    let main = field_with(fields, b"1");
    let uniform = field_with(fields, b"240");
    let title = field_with(fields, b"245").ok_or("a title")?;
    Ok(work_key(alloc, main, uniform, title, added, id)?)
}

/// The first field whose tag begins so.
fn field_with<'a>(fields: &'a [Field], front: &[u8]) -> Option<&'a Field>
    requires { All HasTexts fields.now }
    ensures { ForSome (option_copied result) HasTexts }
{
    for field in fields {
        if field.tag.starts_with(front) {
            return Some(field);
        }
    }
    None
}

/// The added entries, or the other fields, of cells such as `24500$aCat`.
fn fields_of(alloc: Global, cells: &str, added: bool) -> Result<Vec<Field>, Fail>
    ensures { IfOk result (λ v. All HasTexts v.items) }
{
    let mut fields = Vec::new(alloc);
    for cell in cells.split(CELL_END) {
        if (cell.as_bytes().first() == Some(&ADDED)) == added {
            push_field(alloc, &mut fields, cell)?;
        }
    }
    Ok(fields)
}

fn push_field(alloc: Global, fields: &mut Vec<Field>, cell: &str) -> Result<(), Fail>
    requires { All HasTexts fields.old.items }
    ensures { OnOk result (All HasTexts fields.new.items) }
{
    let field = field_of(alloc, cell)?;
    fields.push(field)?;
    Ok(())
}

fn field_of(alloc: Global, cell: &str) -> Result<Field, Fail>
    ensures { IfOk result HasTexts }
{
    let (head, rest) = cell.split_once(DELIMITER).ok_or("subfields")?;
    let subfields = subfields_of(alloc, rest)?;
    let [first, second, third, ind1, ind2] = head.as_bytes() else {
        return no_field();
    };
    let tag = [*first, *second, *third];
    if subfields.is_empty() || !are_subfields(&subfields) {
        return no_field();
    }
    let body = Body::of_subfields(alloc, *ind1, *ind2, &subfields)?;
    if body.is_field(&tag) {
        Ok(Field { tag, body })
    } else {
        no_field()
    }
}

fn no_field() -> Result<Field, Fail>
    ensures { IfOk result HasTexts }
{
    let refused: Result<Field, &str> = Err("no field");
    Ok(refused?)
}

/// Subfields from a text such as `aHill$d1900`.
fn subfields_of(alloc: Global, cells: &str) -> Result<Vec<Subfield<'_>>, Fail>
    ensures { IfOk result (λ v. All (λ s. IsUtf8 s.text) v.items) }
{
    let mut subfields = Vec::new(alloc);
    for cell in cells.split(DELIMITER) {
        push_subfield(&mut subfields, cell)?;
    }
    Ok(subfields)
}

fn push_subfield<'a>(subfields: &mut Vec<Subfield<'a>>, cell: &'a str) -> Result<(), Fail>
    requires { All (λ s. IsUtf8 s.text) subfields.old.items }
    ensures { OnOk result (All (λ s. IsUtf8 s.text) subfields.new.items) }
{
    let code = *cell.as_bytes().first().ok_or("a code")?;
    let mut rest = cell.chars();
    let _code = rest.next();
    subfields.push(Subfield {
        code,
        text: rest.as_str().as_bytes(),
    })?;
    Ok(())
}
