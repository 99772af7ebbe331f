//! Records written as lines of JSON.
ghost use Rattle.std.specs.Prelude.{◌≡◌, ◌++◌, IsTrue, OnOk, OnErr};
ghost use Rattle.std.specs.List.{list_all, flat_map};
ghost use Rattle.std.specs.Str.{is_utf8};
ghost use Rattle.serde_json.specs.Data.{string};
ghost use Rattle.union_base.specs.Bodies.{Data};
ghost use Rattle.union_base.specs.Fields.{is_indicator, is_subfield};
ghost use Rattle.marc_fields.specs.Appending.{Appends};
ghost use Rattle.marc_parts.specs.Loads.{is_utf8_subfield, is_utf8_field};
ghost use Rattle.marc_json.specs.Values.{subfield_value, body_value, field_value, record_value, leader_characters, json_line};
ghost use Rattle.marc_json.specs.Tokens.{value_tokens, Sends};

use json::Writer;
use marc_leader::codes::LeaderCodes;
use marc_leader::leader::{LEADER_SIZE, Leader, write_leader};
use marc_parts::marc_record::Record;
use std::alloc::AllocError;
use std::mem;
use union_base::body::Parts;
use union_base::field::Field;
use union_base::memory::Memory;
use union_base::subfield::Subfield;
use union_base::subfields::Subfields;

/// Ends a line.
const LINE_FEED: u8 = b'\n';

/// The bytes as a text.
fn as_text(bytes: &[u8]) -> &str
    requires { IsTrue (is_utf8 bytes.now) }
    ensures { result.now ≡ bytes.now }
{
    match str::from_utf8(bytes) {
        Ok(text) => text,
        Err(_) => unreachable!(),
    }
}

/// Writes the subfield: an object whose one key is the code.
#[tactic(auto, unfolding(crate::specs::Tokens::value_tokens))]
fn write_subfield(subfield: &Subfield<'_>, out: &mut Writer) -> Result<(), AllocError>
    requires formed { IsTrue (is_subfield subfield.now) }
    requires utf8 { IsTrue (is_utf8_subfield subfield.now) }
    ensures { Sends result out.old out.new (value_tokens (subfield_value subfield.now)) }
{
    out.begin_object()?;
    out.key(as_text(&[subfield.code]))?;
    out.string(as_text(subfield.text))?;
    out.end_object()
}

/// Writes the subfields, one after the other.
fn write_subfields(subfields: Subfields<'_>, out: &mut Writer) -> Result<(), AllocError>
    requires formed { IsTrue (list_all is_subfield subfields) }
    requires utf8 { IsTrue (list_all is_utf8_subfield subfields) }
    ensures { Sends result out.old out.new
        (flat_map (λ s. value_tokens (subfield_value s)) subfields.entry) }
{
    for subfield in subfields {
        write_subfield(&subfield, out)?;
    }
    Ok(())
}

/// Writes the content of a data field: an object with the indicators and the list of the subfields.
fn write_data(
    ind1: u8,
    ind2: u8,
    subfields: Subfields<'_>,
    out: &mut Writer,
) -> Result<(), AllocError>
    requires ind1 { IsTrue (is_indicator ind1) }
    requires ind2 { IsTrue (is_indicator ind2) }
    requires formed { IsTrue (list_all is_subfield subfields) }
    requires utf8 { IsTrue (list_all is_utf8_subfield subfields) }
    ensures { Sends result out.old out.new
        (value_tokens (body_value (Data ind1 ind2 subfields.entry))) }
{
    out.begin_object()?;
    out.key("ind1")?;
    out.string(as_text(&[ind1]))?;
    out.key("ind2")?;
    out.string(as_text(&[ind2]))?;
    out.key("subfields")?;
    out.begin_array()?;
    write_subfields(subfields, out)?;
    out.end_array()?;
    out.end_object()
}

/// Writes the content of the field.
#[tactic(auto, unfolding(crate::specs::Tokens::value_tokens))]
fn write_body(field: &Field, out: &mut Writer) -> Result<(), AllocError>
    requires { IsTrue (is_utf8_field field.now) }
    ensures { Sends result out.old out.new (value_tokens (body_value field.now.body)) }
{
    match field.body.parts() {
        Parts::Control { text } => out.string(as_text(text)),
        Parts::Data {
            ind1,
            ind2,
            subfields,
        } => write_data(ind1, ind2, subfields, out),
    }
}

/// Writes the field: an object whose one key is the tag.
#[tactic(auto, unfolding(crate::specs::Tokens::value_tokens))]
fn write_field(field: &Field, out: &mut Writer) -> Result<(), AllocError>
    requires { IsTrue (is_utf8_field field.now) }
    ensures { Sends result out.old out.new (value_tokens (field_value field.now)) }
{
    out.begin_object()?;
    out.key(as_text(&field.tag))?;
    write_body(field, out)?;
    out.end_object()
}

/// Writes the fields, one after the other.
fn write_fields(fields: &[Field], out: &mut Writer) -> Result<(), AllocError>
    requires { IsTrue (list_all is_utf8_field fields.now) }
    ensures { Sends result out.old out.new
        (flat_map (λ f. value_tokens (field_value f)) fields.now) }
{
    for field in fields {
        write_field(field, out)?;
    }
    Ok(())
}

/// Writes the leader's characters as a text.
#[tactic(auto, unfolding(crate::specs::Tokens::value_tokens))]
fn write_codes(codes: LeaderCodes, out: &mut Writer) -> Result<(), AllocError>
    ensures { Sends result out.old out.new (value_tokens (string (leader_characters codes))) }
{
    codes.prints();
    let mut text = [0; LEADER_SIZE];
    write_leader(
        &Leader {
            length: 0,
            base: 0,
            codes,
        },
        &mut text,
    );
    out.string(as_text(&text))
}

/// Writes the record: an object with the list of its fields and its leader.
fn write_record(rec: &Record, out: &mut Writer) -> Result<(), AllocError>
    requires { IsTrue (list_all is_utf8_field rec.now.fields) }
    ensures { Sends result out.old out.new (value_tokens (record_value rec.now)) }
{
    out.begin_object()?;
    out.key("fields")?;
    out.begin_array()?;
    write_fields(rec.fields.as_slice(), out)?;
    out.end_array()?;
    out.key("leader")?;
    write_codes(rec.leader, out)?;
    out.end_object()
}

/// Appends the record's line; on a refusal what stood before is still a prefix.
fn append_line(rec: &Record, into: &mut Vec<u8>) -> Result<(), AllocError>
    requires { IsTrue (list_all is_utf8_field rec.now.fields) }
    ensures { Appends result into.old.items into.new.items (json_line rec.now) }
{
    let alloc = *into.allocator();
    let mut out = Writer::new(mem::replace(into, Vec::new(alloc)));
    let answer = write_record(rec, &mut out);
    *into = out.into_inner();
    answer?;
    Ok(into.push(LINE_FEED)?)
}

/// Whether the texts of the subfields are UTF-8.
fn are_utf8_subfields(subfields: Subfields<'_>) -> bool
    ensures { result ≡ list_all is_utf8_subfield subfields.entry }
{
    for subfield in subfields {
        if !is_utf8(subfield.text) {
            return false;
        }
    }
    true
}

/// Whether the texts of the field are UTF-8.
fn is_utf8_field(field: &Field) -> bool
    ensures { result ≡ is_utf8_field field.now }
{
    match field.body.parts() {
        Parts::Control { text } => is_utf8(text),
        Parts::Data { subfields, .. } => are_utf8_subfields(subfields),
    }
}

fn is_utf8(text: &[u8]) -> bool
    ensures { result ≡ is_utf8 text.now }
{
    simdutf8::is_utf8(text)
}

/// Whether the texts of the record are UTF-8, as [`to_json`] asks. Takes no memory.
pub fn has_utf8_texts(rec: &Record) -> bool
    ensures { result ≡ list_all is_utf8_field rec.now.fields }
{
    rec.fields.as_slice().iter().all(is_utf8_field)
}

/// Appends the record's line: its value as compact JSON, with the keys in the order of their bytes, and a line feed. On a refusal
/// `into` holds what it held.
pub fn to_json(rec: &Record, into: &mut Vec<u8>) -> Result<(), Memory>
    requires { IsTrue (list_all is_utf8_field rec.now.fields) }
    ensures ok { OnOk result (into.new.items ≡ into.old.items ++ json_line rec.now) }
    ensures err { OnErr result (into.new.items ≡ into.old.items) }
{
    let before = into.len();
    match append_line(rec, into) {
        Ok(()) => Ok(()),
        Err(_) => {
            into.truncate(before);
            Err(Memory)
        }
    }
}
