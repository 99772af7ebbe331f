//! Lines of JSON read as records.
ghost use Rattle.std.specs.Prelude.{◌≡◌, ℕ, List, [], ◌∷◌, true, false, map, option_map, IsTrue, IsSomeAnd, IfOk, IfErr, IfSome, IfNone};
ghost use Rattle.std.specs.List.{list_all};
ghost use Rattle.serde_json.specs.Data.{string, Data as Json, Members, member, no_members};
ghost use Rattle.serde_json.specs.View.{view, items_of, members_view};
ghost use Rattle.marc_leader.specs.Codes.{is_printable, are_printable};
ghost use Rattle.marc_leader.specs.Leader.{codes_of};
ghost use Rattle.union_base.specs.Fields.{is_tag, is_control_tag, is_text, is_indicator, is_subfield_code, is_subfield, fits_tag};
ghost use Rattle.marc_parts.specs.Loads.{is_utf8_field};
ghost use Rattle.marc_json.specs.Values.{only_member, list_value, subfield_value, data_object, body_value, field_value, json_line};
ghost use Rattle.marc_json.specs.Shapes.{value_in, is_leader, leader_in, list_in, in_unicode, unicode_record, StandsFor, IsCause, IsListCause, IsReadAs, are_subfields, IsFound};

use marc_leader::codes::LeaderCodes;
use marc_leader::leader::{CONTROL, ENCODING, FORM, KIND, LAST, LEADER_SIZE, LEVEL, PART, STATUS};
use marc_parts::marc_record::Record;
use serde_json::Value;
use std::alloc::{AllocError, AllocFailed, Global};
use std::collections::btree_map::Iter;
use union_base::body::{Body, is_control_tag, is_indicator, is_subfield_code, is_tag, is_text};
use union_base::bytes::Bytes;
use union_base::field::Field;
use union_base::memory::Memory;
use union_base::sequence::Sequence;
use union_base::subfield::Subfield;

/// The character coding of each record that is read: Unicode (MARC 21, leader/09).
const UNICODE: u8 = b'a';

/// Why a line is read as no record.
#[derive(Clone, Copy, Debug, PartialEq, Eq)]
pub enum JsonRefusal {
    /// The line is no JSON.
    Json,
    /// Its value has not the form of a record: `at` is 0 where the top, the leader or the list of fields is wrong, else the
    /// number of the first wrong field, counted from 1.
    Shape { at: u64 },
    /// Memory ran out.
    Memory,
}

impl From<Memory> for JsonRefusal {
    ghost use Rattle.std.specs.Prelude.{◌≡◌};
    ghost use Rattle.marc_json.specs.declared.reading.JsonRefusal.TheVariants.{Memory as NoMemory};

    ghost from_gives = { λ _ refusal. refusal ≡ NoMemory };

    fn from(_memory: Memory) -> JsonRefusal {
        JsonRefusal::Memory
    }
}

impl<T: Drop> From<AllocFailed<T>> for JsonRefusal {
    ghost use Rattle.std.specs.Prelude.{◌≡◌};
    ghost use Rattle.marc_json.specs.declared.reading.JsonRefusal.TheVariants.{Memory as NoMemory};

    ghost from_gives = { λ _ refusal. refusal ≡ NoMemory };

    fn from(_refused: AllocFailed<T>) -> JsonRefusal {
        JsonRefusal::Memory
    }
}

impl From<AllocError> for JsonRefusal {
    ghost use Rattle.std.specs.Prelude.{◌≡◌};
    ghost use Rattle.marc_json.specs.declared.reading.JsonRefusal.TheVariants.{Memory as NoMemory};

    ghost from_gives = { λ _ refusal. refusal ≡ NoMemory };

    fn from(_refused: AllocError) -> JsonRefusal {
        JsonRefusal::Memory
    }
}

/// The value of the next member, where its key is that one.
fn next_under<'v>(members: &mut Iter<'v, String, Value>, key: &str) -> Option<&'v Value>
    ensures found { IfSome result (λ value. members_view members.old
        ≡ member key.now (view value.now) (members_view members.new)) }
    ensures missing { IfNone result ((value : Json) (rest : Members)
        → members_view members.old ≡ member key.now value rest → ⊥) }
{
    let (name, value) = members.next()?;
    if name.as_str() == key {
        Some(value)
    } else {
        None
    }
}

/// The key and the value of an object's one member.
fn only_member(value: &Value) -> Option<(&str, &Value)>
    ensures found { IfSome result (λ found.
        only_member found.0.now (view found.1.now) ≡ view value.now) }
    ensures missing { IfNone result ((key : List ℕ) (only : Json)
        → only_member key only ≡ view value.now → ⊥) }
{
    let mut members = value.as_object()?.iter();
    let (key, only) = members.next()?;
    match members.next() {
        None => Some((key.as_str(), only)),
        Some(_) => None,
    }
}

/// The byte of a text of one byte, where it is an indicator.
fn indicator_in(value: &Value) -> Option<u8>
    ensures { IsFound is_indicator (λ b. string (b ∷ [])) result (view value.now) }
{
    match value.as_str()?.as_bytes() {
        [byte] if is_indicator(*byte) => Some(*byte),
        _ => None,
    }
}

/// The byte of a key of one byte, where it is a subfield's code.
fn code_in(key: &str) -> Option<u8>
    ensures { IsFound is_subfield_code (λ b. string (b ∷ [])) result (string key.now) }
{
    match key.as_bytes() {
        [byte] if is_subfield_code(*byte) => Some(*byte),
        _ => None,
    }
}

/// The bytes of a text that a field may have.
fn text_in(value: &Value) -> Option<&[u8]>
    ensures { IsFound is_text string (option_map (λ text. text.now) result) (view value.now) }
{
    let text = value.as_str()?.as_bytes();
    if is_text(text) { Some(text) } else { None }
}

/// The subfield whose value this is.
fn subfield_in(value: &Value) -> Option<Subfield<'_>>
    ensures { IsFound is_subfield subfield_value result (view value.now) }
{
    let (key, content) = only_member(value)?;
    let code = code_in(key)?;
    let text = text_in(content)?;
    Some(Subfield { code, text })
}

/// The subfields whose list this is, one at least.
fn subfields_in(alloc: Global, value: &Value) -> Result<Option<Vec<Subfield<'_>>>, AllocError>
    ensures { IfOk result (λ found. IsFound are_subfields
        (λ subfields. list_value (map subfield_value subfields))
        (option_map (λ subfields. subfields.items) found) (view value.now)) }
{
    let Some(list) = value.as_array() else {
        return Ok(None);
    };
    let items = list.as_slice();
    if items.is_empty() {
        return Ok(None);
    }
    let mut subfields = Vec::with_capacity(alloc, items.len())?;
    for item in items {
        match subfield_in(item) {
            Some(subfield) => subfields.push(subfield)?,
            None => return Ok(None),
        }
    }
    Ok(Some(subfields))
}

/// The three values of a data field's object: the two indicators and the list of the subfields.
fn data_members(value: &Value) -> Option<(&Value, &Value, &Value)>
    ensures found { IfSome result (λ found.
        data_object (view found.0.now) (view found.1.now) (view found.2.now) ≡ view value.now) }
    ensures missing { IfNone result ((ind1 ind2 subfields : Json)
        → data_object ind1 ind2 subfields ≡ view value.now → ⊥) }
{
    let mut members = value.as_object()?.iter();
    let ind1 = next_under(&mut members, "ind1")?;
    let ind2 = next_under(&mut members, "ind2")?;
    let subfields = next_under(&mut members, "subfields")?;
    match members.next() {
        None => Some((ind1, ind2, subfields)),
        Some(_) => None,
    }
}

/// The content of a control field, where the value is one.
fn control_in(alloc: Global, tag: &[u8; 3], value: &Value) -> Result<Option<Body>, Memory>
    requires { is_control_tag tag.now ≡ true }
    ensures { IfOk result (λ found. IsFound (fits_tag tag.now) body_value found (view value.now)) }
{
    match text_in(value) {
        Some(text) => Ok(Some(Body::control(Bytes::of(alloc, text)?))),
        None => Ok(None),
    }
}

/// The content of a data field, where the value is one.
fn data_in(alloc: Global, tag: &[u8; 3], value: &Value) -> Result<Option<Body>, Memory>
    requires { is_control_tag tag.now ≡ false }
    ensures { IfOk result (λ found. IsFound (fits_tag tag.now) body_value found (view value.now)) }
{
    let Some((one, other, list)) = data_members(value) else {
        return Ok(None);
    };
    let Some(ind1) = indicator_in(one) else {
        return Ok(None);
    };
    let Some(ind2) = indicator_in(other) else {
        return Ok(None);
    };
    match subfields_in(alloc, list)? {
        Some(subfields) => Ok(Some(Body::of_subfields(alloc, ind1, ind2, subfields.as_slice())?)),
        None => Ok(None),
    }
}

/// The content that the value is under the tag.
fn body_in(alloc: Global, tag: &[u8; 3], value: &Value) -> Result<Option<Body>, Memory>
    ensures { IfOk result (λ found. IsFound (fits_tag tag.now) body_value found (view value.now)) }
{
    if is_control_tag(tag) {
        control_in(alloc, tag, value)
    } else {
        data_in(alloc, tag, value)
    }
}

/// The tag that a key is.
fn tag_in(key: &str) -> Option<[u8; 3]>
    ensures found { IfSome result (λ tag. (is_tag tag ≡ true) × (tag ≡ key.now)) }
    ensures missing { IfNone result (is_tag key.now ≡ false) }
{
    match key.as_bytes() {
        [first, second, third] => {
            let tag = [*first, *second, *third];
            if is_tag(&tag) { Some(tag) } else { None }
        }
        _ => None,
    }
}

/// The field whose value this is.
fn field_in(alloc: Global, value: &Value) -> Result<Option<Field>, Memory>
    ensures { IfOk result (λ found. IsFound (λ _. true) field_value found (view value.now)) }
{
    let Some((key, content)) = only_member(value) else {
        return Ok(None);
    };
    let Some(tag) = tag_in(key) else {
        return Ok(None);
    };
    match body_in(alloc, &tag, content)? {
        Some(body) => Ok(Some(Field { tag, body })),
        None => Ok(None),
    }
}

/// The fields whose list this is, or the place of the first that is wrong.
fn fields_in(alloc: Global, items: &[Value]) -> Result<Vec<Field>, JsonRefusal>
    ensures found { IfOk result (λ fields. map field_value fields.items ≡ map view items.now) }
    ensures refused { IfErr result (λ refusal.
        IsListCause refusal (items_of (map view items.now))) }
{
    let mut fields = Vec::with_capacity(alloc, items.len())?;
    for (at, item) in items.iter().enumerate() {
        match field_in(alloc, item)? {
            Some(field) => fields.push(field)?,
            None => return Err(JsonRefusal::Shape { at: at as u64 + 1 }),
        }
    }
    Ok(fields)
}

/// Whether each byte is an ASCII graphic or a blank.
fn are_printable(text: &[u8]) -> bool
    ensures { result ≡ list_all is_printable text.now }
{
    text.iter().all(|byte| matches!(*byte, b' '..=b'~'))
}

/// Whether the text is a leader: 24 bytes, each an ASCII graphic or a blank.
fn is_leader(text: &[u8]) -> bool
    ensures { result ≡ is_leader text.now }
{
    text.len() == LEADER_SIZE && are_printable(text)
}

/// The codes of a leader, in Unicode.
fn codes_in(text: &[u8]) -> LeaderCodes
    requires { is_leader text.now ≡ true }
    ensures { result ≡ in_unicode (codes_of text.now) }
{
    LeaderCodes {
        status: text[STATUS],
        kind: text[KIND],
        level: text[LEVEL],
        control: text[CONTROL],
        coding: UNICODE,
        encoding: text[ENCODING],
        form: text[FORM],
        part: text[PART],
        last: text[LAST],
    }
}

/// The leader of an object.
#[tactic(auto, unfolding(crate::specs::Shapes::leader_in))]
fn leader_in(value: &Value) -> Option<LeaderCodes>
    ensures { result
        ≡ option_map (λ text. in_unicode (codes_of text)) (leader_in (view value.now)) }
{
    let text = value.get("leader")?.as_str()?.as_bytes();
    if is_leader(text) {
        Some(codes_in(text))
    } else {
        None
    }
}

/// The list of an object.
#[tactic(auto, unfolding(crate::specs::Shapes::list_in))]
fn list_in(value: &Value) -> Option<&[Value]>
    ensures { option_map (λ items. items_of (map view items.now)) result
        ≡ list_in (view value.now) }
{
    Some(value.get("fields")?.as_array()?.as_slice())
}

/// The record that the value stands for.
fn record_in(alloc: Global, value: &Value) -> Result<Record, JsonRefusal>
    ensures found { IfOk result (λ r. StandsFor (view value.now) r) }
    ensures refused { IfErr result (λ refusal. IsCause refusal (Some (view value.now))) }
{
    let Some(leader) = leader_in(value) else {
        return Err(JsonRefusal::Shape { at: 0 });
    };
    let Some(items) = list_in(value) else {
        return Err(JsonRefusal::Shape { at: 0 });
    };
    let fields = fields_in(alloc, items)?;
    Ok(Record {
        leader,
        fields: Sequence::from(fields),
    })
}

/// The record that the line's value stands for.
fn read_line(alloc: Global, line: &[u8]) -> Result<Record, JsonRefusal>
    ensures found { IfOk result (λ r. IsSomeAnd (value_in line.now) (λ value. StandsFor value r)) }
    ensures refused { IfErr result (λ refusal. IsCause refusal (value_in line.now)) }
{
    match Value::from_slice(alloc, line) {
        Ok(value) => record_in(alloc, &value),
        Err(error) => {
            if error.is_memory() {
                Err(JsonRefusal::Memory)
            } else {
                Err(JsonRefusal::Json)
            }
        }
    }
}

/// The record that the line stands for. The line is one JSON text, and a line feed or other blanks may stand around it.
///
/// `Json` comes exactly where the line is no JSON, and `Shape` exactly where its value has not the form of a record, with the place;
/// if allocation fails, `Memory` may come instead of either. The leader's bytes outside the nine codes are ignored, and so is its
/// character coding: the coding of the answer is `a`.
pub fn from_json(alloc: Global, line: &[u8]) -> Result<Record, JsonRefusal>
    ensures found { IfOk result (λ r. IsSomeAnd (value_in line.now) (λ value. StandsFor value r)) }
    ensures refused { IfErr result (λ refusal. IsCause refusal (value_in line.now)) }
    // A line that was written is read as its record.
    ensures back { (r : Record) → IsTrue (are_printable r.leader)
        → IsTrue (list_all is_utf8_field r.fields) → line.now ≡ json_line r
        → IsReadAs (unicode_record r) result }
{
    read_line(alloc, line)
}
