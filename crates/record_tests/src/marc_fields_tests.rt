//! What no clause says: frames of worked records, read and written back.
use crate::frames::{ONE, accepted, record_of};
use crate::refused_frames::{content, directories, leaders, shapes_behind};
use marc_fields::decoding::{DecodeRefusal, decode, is_frame};
use marc_fields::encoding::{EncodeRefusal, encode, encode_fields};
use marc_fields::rules::Rule;
use marc_leader::codes::LeaderCodes;
use marc_parts::marc_record::Record;
use std::alloc::Global;
use std::test::Fail;
use union_base::body::{Body, are_subfields};
use union_base::copied::Copied;
use union_base::field::Field;
use union_base::sequence::Sequence;
use union_base::subfield::Subfield;

#[test]
fn a_frame_is_read_and_written_back(rt: HostRuntime) -> Result<(), Fail> {
    let rec = record_of(rt.alloc(), ONE)?;
    assert_eq!(rt; rec.fields.as_slice().len(), 3);
    assert_eq!(rt; rec.leader.kind, b'a');
    let again = rec.copied(rt.alloc())?;
    let mut out = Vec::new(rt.alloc());
    encode(&again, &mut out)?;
    assert_eq!(rt; out.as_slice(), ONE);
    Ok(())
}

#[test]
fn borrowed_fields_are_written_as_their_record(rt: HostRuntime) -> Result<(), Fail> {
    for frame in accepted() {
        let rec = record_of(rt.alloc(), frame)?;
        let mut fields = Vec::new(rt.alloc());
        for field in rec.fields.as_slice() {
            fields.push(field)?;
        }
        let mut whole = Vec::new(rt.alloc());
        encode(&rec, &mut whole)?;
        let mut out = Vec::new(rt.alloc());
        encode_fields(rec.leader, fields.as_slice(), &mut out)?;
        assert_eq!(rt; out.as_slice(), whole.as_slice());
    }
    Ok(())
}

/// The first rule that the frame breaks, and its place.
fn failure(alloc: Global, frame: &[u8]) -> Result<Option<(Rule, u32)>, Fail> {
    if !is_frame(frame) {
        Err("no frame")?;
        return Ok(None);
    }
    match decode(alloc, frame) {
        Ok(_) => Ok(None),
        Err(DecodeRefusal::Rule { rule, place }) => Ok(Some((rule, place))),
        Err(DecodeRefusal::Memory) => Err("no memory")?,
    }
}

#[test]
fn frames_are_read_or_refused_by_rule_and_place(rt: HostRuntime) -> Result<(), Fail> {
    for frame in accepted() {
        assert_eq!(rt; failure(rt.alloc(), frame)?, None);
    }
    for (_, _, frame) in content() {
        assert_eq!(rt; failure(rt.alloc(), frame)?, None);
    }
    for table in [leaders(), directories()] {
        for (rule, place, frame) in table {
            assert_eq!(rt; failure(rt.alloc(), frame)?, Some((*rule, *place)));
        }
    }
    for (_, shape, frame) in shapes_behind() {
        assert_eq!(rt; failure(rt.alloc(), frame)?, Some(*shape));
    }
    Ok(())
}

/// A general note with a text of `size` bytes.
fn note(alloc: Global, size: usize) -> Result<Field, Fail> {
    let text = vec![in alloc; b'a'; size]?;
    let subfields = [Subfield {
        code: b'a',
        text: text.as_slice(),
    }];
    if !are_subfields(&subfields) {
        Err("no subfields")?;
    }
    let body = Body::of_subfields(alloc, b' ', b' ', &subfields)?;
    if body.is_field(b"500") {
        Ok(Field { tag: *b"500", body })
    } else {
        Err("no field")?
    }
}

#[test]
fn fields_and_records_that_are_too_long(rt: HostRuntime) -> Result<(), Fail> {
    for (count, size, expected, written) in [
        (1, 9_994, Ok(()), 10_037),
        (1, 9_995, Err(EncodeRefusal::FieldTooLong), 0),
        (9, 9_994, Ok(()), 90_125),
        (10, 9_994, Err(EncodeRefusal::RecordTooLong), 0),
    ] {
        let mut fields = Vec::new(rt.alloc());
        for _ in 0..count {
            fields.push(note(rt.alloc(), size)?)?;
        }
        let rec = Record {
            leader: LeaderCodes {
                status: b'n',
                kind: b'a',
                level: b'm',
                control: b' ',
                coding: b'a',
                encoding: b' ',
                form: b'a',
                part: b' ',
                last: b'0',
            },
            fields: Sequence::from(fields),
        };
        let mut out = Vec::new(rt.alloc());
        assert_eq!(rt; encode(&rec, &mut out), expected);
        assert_eq!(rt; out.len(), written);
    }
    Ok(())
}
