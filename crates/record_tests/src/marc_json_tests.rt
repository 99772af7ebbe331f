//! What no clause says: that memory suffices, what is read of the lines of an independent program, and what is written of its frames.
use crate::json_lines::{misshaped, no_json, stated, written};
use marc_fields::decoding::{decode, is_frame};
use marc_fields::encoding::encode;
use marc_json::reading::{JsonRefusal, from_json};
use marc_json::writing::{has_utf8_texts, to_json};
use std::alloc::Global;
use std::test::Fail;

/// Why the line is read as no record.
fn refusal(alloc: Global, line: &[u8]) -> Result<JsonRefusal, Fail> {
    match from_json(alloc, line) {
        Ok(_) => Err("the line is read")?,
        Err(refusal) => Ok(refusal),
    }
}

/// The frame of the record that the line stands for.
fn frame_of(alloc: Global, line: &[u8]) -> Result<Vec<u8>, Fail> {
    let found = from_json(alloc, line)?;
    let mut frame = Vec::new(alloc);
    encode(&found, &mut frame)?;
    Ok(frame)
}

/// The line of the record that the frame spells, after a byte that stood there.
fn line_of(alloc: Global, frame: &[u8]) -> Result<Vec<u8>, Fail> {
    if !is_frame(frame) {
        Err("no frame")?;
        return Ok(Vec::new(alloc));
    }
    let found = decode(alloc, frame)?;
    if !has_utf8_texts(&found) {
        Err("a text is not UTF-8")?;
        return Ok(Vec::new(alloc));
    }
    let mut line = Vec::new(alloc);
    line.push(b'#')?;
    to_json(&found, &mut line)?;
    Ok(line)
}

#[test]
fn lines_are_read_or_refused(rt: HostRuntime) -> Result<(), Fail> {
    for line in no_json() {
        assert_eq!(rt; refusal(rt.alloc(), line)?, JsonRefusal::Json);
    }
    for (at, line) in misshaped() {
        assert_eq!(rt; refusal(rt.alloc(), line)?, JsonRefusal::Shape { at: *at });
    }
    for (line, frame) in stated() {
        assert_eq!(rt; frame_of(rt.alloc(), line)?.as_slice(), *frame);
    }
    Ok(())
}

#[test]
fn frames_are_written_as_lines(rt: HostRuntime) -> Result<(), Fail> {
    for (frame, line) in written() {
        let found = line_of(rt.alloc(), frame)?;
        assert_eq!(rt; found.first().copied(), Some(b'#'));
        assert_eq!(rt; found.get(1..), Some(*line));
    }
    Ok(())
}

/// Text that is no JSON for its depth alone, and a list whose last field of many is wrong.
#[test]
fn long_lines_are_refused(rt: HostRuntime) -> Result<(), Fail> {
    let deep = vec![in rt.alloc(); b'['; 1_000_000]?;
    assert_eq!(rt; refusal(rt.alloc(), &deep)?, JsonRefusal::Json);
    let mut line = Vec::new(rt.alloc());
    line.extend_from_slice(b"{\"fields\":[")?;
    for _ in 0..299 {
        line.extend_from_slice(b"{\"001\":\"id\"},")?;
    }
    line.extend_from_slice(b"null],\"leader\":\"00000nam a2200000 a 4500\"}")?;
    assert_eq!(rt; refusal(rt.alloc(), &line)?, JsonRefusal::Shape { at: 300 });
    Ok(())
}
