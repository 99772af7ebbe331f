//! What no clause says: lines that come in pieces of several sizes, each reason why a line gives no frame, lines at the limit and over
//! it, and a text that is kept in several pieces.
use crate::records::{LINE, ONE};
use marc_fields::rules::Rule;
use std::alloc::Global;
use std::test::Fail;
use union_io::mem_sink::MemSink;
use union_json::begun_line::LONGEST_LINE;
use union_json::converter::Converter;
use union_json::findings::Findings;
use union_json::gathered::Gathered;
use union_json::outcome::{Reason, RefusedLine};

/// No line or piece of these tests is as long as that, and no text has as many lines.
const MANY: usize = 10_000_000;

const LEADER: &[u8] = b"],\"leader\":\"00000nam a2200000 a 4500\"}";

/// The converter takes a piece more.
fn take(alloc: Global, converter: &mut Converter, piece: &[u8]) -> Result<(), Fail> {
    if converter.findings.lines > MANY as u64 || piece.len() > MANY {
        Err("too much")?;
        return Ok(());
    }
    converter.take(alloc, piece)?;
    Ok(())
}

/// What came of the lines of a text that comes in two pieces, of which the first has at most `first` bytes.
fn converted(alloc: Global, text: &[u8], first: usize) -> Result<Findings, Fail> {
    let mut converter = Converter::open(alloc)?;
    let (one, other) = text.split_at(first.min(text.len()));
    take(alloc, &mut converter, one)?;
    take(alloc, &mut converter, other)?;
    if converter.findings.lines > MANY as u64 {
        Err("too many lines")?;
        return Ok(converter.findings);
    }
    Ok(converter.finish(alloc)?)
}

/// The text as a sink of that size has it.
fn written(alloc: Global, text: &Gathered, size: usize) -> Result<MemSink, Fail> {
    let mut sink = MemSink::new(Vec::new(alloc), Vec::with_capacity(alloc, size)?, size);
    text.put(&mut sink)?;
    Ok(sink)
}

/// Why the one line of a text gives no frame.
fn reason(alloc: Global, line: &[u8]) -> Result<Reason, Fail> {
    let found = converted(alloc, line, 0)?;
    match found.refused.first() {
        Some(refused) => Ok(refused.reason),
        None => Err("the line is not refused")?,
    }
}

/// A record with `fields` fields 500, each with a text of `size` bytes.
fn record_of(alloc: Global, fields: usize, size: usize) -> Result<Vec<u8>, Fail> {
    let text = vec![in alloc; b'x'; size]?;
    let mut line = Vec::new(alloc);
    line.extend_from_slice(b"{\"fields\":[{\"001\":\"id\"}")?;
    for _ in 0..fields {
        line.extend_from_slice(
            b",{\"500\":{\"ind1\":\" \",\"ind2\":\" \",\"subfields\":[{\"a\":\"",
        )?;
        line.extend_from_slice(&text)?;
        line.extend_from_slice(b"\"}]}}")?;
    }
    line.extend_from_slice(LEADER)?;
    Ok(line)
}

/// An empty line, two lines that are refused, a record with a carriage return, a record that breaks a rule, and a record without a
/// line feed.
fn mixed(alloc: Global, line: &[u8]) -> Result<Vec<u8>, Fail> {
    let mut text = Vec::new(alloc);
    text.extend_from_slice(b"\n{\n{\"leader\":1}\n")?;
    text.extend_from_slice(line)?;
    text.extend_from_slice(b"\r\n{\"fields\":[{\"001\":\"id\"},{\"008\":\"short\"}")?;
    text.extend_from_slice(LEADER)?;
    text.push(b'\n')?;
    text.extend_from_slice(line)?;
    Ok(text)
}

#[test]
fn pieces_change_nothing(rt: HostRuntime) -> Result<(), Fail> {
    let line = LINE.strip_suffix(b"\n").ok_or("a line feed")?;
    let text = mixed(rt.alloc(), line)?;
    let refused = [
        RefusedLine {
            line: 2,
            reason: Reason::Json,
        },
        RefusedLine {
            line: 3,
            reason: Reason::Shape { at: 0 },
        },
        RefusedLine {
            line: 5,
            reason: Reason::Breaks {
                rule: Rule::Fixed008,
                place: 2,
            },
        },
    ];
    for first in [0, 1, 2, 3, 20, 200, 400, MANY] {
        let found = converted(rt.alloc(), &text, first)?;
        assert_eq!(rt; (found.lines, found.read, found.written), (6, 5, 2));
        assert_eq!(rt; found.refused.as_slice(), refused.as_slice());
        let sink = written(rt.alloc(), &found.frames, 10_000)?;
        assert_eq!(rt;
            sink.content().strip_prefix(ONE.as_slice()),
            Some(ONE.as_slice())
        );
    }
    Ok(())
}

#[test]
fn lines_are_refused_for_their_size(rt: HostRuntime) -> Result<(), Fail> {
    let mut blanks = vec![in rt.alloc(); b' '; LONGEST_LINE - 1]?;
    blanks.push(b'\r')?;
    assert_eq!(rt; reason(rt.alloc(), &blanks)?, Reason::Json);
    blanks.push(b'\n')?;
    assert_eq!(rt; reason(rt.alloc(), &blanks)?, Reason::Json);
    let longer = vec![in rt.alloc(); b'['; LONGEST_LINE + 1]?;
    assert_eq!(rt; reason(rt.alloc(), &longer)?, Reason::LineTooLong);
    assert_eq!(rt;
        reason(rt.alloc(), &record_of(rt.alloc(), 1, 9_995)?)?,
        Reason::FieldTooLong
    );
    assert_eq!(rt;
        reason(rt.alloc(), &record_of(rt.alloc(), 10, 9_994)?)?,
        Reason::RecordTooLong
    );
    let whole = reason(rt.alloc(), &record_of(rt.alloc(), 9, 9_994)?)?;
    assert_eq!(rt;
        whole,
        Reason::Breaks {
            rule: Rule::Fixed008,
            place: 0
        }
    );
    Ok(())
}

#[test]
fn a_text_is_kept_in_pieces(rt: HostRuntime) -> Result<(), Fail> {
    let part = vec![in rt.alloc(); b'x'; 700_000]?;
    let mut text = Gathered::open(rt.alloc())?;
    for _ in 0..4 {
        text.add(&part)?;
    }
    text.add(b"y")?;
    let sink = written(rt.alloc(), &text, 3_000_000)?;
    assert_eq!(rt; sink.content().len(), 2_800_001);
    assert_eq!(rt; sink.content().last().copied(), Some(b'y'));
    let mut full = MemSink::new(
        Vec::new(rt.alloc()),
        Vec::with_capacity(rt.alloc(), 1_000_000)?,
        1_000_000,
    );
    assert!(rt; text.put(&mut full).is_err());
    assert_eq!(rt; full.content().len(), 1_000_000);
    Ok(())
}
