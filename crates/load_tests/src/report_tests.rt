//! The text of a report.
use library_batches::outcome_counts::OutcomeCounts;
use library_batches::refused::RefusedFrame;
use library_batches::report_texts::{add_left_lines, add_report};
use marc_fields::rules::Rule;
use std::test::Fail;
use union_base::bytes::Bytes;
use union_base::library_code::LibraryCode;
use union_base::record_id::RecordId;

#[test]
fn report_of_a_library(rt: HostRuntime) -> Result<(), Fail> {
    let refused = [RefusedFrame {
        frame: 2,
        rule: Rule::Truncated,
        place: 0,
    }];
    let counts = OutcomeCounts {
        added: 1,
        replaced: 2,
        removed: 3,
        absent: 256,
    };
    let mut text = Vec::new(rt.alloc());
    add_report(&mut text, b"LIBA", 263, &refused, &counts)?;
    assert_eq!(rt;
        text.as_slice(),
        b"LIBA refused 2 Truncated 0\nLIBA frames 263 added 1 replaced 2 removed 3 absent 256 refused 1\n".as_slice()
    );
    Ok(())
}

#[test]
fn line_on_what_was_left_out(rt: HostRuntime) -> Result<(), Fail> {
    let alloc = rt.alloc();
    let id = RecordId {
        library: LibraryCode::read(b"LIBA").ok_or("a code")?,
        control: Bytes::of(alloc, b"id")?,
    };
    let mut text = Vec::new(alloc);
    add_left_lines(alloc, &mut text, &[(id, 1)])?;
    assert_eq!(rt; text.as_slice(), b"left LIBA.id 1\n".as_slice());
    Ok(())
}
