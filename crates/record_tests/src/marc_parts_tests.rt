//! Frames that can be loaded, that withdraw, and that can do neither.
use crate::frames::{ONE, record_of};
use crate::refused_frames::content;
use marc_fields::rules::Rule;
use marc_parts::loads::{is_loadable, is_withdrawal};
use marc_parts::parts::{control_number, first_under, how_many, text_under};
use std::test::Fail;

/// A withdrawal of the record `b1`.
const WITHDRAWAL: &[u8] = b"00041dam a2200037 a 4500001000300000\x1Eb1\x1E\x1D";

#[test]
fn one_record_can_be_loaded(rt: HostRuntime) -> Result<(), Fail> {
    let rec = record_of(rt.alloc(), ONE)?;
    assert!(rt; is_loadable(&rec) && !is_withdrawal(&rec));
    assert_eq!(rt; control_number(&rec), b"id".as_slice());
    let fields = rec.fields.as_slice();
    assert_eq!(rt; text_under(b"008", fields).len(), 40);
    assert_eq!(rt; text_under(b"245", fields).len(), 0);
    assert_eq!(rt; how_many(b"245", fields), 1);
    assert!(rt; first_under(b"240", fields).is_none());
    Ok(())
}

#[test]
fn one_record_withdraws(rt: HostRuntime) -> Result<(), Fail> {
    let rec = record_of(rt.alloc(), WITHDRAWAL)?;
    assert!(rt; is_withdrawal(&rec) && !is_loadable(&rec));
    assert_eq!(rt; control_number(&rec), b"b1".as_slice());
    Ok(())
}

/// Each lacks something that a load has.
#[test]
fn records_that_cannot_be_loaded(rt: HostRuntime) -> Result<(), Fail> {
    for (rule, _, frame) in content() {
        if !matches!(rule, Rule::Coding | Rule::Repeated) {
            let rec = record_of(rt.alloc(), frame)?;
            assert!(rt; !is_loadable(&rec) && !is_withdrawal(&rec));
        }
    }
    Ok(())
}
