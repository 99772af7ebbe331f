//! What no clause says: frames of an independent program, with the rule and place at which each is refused.
use crate::frames::accepted;
use crate::refused_frames::{content, directories, leaders, shapes_behind};
use iso2709_frame::cut::Cut;
use marc_fields::decoding::is_frame;
use marc_fields::rules::Rule;
use marc_rules::check::{Refusal, accepted_status, check_frame};
use std::alloc::Global;
use std::test::Fail;

/// The first rule that the frame breaks, and its place. The check of its status alone has to name the same, or to answer
/// the status of the record.
fn failure(alloc: Global, cut: Cut, bytes: &[u8]) -> Result<Option<(Rule, u32)>, Fail> {
    if !is_frame(bytes) {
        Err("no frame")?;
        return Ok(None);
    }
    match (
        check_frame(alloc, cut, bytes),
        accepted_status(alloc, cut, bytes),
    ) {
        (Ok(found), Ok(status)) => {
            if found.leader.status != status {
                Err("the status is another")?;
            }
            Ok(None)
        }
        (Err(Refusal::Rule { rule, place }), Err(alone)) => {
            if alone != (Refusal::Rule { rule, place }) {
                Err("the status alone is refused for another rule")?;
            }
            Ok(Some((rule, place)))
        }
        _ => Err("no memory, or only one of the two calls refuses the frame")?,
    }
}

#[test]
fn frames_are_accepted_or_refused_by_rule_and_place(rt: HostRuntime) -> Result<(), Fail> {
    for frame in accepted() {
        assert_eq!(rt; failure(rt.alloc(), Cut::Whole, frame)?, None);
        assert_eq!(rt;
            failure(rt.alloc(), Cut::Truncated, frame)?,
            Some((Rule::Truncated, 0))
        );
        assert_eq!(rt;
            failure(rt.alloc(), Cut::TooLong, frame)?,
            Some((Rule::TooLong, 0))
        );
    }
    for table in [leaders(), directories()] {
        for (rule, place, frame) in table {
            assert_eq!(rt;
                failure(rt.alloc(), Cut::Whole, frame)?,
                Some((*rule, *place))
            );
        }
    }
    for (rule, place, frame) in content() {
        assert_eq!(rt;
            failure(rt.alloc(), Cut::Whole, frame)?,
            Some((*rule, *place))
        );
    }
    for (first, _, frame) in shapes_behind() {
        assert_eq!(rt; failure(rt.alloc(), Cut::Whole, frame)?, Some(*first));
    }
    Ok(())
}

/// A frame with `entries` entries of one field, of 13 bytes, and as many bytes as the leader says.
fn crowded_frame(alloc: Global, front: &[u8], entries: usize) -> Result<Vec<u8>, Fail> {
    let mut frame = Vec::new(alloc);
    frame.extend_from_slice(front)?;
    for _ in 0..entries {
        frame.extend_from_slice(b"500001300000")?;
    }
    frame.extend_from_slice(b"\x1E  \x1Faaaaaaaaa\x1E\x1D")?;
    Ok(frame)
}

/// The second entry shares its bytes with the first. The longest of these frames has 99,999 bytes.
#[test]
fn crowded_frames_are_refused_at_the_second_entry(rt: HostRuntime) -> Result<(), Fail> {
    for (front, entries) in [
        (b"00063nam a2200049 a 4500", 2),
        (b"12039nam a2212025 a 4500", 1_000),
        (b"99999nam a2299985 a 4500", 8_330),
    ] {
        let frame = crowded_frame(rt.alloc(), front, entries)?;
        assert_eq!(rt;
            failure(rt.alloc(), Cut::Whole, &frame)?,
            Some((Rule::Tiling, 2))
        );
    }
    Ok(())
}
