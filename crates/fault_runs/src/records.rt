//! Records that the runs load.
use std::alloc::Global;
use union_base::memory::Memory;

/// A record with the control number `id`, the date 1999 and the title `Cat`, and the same under `ie`.
pub const ONE: &[u8; 114] =
    b"00114nam a2200061 a 4500001000300000008004100003245000800044\x1Eid\x1E240101s1999    xx                  eng d\x1E00\x1FaCat\x1E\x1D";

pub const OTHER: &[u8; 114] =
    b"00114nam a2200061 a 4500001000300000008004100003245000800044\x1Eie\x1E240101s1999    xx                  eng d\x1E00\x1FaCat\x1E\x1D";

/// Three records of which the third matches neither of the others, but matches what they make together; and one more.
pub const FOUR: [&[u8]; 4] = [
    b"00173nam a2200085 a 4500001000300000008004100003020001500044100001400059245001400073\x1Ea1\x1E240101s1990    xx                  eng d\x1E  \x1Fa0306406152\x1E1 \x1FaHill, Ann\x1E00\x1FaRed ships\x1E\x1D",
    b"00181nam a2200085 a 4500001000300000008004100003020002200044100001400066245001500080\x1Eb1\x1E240101s1991    xx                  eng d\x1E  \x1Fa978-0-306-40615-7\x1E1 \x1FaHill, Ann\x1E00\x1FaBlue ships\x1E\x1D",
    b"00146nam a2200073 a 4500001000300000008004100003100001400044245001400058\x1Ec1\x1E240101s1991    xx                  eng d\x1E1 \x1FaHill, Ann\x1E00\x1FaRed ships\x1E\x1D",
    ONE,
];

/// What comes after these: a withdrawal of the second, a correction of the last, and a new record.
pub const MORE: [&[u8]; 3] = [
    b"00041dam a2200037 a 4500001000300000\x1Eb1\x1E\x1D",
    b"00114cam a2200061 a 4500001000300000008004100003245000800044\x1Eid\x1E240101s1999    xx                  eng d\x1E00\x1FaDog\x1E\x1D",
    OTHER,
];

/// A record like the others, with a control number of three digits, and the place of these.
const NUMBERED: &[u8; 115] =
    b"00115nam a2200061 a 4500001000400000008004100004245000800045\x1E000\x1E240101s1999    xx                  eng d\x1E00\x1FaCat\x1E\x1D";

const NUMBER: usize = 61;

/// `count` records that differ in their control numbers.
pub fn numbered(alloc: Global, count: u32) -> Result<Vec<u8>, Memory> {
    let mut text = Vec::new(alloc);
    for at in 0..count {
        let mut frame = *NUMBERED;
        frame[NUMBER] = b'0' + (at / 100 % 10) as u8;
        frame[NUMBER + 1] = b'0' + (at / 10 % 10) as u8;
        frame[NUMBER + 2] = b'0' + (at % 10) as u8;
        text.extend_from_slice(&frame)?;
    }
    Ok(text)
}

/// The records, one after the other.
pub fn joined(alloc: Global, records: &[&[u8]]) -> Result<Vec<u8>, Memory> {
    let mut text = Vec::new(alloc);
    for record in records {
        text.extend_from_slice(record)?;
    }
    Ok(text)
}
