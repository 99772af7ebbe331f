//! Streams from outside and how each is cut. The expected cuts were made by an independent program.
use crate::frames::ONE;
use iso2709_frame::cut::Cut;
use std::alloc::Global;
use union_base::bytes::Bytes;
use union_base::memory::Memory;

/// How many streams there are.
pub const STREAMS: usize = 50;

/// The streams: a stream's number, a text, and how often the text stands in a row.
static RUNS: [(usize, &[u8], usize); 83] = [
    // only skipped bytes, one CR
    (1, b"\x0d", 1),
    // only skipped bytes, one LF
    (2, b"\x0a", 1),
    // only skipped bytes, CR LF three times
    (3, b"\x0d\x0a\x0d\x0a\x0d\x0a", 1),
    // only skipped bytes, LF CR
    (4, b"\x0a\x0d", 1),
    // only skipped bytes, many LF
    (5, b"\x0a", 5000),
    // lone record terminator
    (6, b"\x1d", 1),
    // two record terminators
    (7, b"\x1d\x1d", 1),
    // five record terminators
    (8, b"\x1d\x1d\x1d\x1d\x1d", 1),
    // LF before each of three record terminators
    (9, b"\x0a\x1d\x0a\x1d\x0a\x1d", 1),
    // one record
    (10, ONE, 1),
    // two records
    (11, ONE, 2),
    // two records with CR LF between
    (12, ONE, 1),
    (12, b"\x0d\x0a", 1),
    (12, ONE, 1),
    // two records with LF CR LF CR between
    (13, ONE, 1),
    (13, b"\x0a\x0d\x0a\x0d", 1),
    (13, ONE, 1),
    // CR LF before the first record
    (14, b"\x0d\x0a", 1),
    (14, ONE, 1),
    // CR LF after the last record
    (15, ONE, 1),
    (15, b"\x0d\x0a", 1),
    // CR LF inside a record stays
    (16, b"ab\x0d\x0acd\x1d", 1),
    // CR LF at the start and inside
    (17, b"\x0d\x0a\x0d\x0aab\x0d\x0a\x0d\x0acd\x1d", 1),
    // CR LF just before the record terminator
    (18, b"ab\x0d\x0a\x1d", 1),
    // blank before LF is no skipped byte
    (19, b" \x0aab\x1d", 1),
    // LF, blank, LF: skipping ends at the blank
    (20, b"\x0a \x0aab\x1d", 1),
    // NUL at the start stays
    (21, b"\x00ab\x1d", 1),
    // tab at the start stays
    (22, b"\x09ab\x1d", 1),
    // byte order mark at the start stays
    (23, b"\xef\xbb\xbf", 1),
    (23, ONE, 1),
    // NEL (0x85) at the start stays
    (24, b"\x85ab\x1d", 1),
    // field and unit separators at the start stay
    (25, b"\x1e\x1fab\x1d", 1),
    // rest of one byte
    (26, b"x", 1),
    // rest of one byte after a record
    (27, ONE, 1),
    (27, b"x", 1),
    // rest after CR LF
    (28, ONE, 1),
    (28, b"\x0d\x0aabc", 1),
    // rest that ends in CR LF
    (29, b"abc\x0d\x0a", 1),
    // rest of fifty bytes of a record
    (30, ONE, 1),
    (30, b"00114nam a2200061 a 450000100030000000800410000324", 1),
    // a whole record without its terminator
    (
        31,
        b"00114nam a2200061 a 4500001000300000008004100003245000800044\x1eid\x1e240101s1999    xx                  eng d\x1e00\x1faCat\x1e",
        1,
    ),
    // rest after several terminators
    (32, b"\x1d\x1d\x1d\x0a\x0dabc", 1),
    // 99,998 bytes
    (33, b"a", 99997),
    (33, b"\x1d", 1),
    // 99,999 bytes
    (34, b"a", 99998),
    (34, b"\x1d", 1),
    // 100,000 bytes
    (35, b"a", 99999),
    (35, b"\x1d", 1),
    // 100,001 bytes
    (36, b"a", 100000),
    (36, b"\x1d", 1),
    // 99,999 bytes after CR LF
    (37, b"\x0d\x0a", 1),
    (37, b"a", 99998),
    (37, b"\x1d", 1),
    // 99,999 bytes after 500 LF
    (38, b"\x0a", 500),
    (38, b"a", 99998),
    (38, b"\x1d", 1),
    // 100,000 bytes after LF
    (39, b"\x0a", 1),
    (39, b"a", 99999),
    (39, b"\x1d", 1),
    // 99,997 bytes and CR LF inside
    (40, b"a\x0d\x0a", 1),
    (40, b"b", 99995),
    (40, b"\x1d", 1),
    // 100,000 bytes that end in CR LF and the terminator
    (41, b"a", 99997),
    (41, b"\x0d\x0a\x1d", 1),
    // 100,000 bytes, then a record
    (42, b"a", 99999),
    (42, b"\x1d", 1),
    (42, ONE, 1),
    // record, 100,000 bytes, record
    (43, ONE, 1),
    (43, b"a", 99999),
    (43, b"\x1d\x0d\x0a", 1),
    (43, ONE, 1),
    // 250,000 bytes, then a lone terminator
    (44, b"x", 249999),
    (44, b"\x1d\x1d", 1),
    // two too long ones
    (45, b"a", 99999),
    (45, b"\x1d\x0d\x0a", 1),
    (45, b"b", 200000),
    (45, b"\x1d", 1),
    // rest of 99,999 bytes
    (46, b"a", 99999),
    // rest of 100,000 bytes
    (47, b"a", 100000),
    // rest of 150,000 bytes after a record
    (48, ONE, 1),
    (48, b"z", 150000),
    // 300,000 LF, then a record
    (49, b"\x0a", 300000),
    (49, ONE, 1),
];

/// The cuts: a stream's number, how the frame is cut, and where it lies in the stream.
static CUTS: [(usize, Cut, usize, usize); 66] = [
    (6, Cut::Whole, 0, 1),
    (7, Cut::Whole, 0, 1),
    (7, Cut::Whole, 1, 2),
    (8, Cut::Whole, 0, 1),
    (8, Cut::Whole, 1, 2),
    (8, Cut::Whole, 2, 3),
    (8, Cut::Whole, 3, 4),
    (8, Cut::Whole, 4, 5),
    (9, Cut::Whole, 1, 2),
    (9, Cut::Whole, 3, 4),
    (9, Cut::Whole, 5, 6),
    (10, Cut::Whole, 0, 114),
    (11, Cut::Whole, 0, 114),
    (11, Cut::Whole, 114, 228),
    (12, Cut::Whole, 0, 114),
    (12, Cut::Whole, 116, 230),
    (13, Cut::Whole, 0, 114),
    (13, Cut::Whole, 118, 232),
    (14, Cut::Whole, 2, 116),
    (15, Cut::Whole, 0, 114),
    (16, Cut::Whole, 0, 7),
    (17, Cut::Whole, 4, 13),
    (18, Cut::Whole, 0, 5),
    (19, Cut::Whole, 0, 5),
    (20, Cut::Whole, 1, 6),
    (21, Cut::Whole, 0, 4),
    (22, Cut::Whole, 0, 4),
    (23, Cut::Whole, 0, 117),
    (24, Cut::Whole, 0, 4),
    (25, Cut::Whole, 0, 5),
    (26, Cut::Truncated, 0, 0),
    (27, Cut::Whole, 0, 114),
    (27, Cut::Truncated, 0, 0),
    (28, Cut::Whole, 0, 114),
    (28, Cut::Truncated, 0, 0),
    (29, Cut::Truncated, 0, 0),
    (30, Cut::Whole, 0, 114),
    (30, Cut::Truncated, 0, 0),
    (31, Cut::Truncated, 0, 0),
    (32, Cut::Whole, 0, 1),
    (32, Cut::Whole, 1, 2),
    (32, Cut::Whole, 2, 3),
    (32, Cut::Truncated, 0, 0),
    (33, Cut::Whole, 0, 99998),
    (34, Cut::Whole, 0, 99999),
    (35, Cut::TooLong, 0, 0),
    (36, Cut::TooLong, 0, 0),
    (37, Cut::Whole, 2, 100001),
    (38, Cut::Whole, 500, 100499),
    (39, Cut::TooLong, 0, 0),
    (40, Cut::Whole, 0, 99999),
    (41, Cut::TooLong, 0, 0),
    (42, Cut::TooLong, 0, 0),
    (42, Cut::Whole, 100000, 100114),
    (43, Cut::Whole, 0, 114),
    (43, Cut::TooLong, 0, 0),
    (43, Cut::Whole, 100116, 100230),
    (44, Cut::TooLong, 0, 0),
    (44, Cut::Whole, 250000, 250001),
    (45, Cut::TooLong, 0, 0),
    (45, Cut::TooLong, 0, 0),
    (46, Cut::Truncated, 0, 0),
    (47, Cut::Truncated, 0, 0),
    (48, Cut::Whole, 0, 114),
    (48, Cut::Truncated, 0, 0),
    (49, Cut::Whole, 300000, 300114),
];

/// The most pieces that a stream is given in. So one with a frame of 100,000 bytes comes in pieces of three bytes, and one of
/// 300,000 bytes in pieces of seven.
pub const MOST_PIECES: usize = 45_000;

/// The stream of that number.
pub fn stream_of(alloc: Global, number: usize) -> Result<Bytes, Memory> {
    let mut stream = Vec::new(alloc);
    for (of, text, times) in &RUNS {
        if *of == number {
            for _ in 0..*times {
                stream.extend_from_slice(text)?;
            }
        }
    }
    Ok(Bytes::from(stream))
}

/// The cuts of the stream of that number.
pub fn cuts_of(alloc: Global, number: usize, stream: &[u8]) -> Result<Vec<(Cut, Bytes)>, Memory> {
    let mut cuts = Vec::new(alloc);
    for (of, cut, start, end) in &CUTS {
        if *of == number {
            let frame = stream.get(*start..*end).unwrap_or(&[]);
            cuts.push((*cut, Bytes::of(alloc, frame)?))?;
        }
    }
    Ok(cuts)
}
