//! Frames of records that are read and accepted, from an independent program.
use marc_fields::decoding::{decode, is_frame};
use marc_parts::marc_record::Record;
use std::alloc::Global;
use std::test::Fail;

/// A record of a control number, fixed-length data and a title: 114 bytes.
pub const ONE: &[u8] =
    b"00114nam a2200061 a 4500001000300000008004100003245000800044\x1Eid\x1E240101s1999    xx                  eng d\x1E00\x1FaCat\x1E\x1D";

/// Frames that are accepted.
pub fn accepted() -> &'static [&'static [u8]] {
    &ACCEPTED
}

static ACCEPTED: [&[u8]; 40] = [
    // Data in the order 3 2 1 of the directory.
    b"00114nam a2200061 a 4500001000300049008004100008245000800000\x1E00\x1FaCat\x1E240101s1999    xx                  eng d\x1Eid\x1E\x1D",
    // Data in the order 2 1 3 of the directory.
    b"00114nam a2200061 a 4500001000300041008004100000245000800044\x1E240101s1999    xx                  eng d\x1Eid\x1E00\x1FaCat\x1E\x1D",
    // Data in the order 3 1 2 of the directory.
    b"00114nam a2200061 a 4500001000300008008004100011245000800000\x1E00\x1FaCat\x1Eid\x1E240101s1999    xx                  eng d\x1E\x1D",
    // Directory and data both in falling order of tags.
    b"00114nam a2200061 a 4500245000800000008004100008001000300049\x1E00\x1FaCat\x1E240101s1999    xx                  eng d\x1Eid\x1E\x1D",
    // Status 'a'.
    b"00114aam a2200061 a 4500001000300000008004100003245000800044\x1Eid\x1E240101s1999    xx                  eng d\x1E00\x1FaCat\x1E\x1D",
    // Status 'c'.
    b"00114cam a2200061 a 4500001000300000008004100003245000800044\x1Eid\x1E240101s1999    xx                  eng d\x1E00\x1FaCat\x1E\x1D",
    // Status 'd'.
    b"00114dam a2200061 a 4500001000300000008004100003245000800044\x1Eid\x1E240101s1999    xx                  eng d\x1E00\x1FaCat\x1E\x1D",
    // Status 'n'.
    ONE,
    // Status 'p'.
    b"00114pam a2200061 a 4500001000300000008004100003245000800044\x1Eid\x1E240101s1999    xx                  eng d\x1E00\x1FaCat\x1E\x1D",
    // Coding blank, all bytes under 0x80.
    b"00114nam  2200061 a 4500001000300000008004100003245000800044\x1Eid\x1E240101s1999    xx                  eng d\x1E00\x1FaCat\x1E\x1D",
    // Coding blank, bytes 0x7F, 0x00, 0x01 in a text.
    b"00134nam  2200073 a 4500001000300000008004100003245000800044500000800052\x1Eid\x1E240101s1999    xx                  eng d\x1E00\x1FaCat\x1E  \x1Fa\x7F\x00\x01\x1E\x1D",
    // U+0080 is accepted.
    b"00133nam a2200073 a 4500001000300000008004100003245000800044500000700052\x1Eid\x1E240101s1999    xx                  eng d\x1E00\x1FaCat\x1E  \x1Fa\xC2\x80\x1E\x1D",
    // U+07FF is accepted.
    b"00133nam a2200073 a 4500001000300000008004100003245000800044500000700052\x1Eid\x1E240101s1999    xx                  eng d\x1E00\x1FaCat\x1E  \x1Fa\xDF\xBF\x1E\x1D",
    // U+0800 is accepted.
    b"00134nam a2200073 a 4500001000300000008004100003245000800044500000800052\x1Eid\x1E240101s1999    xx                  eng d\x1E00\x1FaCat\x1E  \x1Fa\xE0\xA0\x80\x1E\x1D",
    // U+D7FF is accepted.
    b"00134nam a2200073 a 4500001000300000008004100003245000800044500000800052\x1Eid\x1E240101s1999    xx                  eng d\x1E00\x1FaCat\x1E  \x1Fa\xED\x9F\xBF\x1E\x1D",
    // U+E000 is accepted.
    b"00134nam a2200073 a 4500001000300000008004100003245000800044500000800052\x1Eid\x1E240101s1999    xx                  eng d\x1E00\x1FaCat\x1E  \x1Fa\xEE\x80\x80\x1E\x1D",
    // U+FFFE is accepted.
    b"00134nam a2200073 a 4500001000300000008004100003245000800044500000800052\x1Eid\x1E240101s1999    xx                  eng d\x1E00\x1FaCat\x1E  \x1Fa\xEF\xBF\xBE\x1E\x1D",
    // U+FFFF is accepted.
    b"00134nam a2200073 a 4500001000300000008004100003245000800044500000800052\x1Eid\x1E240101s1999    xx                  eng d\x1E00\x1FaCat\x1E  \x1Fa\xEF\xBF\xBF\x1E\x1D",
    // U+10000 is accepted.
    b"00135nam a2200073 a 4500001000300000008004100003245000800044500000900052\x1Eid\x1E240101s1999    xx                  eng d\x1E00\x1FaCat\x1E  \x1Fa\xF0\x90\x80\x80\x1E\x1D",
    // U+10FFFF is accepted.
    b"00135nam a2200073 a 4500001000300000008004100003245000800044500000900052\x1Eid\x1E240101s1999    xx                  eng d\x1E00\x1FaCat\x1E  \x1Fa\xF4\x8F\xBF\xBF\x1E\x1D",
    // Byte order mark in a text is accepted.
    b"00137nam a2200073 a 4500001000300000008004100003245000800044500001100052\x1Eid\x1E240101s1999    xx                  eng d\x1E00\x1FaCat\x1E  \x1Fa\xEF\xBB\xBFCat\x1E\x1D",
    // 0x00 and 0x1B in a text is accepted.
    b"00135nam a2200073 a 4500001000300000008004100003245000800044500000900052\x1Eid\x1E240101s1999    xx                  eng d\x1E00\x1FaCat\x1E  \x1Faa\x00\x1Bb\x1E\x1D",
    // 0x7F in a text is accepted.
    b"00133nam a2200073 a 4500001000300000008004100003245000800044500000700052\x1Eid\x1E240101s1999    xx                  eng d\x1E00\x1FaCat\x1E  \x1Faa\x7F\x1E\x1D",
    // CR LF in a text is accepted.
    b"00135nam a2200073 a 4500001000300000008004100003245000800044500000900052\x1Eid\x1E240101s1999    xx                  eng d\x1E00\x1FaCat\x1E  \x1Faa\x0D\x0Ab\x1E\x1D",
    // Control fields of other tags, one empty.
    b"00144nam a2200085 a 450000100030000000800410000324500080004400X000500052000000100057\x1Eid\x1E240101s1999    xx                  eng d\x1E00\x1FaCat\x1E  ax\x1E\x1E\x1D",
    // A tag that begins with one 0 is a data field.
    b"00132nam a2200073 a 45000010003000000080041000032450008000440A0000600052\x1Eid\x1E240101s1999    xx                  eng d\x1E00\x1FaCat\x1E  \x1Fax\x1E\x1D",
    // Highest and lowest indicators and codes, empty texts.
    b"00133nam a2200073 a 4500001000300000008004100003245000800044500000700052\x1Eid\x1E240101s1999    xx                  eng d\x1E00\x1FaCat\x1E~!\x1F~\x1F!\x1E\x1D",
    // Control number of 1 bytes.
    b"00113nam a2200061 a 4500001000200000008004100002245000800043\x1Ex\x1E240101s1999    xx                  eng d\x1E00\x1FaCat\x1E\x1D",
    // Control number of 63 bytes.
    b"00175nam a2200061 a 4500001006400000008004100064245000800105\x1Exxxxxxxxxxxxxxxxxxxxxxxxxxxxxxxxxxxxxxxxxxxxxxxxxxxxxxxxxxxxxxx\x1E240101s1999    xx                  eng d\x1E00\x1FaCat\x1E\x1D",
    // Control number of 64 bytes.
    b"00176nam a2200061 a 4500001006500000008004100065245000800106\x1Exxxxxxxxxxxxxxxxxxxxxxxxxxxxxxxxxxxxxxxxxxxxxxxxxxxxxxxxxxxxxxxx\x1E240101s1999    xx                  eng d\x1E00\x1FaCat\x1E\x1D",
    // 64 bytes after trimming.
    b"00181nam a2200061 a 4500001007000000008004100070245000800111\x1E   xxxxxxxxxxxxxxxxxxxxxxxxxxxxxxxxxxxxxxxxxxxxxxxxxxxxxxxxxxxxxxxx  \x1E240101s1999    xx                  eng d\x1E00\x1FaCat\x1E\x1D",
    // Blanks inside.
    b"00118nam a2200061 a 4500001000700000008004100007245000800048\x1Ea b  c\x1E240101s1999    xx                  eng d\x1E00\x1FaCat\x1E\x1D",
    // 0x7E between blanks.
    b"00115nam a2200061 a 4500001000400000008004100004245000800045\x1E ~ \x1E240101s1999    xx                  eng d\x1E00\x1FaCat\x1E\x1D",
    // Status d with 001 alone.
    b"00041dam a2200037 a 4500001000300000\x1Eid\x1E\x1D",
    // Status d with repeated and short fields.
    b"00144dam a2200109 a 4500001000300000245000600003245000600009100000600015110000600021008000600027008000100033\x1Eid\x1E00\x1Faa\x1E00\x1Fab\x1E1 \x1Fax\x1E1 \x1Fay\x1Eshort\x1E\x1E\x1D",
    // Other fields may repeat.
    b"00222nam a2200133 a 4500001000300000008004100003245000800044020000600052020000600058500000600064500000600070852000600076852000600082\x1Eid\x1E240101s1999    xx                  eng d\x1E00\x1FaCat\x1E  \x1Fax\x1E  \x1Fax\x1E  \x1Fax\x1E  \x1Fax\x1E  \x1Fax\x1E  \x1Fax\x1E\x1D",
    // Each once.
    b"00214nam a2200133 a 4500001000300000008004100003245000800044003000200052005000200054010000600056040000600062240000600068100000600074\x1Eid\x1E240101s1999    xx                  eng d\x1E00\x1FaCat\x1Ex\x1Ex\x1E  \x1Fax\x1E  \x1Fax\x1E10\x1Fax\x1E1 \x1Fax\x1E\x1D",
    // 008 of 40 bytes.
    b"00114nam a2200061 a 4500001000300000008004100003245000800044\x1Eid\x1Exxxxxxxxxxxxxxxxxxxxxxxxxxxxxxxxxxxxxxxx\x1E00\x1FaCat\x1E\x1D",
    // 008 of 40 bytes, 20 characters.
    b"00114nam a2200061 a 4500001000300000008004100003245000800044\x1Eid\x1E\xC3\xA9\xC3\xA9\xC3\xA9\xC3\xA9\xC3\xA9\xC3\xA9\xC3\xA9\xC3\xA9\xC3\xA9\xC3\xA9\xC3\xA9\xC3\xA9\xC3\xA9\xC3\xA9\xC3\xA9\xC3\xA9\xC3\xA9\xC3\xA9\xC3\xA9\xC3\xA9\x1E00\x1FaCat\x1E\x1D",
    // No 245, status d.
    b"00094dam a2200049 a 4500001000300000008004100003\x1Eid\x1E240101s1999    xx                  eng d\x1E\x1D",
];

/// The record of the frame.
pub fn record_of(alloc: Global, frame: &[u8]) -> Result<Record, Fail> {
    if !is_frame(frame) {
        Err("no frame")?;
    }
    Ok(decode(alloc, frame)?)
}
