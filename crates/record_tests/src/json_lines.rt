//! Lines of JSON from an independent program, with what is read of them, and the frames of the records that they stand for.

/// A line that has not the form of a record, after the place that is wrong.
pub type Misshaped = (u64, &'static [u8]);

/// A line, and the frame of the record that it stands for.
pub type Stated = (&'static [u8], &'static [u8]);

/// Lines that are no JSON.
pub fn no_json() -> &'static [&'static [u8]] {
    &NO_JSON
}

/// Lines of JSON whose value has not the form of a record.
pub fn misshaped() -> &'static [Misshaped] {
    &MISSHAPED
}

/// Lines that stand for a record.
pub fn stated() -> &'static [Stated] {
    &STATED
}

/// Frames, and the lines that are written of their records.
pub fn written() -> &'static [Stated] {
    &WRITTEN
}

static NO_JSON: [&[u8]; 20] = [
    // No value: nothing.
    b"",
    // No value: an open brace.
    b"{",
    // No value: NaN.
    b"NaN",
    // No JSON: cut off in a text.
    b"{\"fields\":[{\"001\":\"i",
    // No JSON: two records.
    b"{\"fields\":[{\"001\":\"id\"},{\"008\":\"240101s1999    xx                  eng d\"},{\"245\":{\"ind1\":\"0\",\"ind2\":\"0\",\"subfields\":[{\"a\":\"Cat\"}]}}],\"leader\":\"00000nam a2200000 a 4500\"}{\"fields\":[{\"001\":\"id\"},{\"008\":\"240101s1999    xx                  eng d\"},{\"245\":{\"ind1\":\"0\",\"ind2\":\"0\",\"subfields\":[{\"a\":\"Cat\"}]}}],\"leader\":\"00000nam a2200000 a 4500\"}",
    // No JSON: a comma before the bracket.
    b"{\"fields\":[{\"001\":\"id\"},{\"008\":\"240101s1999    xx                  eng d\"},{\"245\":{\"ind1\":\"0\",\"ind2\":\"0\",\"subfields\":[{\"a\":\"Cat\"}]}},],\"leader\":\"00000nam a2200000 a 4500\"}",
    // No JSON: a colon missing.
    b"{\"fields\":[{\"001\"\"id\"},{\"008\":\"240101s1999    xx                  eng d\"},{\"245\":{\"ind1\":\"0\",\"ind2\":\"0\",\"subfields\":[{\"a\":\"Cat\"}]}}],\"leader\":\"00000nam a2200000 a 4500\"}",
    // No JSON: single quotes.
    b"{'fields':[{'001':'id'},{'008':'240101s1999    xx                  eng d'},{'245':{'ind1':'0','ind2':'0','subfields':[{'a':'Cat'}]}}],'leader':'00000nam a2200000 a 4500'}",
    // No JSON: byte order mark at the start.
    b"\xEF\xBB\xBF{\"fields\":[{\"001\":\"id\"},{\"008\":\"240101s1999    xx                  eng d\"},{\"245\":{\"ind1\":\"0\",\"ind2\":\"0\",\"subfields\":[{\"a\":\"Cat\"}]}}],\"leader\":\"00000nam a2200000 a 4500\"}",
    // Not UTF-8: 0xFF in a text.
    b"{\"fields\":[{\"001\":\"id\"},{\"008\":\"240101s1999    xx                  eng d\"},{\"245\":{\"ind1\":\"0\",\"ind2\":\"0\",\"subfields\":[{\"a\":\"Cat\"}]}},{\"500\":{\"ind1\":\" \",\"ind2\":\" \",\"subfields\":[{\"a\":\"\xFF\"}]}}],\"leader\":\"00000nam a2200000 a 4500\"}",
    // Not UTF-8: an encoded surrogate.
    b"{\"fields\":[{\"001\":\"id\"},{\"008\":\"240101s1999    xx                  eng d\"},{\"245\":{\"ind1\":\"0\",\"ind2\":\"0\",\"subfields\":[{\"a\":\"Cat\"}]}},{\"500\":{\"ind1\":\" \",\"ind2\":\" \",\"subfields\":[{\"a\":\"\xED\xA0\x80\"}]}}],\"leader\":\"00000nam a2200000 a 4500\"}",
    // A number beside that is too large: 1e309.
    b"{\"x\":1e309,\"fields\":[{\"001\":\"id\"},{\"008\":\"240101s1999    xx                  eng d\"},{\"245\":{\"ind1\":\"0\",\"ind2\":\"0\",\"subfields\":[{\"a\":\"Cat\"}]}}],\"leader\":\"00000nam a2200000 a 4500\"}",
    // A number beside that is none: 01.
    b"{\"x\":01,\"fields\":[{\"001\":\"id\"},{\"008\":\"240101s1999    xx                  eng d\"},{\"245\":{\"ind1\":\"0\",\"ind2\":\"0\",\"subfields\":[{\"a\":\"Cat\"}]}}],\"leader\":\"00000nam a2200000 a 4500\"}",
    // A faulty text: a lone high surrogate.
    b"{\"fields\":[{\"001\":\"id\"},{\"008\":\"240101s1999    xx                  eng d\"},{\"245\":{\"ind1\":\"0\",\"ind2\":\"0\",\"subfields\":[{\"a\":\"Cat\"}]}},{\"500\":{\"ind1\":\" \",\"ind2\":\" \",\"subfields\":[{\"a\":\"\\ud800\"}]}}],\"leader\":\"00000nam a2200000 a 4500\"}",
    // A faulty text: a lone low surrogate.
    b"{\"fields\":[{\"001\":\"id\"},{\"008\":\"240101s1999    xx                  eng d\"},{\"245\":{\"ind1\":\"0\",\"ind2\":\"0\",\"subfields\":[{\"a\":\"Cat\"}]}},{\"500\":{\"ind1\":\" \",\"ind2\":\" \",\"subfields\":[{\"a\":\"\\udc00\"}]}}],\"leader\":\"00000nam a2200000 a 4500\"}",
    // A faulty text: an unknown escape.
    b"{\"fields\":[{\"001\":\"id\"},{\"008\":\"240101s1999    xx                  eng d\"},{\"245\":{\"ind1\":\"0\",\"ind2\":\"0\",\"subfields\":[{\"a\":\"Cat\"}]}},{\"500\":{\"ind1\":\" \",\"ind2\":\" \",\"subfields\":[{\"a\":\"\\x41\"}]}}],\"leader\":\"00000nam a2200000 a 4500\"}",
    // A faulty text: NUL as it is.
    b"{\"fields\":[{\"001\":\"id\"},{\"008\":\"240101s1999    xx                  eng d\"},{\"245\":{\"ind1\":\"0\",\"ind2\":\"0\",\"subfields\":[{\"a\":\"Cat\"}]}},{\"500\":{\"ind1\":\" \",\"ind2\":\" \",\"subfields\":[{\"a\":\"a\x00b\"}]}}],\"leader\":\"00000nam a2200000 a 4500\"}",
    // A faulty text in a key that is given again.
    b"{\"leader\":\"\\ud800\",\"fields\":[{\"001\":\"id\"},{\"008\":\"240101s1999    xx                  eng d\"},{\"245\":{\"ind1\":\"0\",\"ind2\":\"0\",\"subfields\":[{\"a\":\"Cat\"}]}}],\"leader\":\"00000nam a2200000 a 4500\"}",
    // Lists in a key beside, 128 deep with the record itself.
    b"{\"x\":[[[[[[[[[[[[[[[[[[[[[[[[[[[[[[[[[[[[[[[[[[[[[[[[[[[[[[[[[[[[[[[[[[[[[[[[[[[[[[[[[[[[[[[[[[[[[[[[[[[[[[[[[[[[[[[[[[[[[[[[[[[[[[[1]]]]]]]]]]]]]]]]]]]]]]]]]]]]]]]]]]]]]]]]]]]]]]]]]]]]]]]]]]]]]]]]]]]]]]]]]]]]]]]]]]]]]]]]]]]]]]]]]]]]]]]]]]]]]]]]]]]]]]]]]]]]]]],\"fields\":[{\"001\":\"id\"},{\"008\":\"240101s1999    xx                  eng d\"},{\"245\":{\"ind1\":\"0\",\"ind2\":\"0\",\"subfields\":[{\"a\":\"Cat\"}]}}],\"leader\":\"00000nam a2200000 a 4500\"}",
    // Lists alone, 128 deep.
    b"[[[[[[[[[[[[[[[[[[[[[[[[[[[[[[[[[[[[[[[[[[[[[[[[[[[[[[[[[[[[[[[[[[[[[[[[[[[[[[[[[[[[[[[[[[[[[[[[[[[[[[[[[[[[[[[[[[[[[[[[[[[[[[[[]]]]]]]]]]]]]]]]]]]]]]]]]]]]]]]]]]]]]]]]]]]]]]]]]]]]]]]]]]]]]]]]]]]]]]]]]]]]]]]]]]]]]]]]]]]]]]]]]]]]]]]]]]]]]]]]]]]]]]]]]]]]]]]]",
];

static MISSHAPED: [Misshaped; 33] = [
    // A value that is no record: null.
    (0, b"null"),
    // A value that is no record: a record in a list.
    (
        0,
        b"[{\"fields\":[{\"001\":\"id\"},{\"008\":\"240101s1999    xx                  eng d\"},{\"245\":{\"ind1\":\"0\",\"ind2\":\"0\",\"subfields\":[{\"a\":\"Cat\"}]}}],\"leader\":\"00000nam a2200000 a 4500\"}]",
    ),
    // A text with 0x1d by an escape.
    (
        4,
        b"{\"fields\":[{\"001\":\"id\"},{\"008\":\"240101s1999    xx                  eng d\"},{\"245\":{\"ind1\":\"0\",\"ind2\":\"0\",\"subfields\":[{\"a\":\"Cat\"}]}},{\"500\":{\"ind1\":\" \",\"ind2\":\" \",\"subfields\":[{\"a\":\"a\\u001db\"}]}}],\"leader\":\"00000nam a2200000 a 4500\"}",
    ),
    // Lists alone, 127 deep.
    (
        0,
        b"[[[[[[[[[[[[[[[[[[[[[[[[[[[[[[[[[[[[[[[[[[[[[[[[[[[[[[[[[[[[[[[[[[[[[[[[[[[[[[[[[[[[[[[[[[[[[[[[[[[[[[[[[[[[[[[[[[[[[[[[[[[[[[[]]]]]]]]]]]]]]]]]]]]]]]]]]]]]]]]]]]]]]]]]]]]]]]]]]]]]]]]]]]]]]]]]]]]]]]]]]]]]]]]]]]]]]]]]]]]]]]]]]]]]]]]]]]]]]]]]]]]]]]]]]]]]]]",
    ),
    // The top: no leader.
    (0, b"{\"fields\":[]}"),
    // The top: no fields.
    (0, b"{\"leader\":\"00000nam a2200000 a 4500\"}"),
    // The top: fields an object.
    (
        0,
        b"{\"fields\":{\"001\":\"id\"},\"leader\":\"00000nam a2200000 a 4500\"}",
    ),
    // A leader of 23.
    (
        0,
        b"{\"fields\":[{\"001\":\"id\"},{\"008\":\"240101s1999    xx                  eng d\"},{\"245\":{\"ind1\":\"0\",\"ind2\":\"0\",\"subfields\":[{\"a\":\"Cat\"}]}}],\"leader\":\"00000nam a2200000 a 450\"}",
    ),
    // A leader of 24 with a tab.
    (
        0,
        b"{\"fields\":[{\"001\":\"id\"},{\"008\":\"240101s1999    xx                  eng d\"},{\"245\":{\"ind1\":\"0\",\"ind2\":\"0\",\"subfields\":[{\"a\":\"Cat\"}]}}],\"leader\":\"00000\\tam a2200000 a 4500\"}",
    ),
    // A leader of 24 characters, 25 bytes.
    (
        0,
        b"{\"fields\":[{\"001\":\"id\"},{\"008\":\"240101s1999    xx                  eng d\"},{\"245\":{\"ind1\":\"0\",\"ind2\":\"0\",\"subfields\":[{\"a\":\"Cat\"}]}}],\"leader\":\"00000nam a2200000 a 450\xC3\xA9\"}",
    ),
    // Leader twice, the last wrong.
    (
        0,
        b"{\"fields\":[{\"001\":\"id\"},{\"008\":\"240101s1999    xx                  eng d\"},{\"245\":{\"ind1\":\"0\",\"ind2\":\"0\",\"subfields\":[{\"a\":\"Cat\"}]}}],\"leader\":\"00000nam a2200000 a 4500\",\"leader\":\"short\"}",
    ),
    // Fields twice, the last wrong.
    (
        0,
        b"{\"fields\":[{\"001\":\"id\"},{\"008\":\"240101s1999    xx                  eng d\"},{\"245\":{\"ind1\":\"0\",\"ind2\":\"0\",\"subfields\":[{\"a\":\"Cat\"}]}}],\"leader\":\"00000nam a2200000 a 4500\",\"fields\":{}}",
    ),
    // List and leader both wrong.
    (0, b"{\"fields\":1,\"leader\":1}"),
    // A field: null.
    (
        4,
        b"{\"fields\":[{\"001\":\"id\"},{\"008\":\"240101s1999    xx                  eng d\"},{\"245\":{\"ind1\":\"0\",\"ind2\":\"0\",\"subfields\":[{\"a\":\"Cat\"}]}},null],\"leader\":\"00000nam a2200000 a 4500\"}",
    ),
    // A field: two tags.
    (
        4,
        b"{\"fields\":[{\"001\":\"id\"},{\"008\":\"240101s1999    xx                  eng d\"},{\"245\":{\"ind1\":\"0\",\"ind2\":\"0\",\"subfields\":[{\"a\":\"Cat\"}]}},{\"003\":\"x\",\"005\":\"y\"}],\"leader\":\"00000nam a2200000 a 4500\"}",
    ),
    // A field: a tag of two.
    (
        4,
        b"{\"fields\":[{\"001\":\"id\"},{\"008\":\"240101s1999    xx                  eng d\"},{\"245\":{\"ind1\":\"0\",\"ind2\":\"0\",\"subfields\":[{\"a\":\"Cat\"}]}},{\"50\":{\"ind1\":\" \",\"ind2\":\" \",\"subfields\":[{\"a\":\"x\"}]}}],\"leader\":\"00000nam a2200000 a 4500\"}",
    ),
    // A field: a tag with a blank.
    (
        4,
        b"{\"fields\":[{\"001\":\"id\"},{\"008\":\"240101s1999    xx                  eng d\"},{\"245\":{\"ind1\":\"0\",\"ind2\":\"0\",\"subfields\":[{\"a\":\"Cat\"}]}},{\"50 \":{\"ind1\":\" \",\"ind2\":\" \",\"subfields\":[{\"a\":\"x\"}]}}],\"leader\":\"00000nam a2200000 a 4500\"}",
    ),
    // A field: a control field with an object.
    (
        4,
        b"{\"fields\":[{\"001\":\"id\"},{\"008\":\"240101s1999    xx                  eng d\"},{\"245\":{\"ind1\":\"0\",\"ind2\":\"0\",\"subfields\":[{\"a\":\"Cat\"}]}},{\"005\":{\"ind1\":\" \",\"ind2\":\" \",\"subfields\":[{\"a\":\"x\"}]}}],\"leader\":\"00000nam a2200000 a 4500\"}",
    ),
    // A field: a data field with a text.
    (
        4,
        b"{\"fields\":[{\"001\":\"id\"},{\"008\":\"240101s1999    xx                  eng d\"},{\"245\":{\"ind1\":\"0\",\"ind2\":\"0\",\"subfields\":[{\"a\":\"Cat\"}]}},{\"500\":\"x\"}],\"leader\":\"00000nam a2200000 a 4500\"}",
    ),
    // A field: no ind2.
    (
        4,
        b"{\"fields\":[{\"001\":\"id\"},{\"008\":\"240101s1999    xx                  eng d\"},{\"245\":{\"ind1\":\"0\",\"ind2\":\"0\",\"subfields\":[{\"a\":\"Cat\"}]}},{\"500\":{\"ind1\":\" \",\"subfields\":[{\"a\":\"x\"}]}}],\"leader\":\"00000nam a2200000 a 4500\"}",
    ),
    // A field: a key too many.
    (
        4,
        b"{\"fields\":[{\"001\":\"id\"},{\"008\":\"240101s1999    xx                  eng d\"},{\"245\":{\"ind1\":\"0\",\"ind2\":\"0\",\"subfields\":[{\"a\":\"Cat\"}]}},{\"500\":{\"ind1\":\" \",\"ind2\":\" \",\"subfields\":[{\"a\":\"x\"}],\"x\":1}}],\"leader\":\"00000nam a2200000 a 4500\"}",
    ),
    // Ind1 of two characters.
    (
        4,
        b"{\"fields\":[{\"001\":\"id\"},{\"008\":\"240101s1999    xx                  eng d\"},{\"245\":{\"ind1\":\"0\",\"ind2\":\"0\",\"subfields\":[{\"a\":\"Cat\"}]}},{\"500\":{\"ind1\":\"  \",\"ind2\":\" \",\"subfields\":[{\"a\":\"x\"}]}}],\"leader\":\"00000nam a2200000 a 4500\"}",
    ),
    // Ind1 a letter beyond ASCII.
    (
        4,
        b"{\"fields\":[{\"001\":\"id\"},{\"008\":\"240101s1999    xx                  eng d\"},{\"245\":{\"ind1\":\"0\",\"ind2\":\"0\",\"subfields\":[{\"a\":\"Cat\"}]}},{\"500\":{\"ind1\":\"\xC3\xA9\",\"ind2\":\" \",\"subfields\":[{\"a\":\"x\"}]}}],\"leader\":\"00000nam a2200000 a 4500\"}",
    ),
    // Subfields empty.
    (
        4,
        b"{\"fields\":[{\"001\":\"id\"},{\"008\":\"240101s1999    xx                  eng d\"},{\"245\":{\"ind1\":\"0\",\"ind2\":\"0\",\"subfields\":[{\"a\":\"Cat\"}]}},{\"500\":{\"ind1\":\" \",\"ind2\":\" \",\"subfields\":[]}}],\"leader\":\"00000nam a2200000 a 4500\"}",
    ),
    // Subfields with two keys in one.
    (
        4,
        b"{\"fields\":[{\"001\":\"id\"},{\"008\":\"240101s1999    xx                  eng d\"},{\"245\":{\"ind1\":\"0\",\"ind2\":\"0\",\"subfields\":[{\"a\":\"Cat\"}]}},{\"500\":{\"ind1\":\" \",\"ind2\":\" \",\"subfields\":[{\"a\":\"x\",\"b\":\"y\"}]}}],\"leader\":\"00000nam a2200000 a 4500\"}",
    ),
    // Subfields with a good one and an empty one.
    (
        4,
        b"{\"fields\":[{\"001\":\"id\"},{\"008\":\"240101s1999    xx                  eng d\"},{\"245\":{\"ind1\":\"0\",\"ind2\":\"0\",\"subfields\":[{\"a\":\"Cat\"}]}},{\"500\":{\"ind1\":\" \",\"ind2\":\" \",\"subfields\":[{\"a\":\"x\"},{}]}}],\"leader\":\"00000nam a2200000 a 4500\"}",
    ),
    // A code of two.
    (
        4,
        b"{\"fields\":[{\"001\":\"id\"},{\"008\":\"240101s1999    xx                  eng d\"},{\"245\":{\"ind1\":\"0\",\"ind2\":\"0\",\"subfields\":[{\"a\":\"Cat\"}]}},{\"500\":{\"ind1\":\" \",\"ind2\":\" \",\"subfields\":[{\"ab\":\"x\"}]}}],\"leader\":\"00000nam a2200000 a 4500\"}",
    ),
    // A code a blank.
    (
        4,
        b"{\"fields\":[{\"001\":\"id\"},{\"008\":\"240101s1999    xx                  eng d\"},{\"245\":{\"ind1\":\"0\",\"ind2\":\"0\",\"subfields\":[{\"a\":\"Cat\"}]}},{\"500\":{\"ind1\":\" \",\"ind2\":\" \",\"subfields\":[{\" \":\"x\"}]}}],\"leader\":\"00000nam a2200000 a 4500\"}",
    ),
    // A subfield's value null.
    (
        4,
        b"{\"fields\":[{\"001\":\"id\"},{\"008\":\"240101s1999    xx                  eng d\"},{\"245\":{\"ind1\":\"0\",\"ind2\":\"0\",\"subfields\":[{\"a\":\"Cat\"}]}},{\"500\":{\"ind1\":\" \",\"ind2\":\" \",\"subfields\":[{\"a\":null}]}}],\"leader\":\"00000nam a2200000 a 4500\"}",
    ),
    // One tag twice in one object, the last wrong.
    (
        4,
        b"{\"fields\":[{\"001\":\"id\"},{\"008\":\"240101s1999    xx                  eng d\"},{\"245\":{\"ind1\":\"0\",\"ind2\":\"0\",\"subfields\":[{\"a\":\"Cat\"}]}},{\"006\":\"x\",\"006\":1}],\"leader\":\"00000nam a2200000 a 4500\"}",
    ),
    // One code twice in one object, the last wrong.
    (
        4,
        b"{\"fields\":[{\"001\":\"id\"},{\"008\":\"240101s1999    xx                  eng d\"},{\"245\":{\"ind1\":\"0\",\"ind2\":\"0\",\"subfields\":[{\"a\":\"Cat\"}]}},{\"500\":{\"ind1\":\" \",\"ind2\":\" \",\"subfields\":[{\"a\":\"x\",\"a\":1}]}}],\"leader\":\"00000nam a2200000 a 4500\"}",
    ),
    // The first field wrong.
    (
        1,
        b"{\"fields\":[1,{\"008\":\"240101s1999    xx                  eng d\"},{\"245\":{\"ind1\":\"0\",\"ind2\":\"0\",\"subfields\":[{\"a\":\"Cat\"}]}}],\"leader\":\"00000nam a2200000 a 4500\"}",
    ),
    // The second and the fourth wrong.
    (
        2,
        b"{\"fields\":[{\"001\":\"id\"},{},{\"245\":{\"ind1\":\"0\",\"ind2\":\"0\",\"subfields\":[{\"a\":\"Cat\"}]}},[]],\"leader\":\"00000nam a2200000 a 4500\"}",
    ),
];

static STATED: [Stated; 26] = [
    // A whole record.
    (
        b"{\"fields\":[{\"001\":\"id\"},{\"008\":\"240101s1999    xx                  eng d\"},{\"245\":{\"ind1\":\"0\",\"ind2\":\"0\",\"subfields\":[{\"a\":\"Cat\"}]}}],\"leader\":\"00000nam a2200000 a 4500\"}",
        b"00114nam a2200061 a 4500001000300000008004100003245000800044\x1Eid\x1E240101s1999    xx                  eng d\x1E00\x1FaCat\x1E\x1D",
    ),
    // Keys in another order.
    (
        b"{\"leader\":\"00000nam a2200000 a 4500\",\"fields\":[{\"001\":\"id\"},{\"008\":\"240101s1999    xx                  eng d\"},{\"245\":{\"subfields\":[{\"a\":\"Cat\"}],\"ind2\":\"0\",\"ind1\":\"0\"}}]}",
        b"00114nam a2200061 a 4500001000300000008004100003245000800044\x1Eid\x1E240101s1999    xx                  eng d\x1E00\x1FaCat\x1E\x1D",
    ),
    // LF after it.
    (
        b"{\"fields\":[{\"001\":\"id\"},{\"008\":\"240101s1999    xx                  eng d\"},{\"245\":{\"ind1\":\"0\",\"ind2\":\"0\",\"subfields\":[{\"a\":\"Cat\"}]}}],\"leader\":\"00000nam a2200000 a 4500\"}\x0A",
        b"00114nam a2200061 a 4500001000300000008004100003245000800044\x1Eid\x1E240101s1999    xx                  eng d\x1E00\x1FaCat\x1E\x1D",
    ),
    // Blanks, tabs, CR and LF between everything.
    (
        b" \x09\x0D\x0A{ \x09\"fields\" : [ { \x09\"001\" : \"id\"\x0A},{ \x09\"008\" : \"240101s1999    xx                  eng d\"\x0A},{ \x09\"245\":{ \x09\"ind1\":\"0\" ,\x0D\x0A\"ind2\":\"0\" ,\x0D\x0A\"subfields\":[ { \x09\"a\":\"Cat\"\x0A}]\x0A}\x0A}] ,\x0D\x0A\"leader\":\"00000nam a2200000 a 4500\"\x0A} \x09\x0D\x0A",
        b"00114nam a2200061 a 4500001000300000008004100003245000800044\x1Eid\x1E240101s1999    xx                  eng d\x1E00\x1FaCat\x1E\x1D",
    ),
    // UTF-8 up to U+10FFFF.
    (
        b"{\"fields\":[{\"001\":\"id\"},{\"008\":\"240101s1999    xx                  eng d\"},{\"245\":{\"ind1\":\"0\",\"ind2\":\"0\",\"subfields\":[{\"a\":\"Cat\"}]}},{\"500\":{\"ind1\":\" \",\"ind2\":\" \",\"subfields\":[{\"a\":\"\xC3\xA9\xE6\x9D\xB1\xF0\x9D\x84\x9E\xF4\x8F\xBF\xBF\xEF\xBF\xBF\xEE\x80\x80\"}]}}],\"leader\":\"00000nam a2200000 a 4500\"}",
        b"00150nam a2200073 a 4500001000300000008004100003245000800044500002400052\x1Eid\x1E240101s1999    xx                  eng d\x1E00\x1FaCat\x1E  \x1Fa\xC3\xA9\xE6\x9D\xB1\xF0\x9D\x84\x9E\xF4\x8F\xBF\xBF\xEF\xBF\xBF\xEE\x80\x80\x1E\x1D",
    ),
    // A number beside: -0.
    (
        b"{\"x\":-0,\"fields\":[{\"001\":\"id\"},{\"008\":\"240101s1999    xx                  eng d\"},{\"245\":{\"ind1\":\"0\",\"ind2\":\"0\",\"subfields\":[{\"a\":\"Cat\"}]}}],\"leader\":\"00000nam a2200000 a 4500\"}",
        b"00114nam a2200061 a 4500001000300000008004100003245000800044\x1Eid\x1E240101s1999    xx                  eng d\x1E00\x1FaCat\x1E\x1D",
    ),
    // A number beside: 1e-400.
    (
        b"{\"x\":1e-400,\"fields\":[{\"001\":\"id\"},{\"008\":\"240101s1999    xx                  eng d\"},{\"245\":{\"ind1\":\"0\",\"ind2\":\"0\",\"subfields\":[{\"a\":\"Cat\"}]}}],\"leader\":\"00000nam a2200000 a 4500\"}",
        b"00114nam a2200061 a 4500001000300000008004100003245000800044\x1Eid\x1E240101s1999    xx                  eng d\x1E00\x1FaCat\x1E\x1D",
    ),
    // A number beside: of 301 bytes.
    (
        b"{\"x\":1000000000000000000000000000000000000000000000000000000000000000000000000000000000000000000000000000000000000000000000000000000000000000000000000000000000000000000000000000000000000000000000000000000000000000000000000000000000000000000000000000000000000000000000000000000000000000000000000000000000000,\"fields\":[{\"001\":\"id\"},{\"008\":\"240101s1999    xx                  eng d\"},{\"245\":{\"ind1\":\"0\",\"ind2\":\"0\",\"subfields\":[{\"a\":\"Cat\"}]}}],\"leader\":\"00000nam a2200000 a 4500\"}",
        b"00114nam a2200061 a 4500001000300000008004100003245000800044\x1Eid\x1E240101s1999    xx                  eng d\x1E00\x1FaCat\x1E\x1D",
    ),
    // A text: short escapes.
    (
        b"{\"fields\":[{\"001\":\"id\"},{\"008\":\"240101s1999    xx                  eng d\"},{\"245\":{\"ind1\":\"0\",\"ind2\":\"0\",\"subfields\":[{\"a\":\"Cat\"}]}},{\"500\":{\"ind1\":\" \",\"ind2\":\" \",\"subfields\":[{\"a\":\"\\\"\\\\\\/\\b\\f\\n\\r\\t\"}]}}],\"leader\":\"00000nam a2200000 a 4500\"}",
        b"00139nam a2200073 a 4500001000300000008004100003245000800044500001300052\x1Eid\x1E240101s1999    xx                  eng d\x1E00\x1FaCat\x1E  \x1Fa\"\\/\x08\x0C\x0A\x0D\x09\x1E\x1D",
    ),
    // A text: NUL by an escape.
    (
        b"{\"fields\":[{\"001\":\"id\"},{\"008\":\"240101s1999    xx                  eng d\"},{\"245\":{\"ind1\":\"0\",\"ind2\":\"0\",\"subfields\":[{\"a\":\"Cat\"}]}},{\"500\":{\"ind1\":\" \",\"ind2\":\" \",\"subfields\":[{\"a\":\"a\\u0000b\"}]}}],\"leader\":\"00000nam a2200000 a 4500\"}",
        b"00134nam a2200073 a 4500001000300000008004100003245000800044500000800052\x1Eid\x1E240101s1999    xx                  eng d\x1E00\x1FaCat\x1E  \x1Faa\x00b\x1E\x1D",
    ),
    // A text: a pair of surrogates.
    (
        b"{\"fields\":[{\"001\":\"id\"},{\"008\":\"240101s1999    xx                  eng d\"},{\"245\":{\"ind1\":\"0\",\"ind2\":\"0\",\"subfields\":[{\"a\":\"Cat\"}]}},{\"500\":{\"ind1\":\" \",\"ind2\":\" \",\"subfields\":[{\"a\":\"\\ud834\\udd1e\"}]}}],\"leader\":\"00000nam a2200000 a 4500\"}",
        b"00135nam a2200073 a 4500001000300000008004100003245000800044500000900052\x1Eid\x1E240101s1999    xx                  eng d\x1E00\x1FaCat\x1E  \x1Fa\xF0\x9D\x84\x9E\x1E\x1D",
    ),
    // A text: an empty text.
    (
        b"{\"fields\":[{\"001\":\"id\"},{\"008\":\"240101s1999    xx                  eng d\"},{\"245\":{\"ind1\":\"0\",\"ind2\":\"0\",\"subfields\":[{\"a\":\"Cat\"}]}},{\"500\":{\"ind1\":\" \",\"ind2\":\" \",\"subfields\":[{\"a\":\"\"}]}}],\"leader\":\"00000nam a2200000 a 4500\"}",
        b"00131nam a2200073 a 4500001000300000008004100003245000800044500000500052\x1Eid\x1E240101s1999    xx                  eng d\x1E00\x1FaCat\x1E  \x1Fa\x1E\x1D",
    ),
    // Lists in a key beside, 127 deep with the record itself.
    (
        b"{\"x\":[[[[[[[[[[[[[[[[[[[[[[[[[[[[[[[[[[[[[[[[[[[[[[[[[[[[[[[[[[[[[[[[[[[[[[[[[[[[[[[[[[[[[[[[[[[[[[[[[[[[[[[[[[[[[[[[[[[[[[[[[[[[[[1]]]]]]]]]]]]]]]]]]]]]]]]]]]]]]]]]]]]]]]]]]]]]]]]]]]]]]]]]]]]]]]]]]]]]]]]]]]]]]]]]]]]]]]]]]]]]]]]]]]]]]]]]]]]]]]]]]]]]]]]]]]]]],\"fields\":[{\"001\":\"id\"},{\"008\":\"240101s1999    xx                  eng d\"},{\"245\":{\"ind1\":\"0\",\"ind2\":\"0\",\"subfields\":[{\"a\":\"Cat\"}]}}],\"leader\":\"00000nam a2200000 a 4500\"}",
        b"00114nam a2200061 a 4500001000300000008004100003245000800044\x1Eid\x1E240101s1999    xx                  eng d\x1E00\x1FaCat\x1E\x1D",
    ),
    // A leader whose ignored bytes are odd.
    (
        b"{\"fields\":[{\"001\":\"id\"},{\"008\":\"240101s1999    xx                  eng d\"},{\"245\":{\"ind1\":\"0\",\"ind2\":\"0\",\"subfields\":[{\"a\":\"Cat\"}]}}],\"leader\":\"~~~~~nam a!!!!!!! a xxx0\"}",
        b"00114nam a2200061 a 4500001000300000008004100003245000800044\x1Eid\x1E240101s1999    xx                  eng d\x1E00\x1FaCat\x1E\x1D",
    ),
    // A leader with other codes.
    (
        b"{\"fields\":[{\"001\":\"id\"},{\"008\":\"240101s1999    xx                  eng d\"},{\"245\":{\"ind1\":\"0\",\"ind2\":\"0\",\"subfields\":[{\"a\":\"Cat\"}]}}],\"leader\":\"00000cis#b2200000Kia4501\"}",
        b"00114cis#a2200061Kia4501001000300000008004100003245000800044\x1Eid\x1E240101s1999    xx                  eng d\x1E00\x1FaCat\x1E\x1D",
    ),
    // A leader with coding b.
    (
        b"{\"fields\":[{\"001\":\"id\"},{\"008\":\"240101s1999    xx                  eng d\"},{\"245\":{\"ind1\":\"0\",\"ind2\":\"0\",\"subfields\":[{\"a\":\"Cat\"}]}}],\"leader\":\"00000nam b2200000 a 4500\"}",
        b"00114nam a2200061 a 4500001000300000008004100003245000800044\x1Eid\x1E240101s1999    xx                  eng d\x1E00\x1FaCat\x1E\x1D",
    ),
    // Other keys at the top.
    (
        b"{\"a\":1,\"zzz\":{\"fields\":[]},\"\":null,\"fields\":[{\"001\":\"id\"},{\"008\":\"240101s1999    xx                  eng d\"},{\"245\":{\"ind1\":\"0\",\"ind2\":\"0\",\"subfields\":[{\"a\":\"Cat\"}]}}],\"leader\":\"00000nam a2200000 a 4500\",\"note\":[\"x\"]}",
        b"00114nam a2200061 a 4500001000300000008004100003245000800044\x1Eid\x1E240101s1999    xx                  eng d\x1E00\x1FaCat\x1E\x1D",
    ),
    // Leader twice, the last good.
    (
        b"{\"leader\":5,\"fields\":[{\"001\":\"id\"},{\"008\":\"240101s1999    xx                  eng d\"},{\"245\":{\"ind1\":\"0\",\"ind2\":\"0\",\"subfields\":[{\"a\":\"Cat\"}]}}],\"leader\":\"00000nam a2200000 a 4500\"}",
        b"00114nam a2200061 a 4500001000300000008004100003245000800044\x1Eid\x1E240101s1999    xx                  eng d\x1E00\x1FaCat\x1E\x1D",
    ),
    // Leader by an escape.
    (
        b"{\"fields\":[{\"001\":\"id\"}],\"\\u006ceader\":\"00000nam a2200000 a 4500\"}",
        b"00041nam a2200037 a 4500001000300000\x1Eid\x1E\x1D",
    ),
    // No field at all.
    (
        b"{\"fields\":[],\"leader\":\"00000nam a2200000 a 4500\"}",
        b"00026nam a2200025 a 4500\x1E\x1D",
    ),
    // Ind1 a quote.
    (
        b"{\"fields\":[{\"001\":\"id\"},{\"008\":\"240101s1999    xx                  eng d\"},{\"245\":{\"ind1\":\"0\",\"ind2\":\"0\",\"subfields\":[{\"a\":\"Cat\"}]}},{\"500\":{\"ind1\":\"\\\"\",\"ind2\":\"0\",\"subfields\":[{\"a\":\"x\"}]}}],\"leader\":\"00000nam a2200000 a 4500\"}",
        b"00132nam a2200073 a 4500001000300000008004100003245000800044500000600052\x1Eid\x1E240101s1999    xx                  eng d\x1E00\x1FaCat\x1E\"0\x1Fax\x1E\x1D",
    ),
    // A code by an escape.
    (
        b"{\"fields\":[{\"001\":\"id\"},{\"008\":\"240101s1999    xx                  eng d\"},{\"245\":{\"ind1\":\"0\",\"ind2\":\"0\",\"subfields\":[{\"a\":\"Cat\"}]}},{\"500\":{\"ind1\":\" \",\"ind2\":\" \",\"subfields\":[{\"\\u0061\":\"x\"}]}}],\"leader\":\"00000nam a2200000 a 4500\"}",
        b"00132nam a2200073 a 4500001000300000008004100003245000800044500000600052\x1Eid\x1E240101s1999    xx                  eng d\x1E00\x1FaCat\x1E  \x1Fax\x1E\x1D",
    ),
    // One code several times.
    (
        b"{\"fields\":[{\"001\":\"id\"},{\"008\":\"240101s1999    xx                  eng d\"},{\"245\":{\"ind1\":\"0\",\"ind2\":\"0\",\"subfields\":[{\"a\":\"Cat\"}]}},{\"500\":{\"ind1\":\" \",\"ind2\":\" \",\"subfields\":[{\"a\":\"x\"},{\"a\":\"y\"},{\"b\":\"z\"},{\"a\":\"x\"}]}}],\"leader\":\"00000nam a2200000 a 4500\"}",
        b"00141nam a2200073 a 4500001000300000008004100003245000800044500001500052\x1Eid\x1E240101s1999    xx                  eng d\x1E00\x1FaCat\x1E  \x1Fax\x1Fay\x1Fbz\x1Fax\x1E\x1D",
    ),
    // Fields not in order of tags.
    (
        b"{\"fields\":[{\"500\":{\"ind1\":\" \",\"ind2\":\" \",\"subfields\":[{\"a\":\"x\"}]}},{\"245\":{\"ind1\":\"0\",\"ind2\":\"0\",\"subfields\":[{\"a\":\"Cat\"}]}},{\"008\":\"240101s1999    xx                  eng d\"},{\"100\":{\"ind1\":\"1\",\"ind2\":\" \",\"subfields\":[{\"a\":\"Hill, Ann\"}]}},{\"001\":\"id\"}],\"leader\":\"00000nam a2200000 a 4500\"}",
        b"00158nam a2200085 a 4500500000600000245000800006008004100014100001400055001000300069\x1E  \x1Fax\x1E00\x1FaCat\x1E240101s1999    xx                  eng d\x1E1 \x1FaHill, Ann\x1Eid\x1E\x1D",
    ),
    // One tag twice in one object: the last counts.
    (
        b"{\"fields\":[{\"001\":\"id\"},{\"008\":\"240101s1999    xx                  eng d\"},{\"245\":{\"ind1\":\"0\",\"ind2\":\"0\",\"subfields\":[{\"a\":\"Cat\"}]}},{\"006\":\"x\",\"006\":\"y\"}],\"leader\":\"00000nam a2200000 a 4500\"}",
        b"00128nam a2200073 a 4500001000300000008004100003245000800044006000200052\x1Eid\x1E240101s1999    xx                  eng d\x1E00\x1FaCat\x1Ey\x1E\x1D",
    ),
    // One code twice in one object: the last counts.
    (
        b"{\"fields\":[{\"001\":\"id\"},{\"008\":\"240101s1999    xx                  eng d\"},{\"245\":{\"ind1\":\"0\",\"ind2\":\"0\",\"subfields\":[{\"a\":\"Cat\"}]}},{\"500\":{\"ind1\":\" \",\"ind2\":\" \",\"subfields\":[{\"a\":\"x\",\"a\":\"y\"}]}}],\"leader\":\"00000nam a2200000 a 4500\"}",
        b"00132nam a2200073 a 4500001000300000008004100003245000800044500000600052\x1Eid\x1E240101s1999    xx                  eng d\x1E00\x1FaCat\x1E  \x1Fay\x1E\x1D",
    ),
];

static WRITTEN: [Stated; 18] = [
    // One record.
    (
        b"00114nam a2200061 a 4500001000300000008004100003245000800044\x1Eid\x1E240101s1999    xx                  eng d\x1E00\x1FaCat\x1E\x1D",
        b"{\"fields\":[{\"001\":\"id\"},{\"008\":\"240101s1999    xx                  eng d\"},{\"245\":{\"ind1\":\"0\",\"ind2\":\"0\",\"subfields\":[{\"a\":\"Cat\"}]}}],\"leader\":\"00000nam a2200000 a 4500\"}\x0A",
    ),
    // A withdrawal.
    (
        b"00041dam a2200037 a 4500001000300000\x1Eid\x1E\x1D",
        b"{\"fields\":[{\"001\":\"id\"}],\"leader\":\"00000dam a2200000 a 4500\"}\x0A",
    ),
    // A withdrawal with fields.
    (
        b"00082dam a2200061 a 4500001000300000245000800003500000900011\x1Eid\x1E00\x1FaCat\x1E  \x1Fax\x1Fay\x1E\x1D",
        b"{\"fields\":[{\"001\":\"id\"},{\"245\":{\"ind1\":\"0\",\"ind2\":\"0\",\"subfields\":[{\"a\":\"Cat\"}]}},{\"500\":{\"ind1\":\" \",\"ind2\":\" \",\"subfields\":[{\"a\":\"x\"},{\"a\":\"y\"}]}}],\"leader\":\"00000dam a2200000 a 4500\"}\x0A",
    ),
    // Every control character but 0x1D to 0x1F.
    (
        b"00140nam a2200061 a 4500001000300000008004100003245003400044\x1Eid\x1E240101s1999    xx                  eng d\x1E00\x1Fa\x00\x01\x02\x03\x04\x05\x06\x07\x08\x09\x0A\x0B\x0C\x0D\x0E\x0F\x10\x11\x12\x13\x14\x15\x16\x17\x18\x19\x1A\x1B\x1C\x1E\x1D",
        b"{\"fields\":[{\"001\":\"id\"},{\"008\":\"240101s1999    xx                  eng d\"},{\"245\":{\"ind1\":\"0\",\"ind2\":\"0\",\"subfields\":[{\"a\":\"\\u0000\\u0001\\u0002\\u0003\\u0004\\u0005\\u0006\\u0007\\b\\t\\n\\u000b\\f\\r\\u000e\\u000f\\u0010\\u0011\\u0012\\u0013\\u0014\\u0015\\u0016\\u0017\\u0018\\u0019\\u001a\\u001b\\u001c\"}]}}],\"leader\":\"00000nam a2200000 a 4500\"}\x0A",
    ),
    // 0x7F, quotes, backslash, slash.
    (
        b"00122nam a2200061 a 4500001000300000008004100003245001600044\x1Eid\x1E240101s1999    xx                  eng d\x1E00\x1Faa\x7Fb\"c\\d/e'f\x1E\x1D",
        b"{\"fields\":[{\"001\":\"id\"},{\"008\":\"240101s1999    xx                  eng d\"},{\"245\":{\"ind1\":\"0\",\"ind2\":\"0\",\"subfields\":[{\"a\":\"a\x7Fb\\\"c\\\\d/e'f\"}]}}],\"leader\":\"00000nam a2200000 a 4500\"}\x0A",
    ),
    // Characters of two, three and four bytes.
    (
        b"00133nam a2200061 a 4500001000300000008004100003245002700044\x1Eid\x1E240101s1999    xx                  eng d\x1E00\x1Fa\xC3\xA9\xE6\x9D\xB1\xF0\x9D\x84\x9E\xF4\x8F\xBF\xBF\xE2\x80\xA8\xEF\xBB\xBF\xEF\xBF\xBF\x1E\x1D",
        b"{\"fields\":[{\"001\":\"id\"},{\"008\":\"240101s1999    xx                  eng d\"},{\"245\":{\"ind1\":\"0\",\"ind2\":\"0\",\"subfields\":[{\"a\":\"\xC3\xA9\xE6\x9D\xB1\xF0\x9D\x84\x9E\xF4\x8F\xBF\xBF\xE2\x80\xA8\xEF\xBB\xBF\xEF\xBF\xBF\"}]}}],\"leader\":\"00000nam a2200000 a 4500\"}\x0A",
    ),
    // Coding blank.
    (
        b"00114nam  2200061 a 4500001000300000008004100003245000800044\x1Eid\x1E240101s1999    xx                  eng d\x1E00\x1FaCat\x1E\x1D",
        b"{\"fields\":[{\"001\":\"id\"},{\"008\":\"240101s1999    xx                  eng d\"},{\"245\":{\"ind1\":\"0\",\"ind2\":\"0\",\"subfields\":[{\"a\":\"Cat\"}]}}],\"leader\":\"00000nam  2200000 a 4500\"}\x0A",
    ),
    // Coding blank, control characters.
    (
        b"00122nam  2200061 a 4500001000300000008004100003245001600044\x1Eid\x1E240101s1999    xx                  eng d\x1E00\x1Fa\x00\x01\x08\x09\x0A\x0B\x0C\x0D\x1A\x1C\x7F\x1E\x1D",
        b"{\"fields\":[{\"001\":\"id\"},{\"008\":\"240101s1999    xx                  eng d\"},{\"245\":{\"ind1\":\"0\",\"ind2\":\"0\",\"subfields\":[{\"a\":\"\\u0000\\u0001\\b\\t\\n\\u000b\\f\\r\\u001a\\u001c\x7F\"}]}}],\"leader\":\"00000nam  2200000 a 4500\"}\x0A",
    ),
    // Odd codes.
    (
        b"00121nam a2200061 a 4500001000300000008004100003245001500044\x1Eid\x1E240101s1999    xx                  eng d\x1E\"\\\x1F!q\x1F~t\x1F\"x\x1F\\y\x1E\x1D",
        b"{\"fields\":[{\"001\":\"id\"},{\"008\":\"240101s1999    xx                  eng d\"},{\"245\":{\"ind1\":\"\\\"\",\"ind2\":\"\\\\\",\"subfields\":[{\"!\":\"q\"},{\"~\":\"t\"},{\"\\\"\":\"x\"},{\"\\\\\":\"y\"}]}}],\"leader\":\"00000nam a2200000 a 4500\"}\x0A",
    ),
    // Odd leader codes.
    (
        b"00114c\"\\~a2200061/ '450x001000300000008004100003245000800044\x1Eid\x1E240101s1999    xx                  eng d\x1E00\x1FaCat\x1E\x1D",
        b"{\"fields\":[{\"001\":\"id\"},{\"008\":\"240101s1999    xx                  eng d\"},{\"245\":{\"ind1\":\"0\",\"ind2\":\"0\",\"subfields\":[{\"a\":\"Cat\"}]}}],\"leader\":\"00000c\\\"\\\\~a2200000/ '450x\"}\x0A",
    ),
    // Every status.
    (
        b"00114pam a2200061 a 4500001000300000008004100003245000800044\x1Eid\x1E240101s1999    xx                  eng d\x1E00\x1FaCat\x1E\x1D",
        b"{\"fields\":[{\"001\":\"id\"},{\"008\":\"240101s1999    xx                  eng d\"},{\"245\":{\"ind1\":\"0\",\"ind2\":\"0\",\"subfields\":[{\"a\":\"Cat\"}]}}],\"leader\":\"00000pam a2200000 a 4500\"}\x0A",
    ),
    // Directory not in order of tags, data in another order.
    (
        b"00132nam a2200073 a 4500500000600041245000800050008004100000001000300047\x1E240101s1999    xx                  eng d\x1E  \x1Fax\x1Eid\x1E00\x1FaCat\x1E\x1D",
        b"{\"fields\":[{\"500\":{\"ind1\":\" \",\"ind2\":\" \",\"subfields\":[{\"a\":\"x\"}]}},{\"245\":{\"ind1\":\"0\",\"ind2\":\"0\",\"subfields\":[{\"a\":\"Cat\"}]}},{\"008\":\"240101s1999    xx                  eng d\"},{\"001\":\"id\"}],\"leader\":\"00000nam a2200000 a 4500\"}\x0A",
    ),
    // Fields twice, codes twice, empty texts.
    (
        b"00236nam a2200145 a 450000100030000000800410000324500080004450000130005250000060006550000060007100600010007700A000200078abc000500080ZZ9000500085\x1Eid\x1E240101s1999    xx                  eng d\x1E00\x1FaCat\x1E  \x1Fax\x1Fax\x1Fa\x1Fb\x1E  \x1Fax\x1E  \x1Fax\x1E\x1Ex\x1E  \x1Fa\x1E~!\x1Fa\x1E\x1D",
        b"{\"fields\":[{\"001\":\"id\"},{\"008\":\"240101s1999    xx                  eng d\"},{\"245\":{\"ind1\":\"0\",\"ind2\":\"0\",\"subfields\":[{\"a\":\"Cat\"}]}},{\"500\":{\"ind1\":\" \",\"ind2\":\" \",\"subfields\":[{\"a\":\"x\"},{\"a\":\"x\"},{\"a\":\"\"},{\"b\":\"\"}]}},{\"500\":{\"ind1\":\" \",\"ind2\":\" \",\"subfields\":[{\"a\":\"x\"}]}},{\"500\":{\"ind1\":\" \",\"ind2\":\" \",\"subfields\":[{\"a\":\"x\"}]}},{\"006\":\"\"},{\"00A\":\"x\"},{\"abc\":{\"ind1\":\" \",\"ind2\":\" \",\"subfields\":[{\"a\":\"\"}]}},{\"ZZ9\":{\"ind1\":\"~\",\"ind2\":\"!\",\"subfields\":[{\"a\":\"\"}]}}],\"leader\":\"00000nam a2200000 a 4500\"}\x0A",
    ),
    // Blanks around the control number.
    (
        b"00117nam a2200061 a 4500001000600000008004100006245000800047\x1E  id \x1E240101s1999    xx                  eng d\x1E00\x1FaCat\x1E\x1D",
        b"{\"fields\":[{\"001\":\"  id \"},{\"008\":\"240101s1999    xx                  eng d\"},{\"245\":{\"ind1\":\"0\",\"ind2\":\"0\",\"subfields\":[{\"a\":\"Cat\"}]}}],\"leader\":\"00000nam a2200000 a 4500\"}\x0A",
    ),
    // LF and CR in texts.
    (
        b"00125nam a2200061 a 4500001000300000008004100003245001900044\x1Eid\x1E240101s1999    xx                  eng d\x1E00\x1Faone\x0Atwo\x0D\x0Athree\x1E\x1D",
        b"{\"fields\":[{\"001\":\"id\"},{\"008\":\"240101s1999    xx                  eng d\"},{\"245\":{\"ind1\":\"0\",\"ind2\":\"0\",\"subfields\":[{\"a\":\"one\\ntwo\\r\\nthree\"}]}}],\"leader\":\"00000nam a2200000 a 4500\"}\x0A",
    ),
    // Nothing but the least.
    (
        b"00040dam a2200037 a 4500001000200000\x1Ex\x1E\x1D",
        b"{\"fields\":[{\"001\":\"x\"}],\"leader\":\"00000dam a2200000 a 4500\"}\x0A",
    ),
    // Texts that look like escapes.
    (
        b"00121nam a2200061 a 4500001000300000008004100003245001500044\x1Eid\x1E240101s1999    xx                  eng d\x1E00\x1Fa\\u0041\\n\\\"\x1E\x1D",
        b"{\"fields\":[{\"001\":\"id\"},{\"008\":\"240101s1999    xx                  eng d\"},{\"245\":{\"ind1\":\"0\",\"ind2\":\"0\",\"subfields\":[{\"a\":\"\\\\u0041\\\\n\\\\\\\"\"}]}}],\"leader\":\"00000nam a2200000 a 4500\"}\x0A",
    ),
    // A library's own record.
    (
        b"00402cam a2200157 a 4500001001300000003000400013005001700017008004100034010002200075020002200097035002400119040001300143100003600156245002700192852002500219\x1E   75425165 \x1EDLC\x1E19990521130000.0\x1E240101s1975    xx                  eng d\x1E  \x1Fa   75-425165//r75\x1E  \x1Fa0306406152 (pbk.)\x1E  \x1Fa(OCoLC)ocm00012345 \x1E  \x1FaDLC\x1FcDLC\x1E1 \x1FaDvo\xC5\x99\xC3\xA1k, Anton\xC3\xADn,\x1Fd1841-1904.\x1E14\x1FaThe letters /\x1Fcedited.\x1E  \x1FaDLC\x1FbMain\x1FhML410.D99\x1E\x1D",
        b"{\"fields\":[{\"001\":\"   75425165 \"},{\"003\":\"DLC\"},{\"005\":\"19990521130000.0\"},{\"008\":\"240101s1975    xx                  eng d\"},{\"010\":{\"ind1\":\" \",\"ind2\":\" \",\"subfields\":[{\"a\":\"   75-425165//r75\"}]}},{\"020\":{\"ind1\":\" \",\"ind2\":\" \",\"subfields\":[{\"a\":\"0306406152 (pbk.)\"}]}},{\"035\":{\"ind1\":\" \",\"ind2\":\" \",\"subfields\":[{\"a\":\"(OCoLC)ocm00012345 \"}]}},{\"040\":{\"ind1\":\" \",\"ind2\":\" \",\"subfields\":[{\"a\":\"DLC\"},{\"c\":\"DLC\"}]}},{\"100\":{\"ind1\":\"1\",\"ind2\":\" \",\"subfields\":[{\"a\":\"Dvo\xC5\x99\xC3\xA1k, Anton\xC3\xADn,\"},{\"d\":\"1841-1904.\"}]}},{\"245\":{\"ind1\":\"1\",\"ind2\":\"4\",\"subfields\":[{\"a\":\"The letters /\"},{\"c\":\"edited.\"}]}},{\"852\":{\"ind1\":\" \",\"ind2\":\" \",\"subfields\":[{\"a\":\"DLC\"},{\"b\":\"Main\"},{\"h\":\"ML410.D99\"}]}}],\"leader\":\"00000cam a2200000 a 4500\"}\x0A",
    ),
];
