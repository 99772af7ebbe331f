//! Records that several modules load, and what is exported of them.

/// A record with the control number `id`, the date 1999 and the title `Cat`, and the same under `ie`.
pub const ONE: &[u8; 114] =
    b"00114nam a2200061 a 4500001000300000008004100003245000800044\x1Eid\x1E240101s1999    xx                  eng d\x1E00\x1FaCat\x1E\x1D";

/// The first of them as a line of JSON.
pub const LINE: &[u8] =
    b"{\"fields\":[{\"001\":\"id\"},{\"008\":\"240101s1999    xx                  eng d\"},{\"245\":{\"ind1\":\"0\",\"ind2\":\"0\",\"subfields\":[{\"a\":\"Cat\"}]}}],\"leader\":\"00000nam a2200000 a 4500\"}\n";

pub const OTHER: &[u8; 114] =
    b"00114nam a2200061 a 4500001000300000008004100003245000800044\x1Eie\x1E240101s1999    xx                  eng d\x1E00\x1FaCat\x1E\x1D";

/// Their exports as LIBA's.
pub const EXPORT: &[u8; 192] =
    b"00192nam a2200097 a 4500001000800000003000600008008004100014245000800055991001800063993001300081\x1ELIBA.id\x1EUNION\x1E240101s1999    xx                  eng d\x1E00\x1FaCat\x1E  \x1Facat///LIBA.id\x1E  \x1FaLIBA\x1Fbid\x1E\x1D";

pub const OTHER_EXPORT: &[u8; 192] =
    b"00192nam a2200097 a 4500001000800000003000600008008004100014245000800055991001800063993001300081\x1ELIBA.ie\x1EUNION\x1E240101s1999    xx                  eng d\x1E00\x1FaCat\x1E  \x1Facat///LIBA.ie\x1E  \x1FaLIBA\x1Fbie\x1E\x1D";

/// Three records of which the third matches neither of the others, but matches what they make together.
pub const BRIDGE: [&[u8]; 3] = [
    b"00173nam a2200085 a 4500001000300000008004100003020001500044100001400059245001400073\x1Ea1\x1E240101s1990    xx                  eng d\x1E  \x1Fa0306406152\x1E1 \x1FaHill, Ann\x1E00\x1FaRed ships\x1E\x1D",
    b"00181nam a2200085 a 4500001000300000008004100003020002200044100001400066245001500080\x1Eb1\x1E240101s1991    xx                  eng d\x1E  \x1Fa978-0-306-40615-7\x1E1 \x1FaHill, Ann\x1E00\x1FaBlue ships\x1E\x1D",
    b"00146nam a2200073 a 4500001000300000008004100003100001400044245001400058\x1Ec1\x1E240101s1991    xx                  eng d\x1E1 \x1FaHill, Ann\x1E00\x1FaRed ships\x1E\x1D",
];

/// A withdrawal of the second.
pub const WITHDRAWAL: &[u8; 41] = b"00041dam a2200037 a 4500001000300000\x1Eb1\x1E\x1D";
