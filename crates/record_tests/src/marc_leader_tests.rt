//! Leaders and entries from outside: what each reads as, or the first rule that it breaks. The expected values were made by
//! an independent program.
use marc_leader::codes::LeaderCodes;
use marc_leader::entry::{Entry, EntryRule, read_entry, write_entry};
use marc_leader::leader::{Leader, LeaderRule, write_leader};
use marc_leader::numeral::digits;

/// A leader's bytes, its length, its base address and its nine codes.
static LEADERS: [(&[u8; 24], u32, u32, &[u8; 9]); 7] = [
    (b"00114nam a2200061 a 4500", 114, 61, b"nam a a 0"),
    (b"00000nam a2200000 a 4500", 0, 0, b"nam a a 0"),
    (b"99999nam a2299999 a 4500", 99999, 99999, b"nam a a 0"),
    (b"00026     2200025   450 ", 26, 25, b"         "),
    (b"00026~~~~~2200025~~~450~", 26, 25, b"~~~~~~~~~"),
    (b"01234cis#b2200097Kia4501", 1234, 97, b"cis#bKia1"),
    (b"012340000022000970004500", 1234, 97, b"000000000"),
];

/// Leaders whose length is no number.
static LENGTH_DIGITS: [&[u8; 24]; 18] = [
    b" 0114nam a2200061 a 4500",
    b"x0114nam a2200061 a 4500",
    b"-0114nam a2200061 a 4500",
    b"\x000114nam a2200061 a 4500",
    b"\xb20114nam a2200061 a 4500",
    b"/0114nam a2200061 a 4500",
    b":0114nam a2200061 a 4500",
    b"0011 nam a2200061 a 4500",
    b"0011xnam a2200061 a 4500",
    b"0011-nam a2200061 a 4500",
    b"0011\x00nam a2200061 a 4500",
    b"0011\xb2nam a2200061 a 4500",
    b"0011/nam a2200061 a 4500",
    b"0011:nam a2200061 a 4500",
    b" 0114nam a22 0061 a 4500",
    b"0011 \x1fam a2200061 a 4500",
    b"\xff\xff\xff\xff\xff\xff\xff\xff\xff\xff\xff\xff\xff\xff\xff\xff\xff\xff\xff\xff\xff\xff\xff\xff",
    b"                        ",
];

/// Leaders whose base address is no number.
static BASE_DIGITS: [&[u8; 24]; 15] = [
    b"00114nam a22 0061 a 4500",
    b"00114nam a22a0061 a 4500",
    b"00114nam a22+0061 a 4500",
    b"00114nam a22\x1f0061 a 4500",
    b"00114nam a22\xff0061 a 4500",
    b"00114nam a22/0061 a 4500",
    b"00114nam a22:0061 a 4500",
    b"00114nam a220006  a 4500",
    b"00114nam a220006a a 4500",
    b"00114nam a220006+ a 4500",
    b"00114nam a220006\x1f a 4500",
    b"00114nam a220006\xff a 4500",
    b"00114nam a220006/ a 4500",
    b"00114nam a220006: a 4500",
    b"00114\x1fam a22 0061 a 4500",
];

/// Leaders with a byte that may not stand where it stands, and the offset of the first.
static COUNTS: [(&[u8; 24], u32); 62] = [
    (b"00114\x1fam a2200061 a 4500", 5),
    (b"00114\x7fam a2200061 a 4500", 5),
    (b"00114\x80am a2200061 a 4500", 5),
    (b"00114\xffam a2200061 a 4500", 5),
    (b"00114\x0aam a2200061 a 4500", 5),
    (b"00114n\x1fm a2200061 a 4500", 6),
    (b"00114n\x7fm a2200061 a 4500", 6),
    (b"00114n\x80m a2200061 a 4500", 6),
    (b"00114n\xffm a2200061 a 4500", 6),
    (b"00114n\x0am a2200061 a 4500", 6),
    (b"00114na\x1f a2200061 a 4500", 7),
    (b"00114na\x7f a2200061 a 4500", 7),
    (b"00114na\x80 a2200061 a 4500", 7),
    (b"00114na\xff a2200061 a 4500", 7),
    (b"00114na\x0a a2200061 a 4500", 7),
    (b"00114nam\x1fa2200061 a 4500", 8),
    (b"00114nam\x7fa2200061 a 4500", 8),
    (b"00114nam\x80a2200061 a 4500", 8),
    (b"00114nam\xffa2200061 a 4500", 8),
    (b"00114nam\x0aa2200061 a 4500", 8),
    (b"00114nam \x1f2200061 a 4500", 9),
    (b"00114nam \x7f2200061 a 4500", 9),
    (b"00114nam \x802200061 a 4500", 9),
    (b"00114nam \xff2200061 a 4500", 9),
    (b"00114nam \x0a2200061 a 4500", 9),
    (b"00114nam a2200061\x1fa 4500", 17),
    (b"00114nam a2200061\x7fa 4500", 17),
    (b"00114nam a2200061\x80a 4500", 17),
    (b"00114nam a2200061\xffa 4500", 17),
    (b"00114nam a2200061\x0aa 4500", 17),
    (b"00114nam a2200061 \x1f 4500", 18),
    (b"00114nam a2200061 \x7f 4500", 18),
    (b"00114nam a2200061 \x80 4500", 18),
    (b"00114nam a2200061 \xff 4500", 18),
    (b"00114nam a2200061 \x0a 4500", 18),
    (b"00114nam a2200061 a\x1f4500", 19),
    (b"00114nam a2200061 a\x7f4500", 19),
    (b"00114nam a2200061 a\x804500", 19),
    (b"00114nam a2200061 a\xff4500", 19),
    (b"00114nam a2200061 a\x0a4500", 19),
    (b"00114nam a2200061 a 450\x1f", 23),
    (b"00114nam a2200061 a 450\x7f", 23),
    (b"00114nam a2200061 a 450\x80", 23),
    (b"00114nam a2200061 a 450\xff", 23),
    (b"00114nam a2200061 a 450\x0a", 23),
    (b"00114nam a1200061 a 4500", 10),
    (b"00114nam a 200061 a 4500", 10),
    (b"00114nam a3200061 a 4500", 10),
    (b"00114nam a\x7f200061 a 4500", 10),
    (b"00114nam a2000061 a 4500", 11),
    (b"00114nam a2 00061 a 4500", 11),
    (b"00114nam a2200061 a 5500", 20),
    (b"00114nam a2200061 a  500", 20),
    (b"00114nam a2200061 a \x00500", 20),
    (b"00114nam a2200061 a 4000", 21),
    (b"00114nam a2200061 a 4 00", 21),
    (b"00114nam a2200061 a 4510", 22),
    (b"00114nam a2200061 a 45 0", 22),
    (b"00114na\x00 a2200061 \x7f 4500", 7),
    (b"00114nam a0000061 a 4500", 10),
    (b"00114nam a2200061 a 451\x1f", 22),
    (b"000000000000000000000000", 10),
];

/// An entry's bytes, its tag, its length and its start.
static ENTRIES: [(&[u8; 12], [u8; 3], u32, u32); 6] = [
    (b"245000800044", *b"245", 8, 44),
    (b"000000000000", *b"000", 0, 0),
    (b"999999999999", *b"999", 9999, 99999),
    (b"9AB000300000", *b"9AB", 3, 0),
    (b"zzz000300000", *b"zzz", 3, 0),
    (b"0aZ000312345", *b"0aZ", 3, 12345),
];

/// Entries whose length or start is no number.
static DIGITS: [&[u8; 12]; 32] = [
    b"245 00800044",
    b"245a00800044",
    b"245-00800044",
    b"245/00800044",
    b"245:00800044",
    b"245\x1e00800044",
    b"245\xb900800044",
    b"245000 00044",
    b"245000a00044",
    b"245000-00044",
    b"245000/00044",
    b"245000:00044",
    b"245000\x1e00044",
    b"245000\xb900044",
    b"2450008 0044",
    b"2450008a0044",
    b"2450008-0044",
    b"2450008/0044",
    b"2450008:0044",
    b"2450008\x1e0044",
    b"2450008\xb90044",
    b"24500080004 ",
    b"24500080004a",
    b"24500080004-",
    b"24500080004/",
    b"24500080004:",
    b"24500080004\x1e",
    b"24500080004\xb9",
    b"2!500a800044",
    b"   00080004x",
    b"            ",
    b"\x1e\x1e\x1e\x1e\x1e\x1e\x1e\x1e\x1e\x1e\x1e\x1e",
];

/// Entries whose tag is none.
static TAGS: [&[u8; 12]; 36] = [
    b" 45000800044",
    b"!45000800044",
    b"-45000800044",
    b"/45000800044",
    b":45000800044",
    b"@45000800044",
    b"[45000800044",
    b"`45000800044",
    b"{45000800044",
    b"\x8045000800044",
    b"\xff45000800044",
    b"\x0045000800044",
    b"2 5000800044",
    b"2!5000800044",
    b"2-5000800044",
    b"2/5000800044",
    b"2:5000800044",
    b"2@5000800044",
    b"2[5000800044",
    b"2`5000800044",
    b"2{5000800044",
    b"2\x805000800044",
    b"2\xff5000800044",
    b"2\x005000800044",
    b"24 000800044",
    b"24!000800044",
    b"24-000800044",
    b"24/000800044",
    b"24:000800044",
    b"24@000800044",
    b"24[000800044",
    b"24`000800044",
    b"24{000800044",
    b"24\x80000800044",
    b"24\xff000800044",
    b"24\x00000800044",
];

#[test]
fn leaders_are_read_and_written(rt: HostRuntime) {
    for (text, length, base, codes) in &LEADERS {
        let leader = Leader::read(*text).expect(&rt, "a leader");
        assert_eq!(rt; leader.length, *length);
        assert_eq!(rt; leader.base, *base);
        assert_eq!(rt; codes_of(&leader.codes), **codes);
        let mut written = [0; 24];
        write_leader(&leader, &mut written);
        assert_eq!(rt; written, **text);
    }
}

/// The nine codes in the order of their places.
fn codes_of(codes: &LeaderCodes) -> [u8; 9] {
    [
        codes.status,
        codes.kind,
        codes.level,
        codes.control,
        codes.coding,
        codes.encoding,
        codes.form,
        codes.part,
        codes.last,
    ]
}

#[test]
fn broken_leaders_are_refused(rt: HostRuntime) {
    for text in &LENGTH_DIGITS {
        assert_eq!(rt; Leader::read(*text).err(), Some(LeaderRule::LengthDigits));
    }
    for text in &BASE_DIGITS {
        assert_eq!(rt; Leader::read(*text).err(), Some(LeaderRule::BaseDigits));
    }
    for (text, at) in &COUNTS {
        assert_eq!(rt;
            Leader::read(*text).err(),
            Some(LeaderRule::Counts { at: *at })
        );
    }
}

#[test]
fn entries_are_read_and_written(rt: HostRuntime) {
    for (text, tag, length, start) in &ENTRIES {
        let entry = read_entry(*text).expect(&rt, "an entry");
        assert_eq!(rt; entry.tag, *tag);
        assert_eq!(rt; entry.length, *length);
        assert_eq!(rt; entry.start, *start);
        let mut written = [0; 12];
        write_entry(&entry, &mut written);
        assert_eq!(rt; written, **text);
    }
}

#[test]
fn broken_entries_are_refused(rt: HostRuntime) {
    for text in &DIGITS {
        assert_eq!(rt; read_entry(*text).err(), Some(EntryRule::Digits));
    }
    for text in &TAGS {
        assert_eq!(rt; read_entry(*text).err(), Some(EntryRule::Tag));
    }
}

#[test]
fn numbers_are_read(rt: HostRuntime) {
    assert_eq!(rt; digits(b"00042"), Some(42));
    assert_eq!(rt; digits(b"7"), Some(7));
    assert_eq!(rt; digits(b"4 2"), None);
}
