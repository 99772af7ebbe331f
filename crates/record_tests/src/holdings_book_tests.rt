//! The holdings of records whose expected texts another program made.
use crate::frames::record_of;
use holdings_book::holdings::holdings_of;
use marc_parts::marc_record::Record;
use std::alloc::Global;
use std::test::Fail;
use union_base::bytes::Bytes;
use union_base::library_code::LibraryCode;
use union_base::record_id::RecordId;

/// Frames, and a line for each holding of their records: location, sublocation and classification.
static CASES: [(&[u8], &[u8]); 5] = [
    // a record of the Library of Congress
    (
        b"00157nam a2200073 a 4500001000900000008004100009245000800050852002500058\x1E75425165\x1E240101s1975    xx                  eng d\x1E00\x1FaCat\x1E  \x1FaDLC\x1FbMain\x1FhML410.D99\x1E\x1D",
        b"DLC;Main;ML410.D99\n",
    ),
    // equal fields are told as often as they stand
    (
        b"00242nam a2200109 a 4500001000300000008004100003020001500044245000600059852002200065852002300087852002200110\x1Eg1\x1E240101s1990    xx                  eng d\x1E  \x1Fa0306406152\x1E00\x1Faa\x1E  \x1FaLIBA\x1FbMain\x1FhML410\x1E  \x1FaLIBA\x1FbAnnex\x1FhML410\x1E  \x1FaLIBA\x1FbMain\x1FhML410\x1E\x1D",
        b"LIBA;Main;ML410\nLIBA;Annex;ML410\nLIBA;Main;ML410\n",
    ),
    // the first of several subfields with one code, in any order, and none at all
    (
        b"00258nam a2200121 a 4500001000300000008004100003020001500044245000600059852001800065852002700083852001900110852000700129\x1Eh1\x1E240101s1991    xx                  eng d\x1E  \x1Fa0306406152\x1E00\x1Fab\x1E  \x1FaA|B\x1Fbx\x01y\x1Fh\x7F|z\x1E  \x1FhQ\x1FaX\x1Fbfirst\x1Fbsecond\x1FhR\x1E8 \x1FhQ\x1FaX\x1Fbfirst\x1FiS\x1E  \x1Fc\x1Fd\x1E\x1D",
        b"A|B;x\x01y;\x7F|z\nX;first;Q\nX;first;Q\n;;\n",
    ),
    // a record without holdings
    (
        b"00112nam a2200061 a 4500001000300000008004100003245000600044\x1Eh2\x1E240101s1999    xx                  eng d\x1E00\x1Fac\x1E\x1D",
        b"",
    ),
    // a field 853 tells none
    (
        b"00158nam a2200085 a 4500001000300000008004100003245000600044852001600050853000600066\x1Eh3\x1E240101s1990    xx                  eng d\x1E00\x1Fad\x1E  \x1Fa\xC3\xA9\xE6\x9D\xB1\x1Fb\x1Fh\xC3\x9F\x1E  \x1Fax\x1E\x1D",
        b"\xC3\xA9\xE6\x9D\xB1;;\xC3\x9F\n",
    ),
];

#[test]
fn holdings_are_told_field_by_field(rt: HostRuntime) -> Result<(), Fail> {
    for (frame, lines) in &CASES {
        let rec = record_of(rt.alloc(), frame)?;
        assert_eq!(rt; lines_of(rt.alloc(), &rec)?.as_slice(), *lines);
    }
    Ok(())
}

/// A line for each holding of the record.
fn lines_of(alloc: Global, rec: &Record) -> Result<Vec<u8>, Fail> {
    let id = RecordId {
        library: LibraryCode::read(b"LIBA").ok_or("a code")?,
        control: Bytes::of(alloc, b"g1")?,
    };
    let mut lines = Vec::new(alloc);
    for holding in holdings_of(alloc, &id, rec.fields.as_slice())? {
        if holding.id != id {
            Err("another id")?;
        }
        lines.extend_from_slice(holding.location.bytes())?;
        lines.push(b';')?;
        lines.extend_from_slice(holding.sublocation.bytes())?;
        lines.push(b';')?;
        lines.extend_from_slice(holding.classification.bytes())?;
        lines.push(b'\n')?;
    }
    Ok(lines)
}
