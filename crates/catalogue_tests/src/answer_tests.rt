//! Catalogues of a few records and their answers, whose expected texts another program made.
ghost use Rattle.std.specs.Prelude.{◌≡◌, ◌<◌};

use crate::worked::{BLUE, BRIDGE, RED, batch_of_one};
use catalogue_core::catalogue::Catalogue;
use catalogue_query::answering::answer;
use catalogue_query::query::Query;
use key_hashing::hashing::Hashing;
use merge_laws::steps::Steps;
use std::alloc::Global;
use std::marker::Brand;
use std::sync::ledger::{Blank, Ledger};
use std::test::Fail;

/// A record of the Library of Congress.
const OWN: &[u8] =
    b"00402cam a2200157 a 4500001001300000003000400013005001700017008004100034010002200075020002200097035002400119040001300143100003600156245002700192852002500219\x1E   75425165 \x1EDLC\x1E19990521130000.0\x1E240101s1975    xx                  eng d\x1E  \x1Fa   75-425165//r75\x1E  \x1Fa0306406152 (pbk.)\x1E  \x1Fa(OCoLC)ocm00012345 \x1E  \x1FaDLC\x1FcDLC\x1E1 \x1FaDvo\xC5\x99\xC3\xA1k, Anton\xC3\xADn,\x1Fd1841-1904.\x1E14\x1FaThe letters /\x1Fcedited.\x1E  \x1FaDLC\x1FbMain\x1FhML410.D99\x1E\x1D";

/// A record with blanks around its number, which stands beside the red record, the blue one and the one between them.
const CAT: &[u8] =
    b"00117nam a2200061 a 4500001000600000008004100006245000800047\x1E c 1 \x1E240101s1999    xx                  eng d\x1E00\x1FaCat\x1E\x1D";

/// Two records of one edition with holdings, one without, and one with holdings alone.
const ANNEX: &[u8] =
    b"00242nam a2200109 a 4500001000300000008004100003020001500044245000600059852002200065852002300087852002200110\x1Eg1\x1E240101s1990    xx                  eng d\x1E  \x1Fa0306406152\x1E00\x1Faa\x1E  \x1FaLIBA\x1FbMain\x1FhML410\x1E  \x1FaLIBA\x1FbAnnex\x1FhML410\x1E  \x1FaLIBA\x1FbMain\x1FhML410\x1E\x1D";

const ODD: &[u8] =
    b"00258nam a2200121 a 4500001000300000008004100003020001500044245000600059852001800065852002700083852001900110852000700129\x1Eh1\x1E240101s1991    xx                  eng d\x1E  \x1Fa0306406152\x1E00\x1Fab\x1E  \x1FaA|B\x1Fbx\x01y\x1Fh\x7F|z\x1E  \x1FhQ\x1FaX\x1Fbfirst\x1Fbsecond\x1FhR\x1E8 \x1FhQ\x1FaX\x1Fbfirst\x1FiS\x1E  \x1Fc\x1Fd\x1E\x1D";

const EMPTY: &[u8] =
    b"00112nam a2200061 a 4500001000300000008004100003245000600044\x1Eh2\x1E240101s1999    xx                  eng d\x1E00\x1Fac\x1E\x1D";

const EAST: &[u8] =
    b"00158nam a2200085 a 4500001000300000008004100003245000600044852001600050853000600066\x1Eh3\x1E240101s1990    xx                  eng d\x1E00\x1Fad\x1E  \x1Fa\xC3\xA9\xE6\x9D\xB1\x1Fb\x1Fh\xC3\x9F\x1E  \x1Fax\x1E\x1D";

/// Two serials of one ISSN, and two of one title, date and name without numbers; and the latter as books.
const HEARING: &[u8] =
    b"00144nas a2200073 a 4500001000300000008004100003022001400044245001200058\x1Es1\x1E240101s1990    xx                  eng d\x1E0 \x1Fa0378-5955\x1E00\x1FaHearing\x1E\x1D";

const RESEARCH: &[u8] =
    b"00153nas a2200073 a 4500001000300000008004100003022001400044245002100058\x1Es2\x1E240101s1990    xx                  eng d\x1E0 \x1Fa0378-5955\x1E00\x1FaHearing research\x1E\x1D";

const SERIAL: &[u8] =
    b"00142nas a2200073 a 4500001000300000008004100003100001400044245001000058\x1Es3\x1E240101s1990    xx                  eng d\x1E1 \x1FaHill, Ann\x1E00\x1FaShips\x1E\x1D";

const OTHER_SERIAL: &[u8] =
    b"00142nas a2200073 a 4500001000300000008004100003100001400044245001000058\x1Es4\x1E240101s1990    xx                  eng d\x1E1 \x1FaHill, Ann\x1E00\x1FaShips\x1E\x1D";

const BOOK: &[u8] =
    b"00142nam a2200073 a 4500001000300000008004100003100001400044245001000058\x1Es3\x1E240101s1990    xx                  eng d\x1E1 \x1FaHill, Ann\x1E00\x1FaShips\x1E\x1D";

const OTHER_BOOK: &[u8] =
    b"00142nam a2200073 a 4500001000300000008004100003100001400044245001000058\x1Es4\x1E240101s1990    xx                  eng d\x1E1 \x1FaHill, Ann\x1E00\x1FaShips\x1E\x1D";

/// The catalogue of the libraries' records.
fn catalogue_of<L: Ledger>(
    alloc: Global,
    records: &[(&str, &[u8])],
    blank: Blank,
) -> Result<Catalogue, Fail>
    requires name { blank.name ≡ L.name }
    requires parts { blank.parts ≡ L.parts }
    requires some { 0 < L.parts }
{
    let mut steps: Steps<L> = Steps::open(blank);
    let mut catalogue = Catalogue::empty(alloc, Hashing::fixed())?;
    for (library, frame) in records {
        let batch = batch_of_one(alloc, library, frame)?;
        let _found = catalogue.apply(alloc, 0, batch, &mut steps)?;
    }
    Ok(catalogue)
}

/// The lines of the answer, each ended by a line feed.
fn answered(alloc: Global, catalogue: &Catalogue, line: &[u8]) -> Result<Vec<u8>, Fail> {
    let query = Query::read(alloc, line)?;
    let mut text = Vec::new(alloc);
    for line in answer(alloc, catalogue, &query)?.lines.as_slice() {
        text.extend_from_slice(line.bytes())?;
        text.push(b'\n')?;
    }
    Ok(text)
}

/// Whether the catalogue of these records gives each line of the table its answer.
fn all_answered(
    alloc: Global,
    records: &[(&str, &[u8])],
    table: &[(&[u8], &[u8])],
) -> Result<bool, Fail> {
    let catalogue = catalogue_of::<Brand>(alloc, records, Blank::new(1))?;
    for (line, lines) in table {
        if answered(alloc, &catalogue, line)?.as_slice() != *lines {
            return Ok(false);
        }
    }
    Ok(true)
}

#[test]
fn one_record_by_each_query(rt: HostRuntime) -> Result<(), Fail> {
    let records: [(&str, &[u8]); 1] = [("LIBA", OWN)];
    let table: [(&[u8], &[u8]); 9] = [
        (b"control (OCoLC)12345", b"edition LIBA.75425165\n"),
        (b"control (DLC)75425165", b"edition LIBA.75425165\n"),
        (b"title Letters", b"edition LIBA.75425165\n"),
        (b"isbn 0-306-40615-2", b"edition LIBA.75425165\n"),
        (
            b"holdings LIBA 75425165",
            b"hold LIBA.75425165|DLC|Main|ML410.D99\n",
        ),
        (
            b"id LIBA 75425165",
            b"edition LIBA.75425165\nby LIBA.75425165\nwork dvorak, antonin 1841 1904/letters\n",
        ),
        (
            b"work dvorak, antonin 1841 1904/letters",
            b"edition LIBA.75425165\n",
        ),
        (b"work dvorak, antonin 1841 1904", b"none\n"),
        (b"count", b"editions 1 works 1 records 1\n"),
    ];
    assert!(rt; all_answered(rt.alloc(), &records, &table)?);
    Ok(())
}

#[test]
fn contributors_and_works(rt: HostRuntime) -> Result<(), Fail> {
    let records: [(&str, &[u8]); 4] = [
        ("LIBB", BLUE),
        ("LIBA", RED),
        ("LIBA", BRIDGE),
        ("LIBA", CAT),
    ];
    let merged =
        b"edition LIBA.a1\nby LIBA.a1\nby LIBA.c1\nby LIBB.b1\nwork hill, ann/blue ships\n";
    let table: [(&[u8], &[u8]); 6] = [
        (b"id LIBA a1", merged),
        (b"id LIBB b1", merged),
        (b"id LIBA c1", merged),
        (
            b"id LIBA  c 1 ",
            b"edition LIBA.c 1\nby LIBA.c 1\nwork cat///LIBA.c 1\n",
        ),
        (b"id LIBB a1", b"none\n"),
        (b"id LIBA a1 x", b"none\n"),
    ];
    assert!(rt; all_answered(rt.alloc(), &records, &table)?);
    Ok(())
}

#[test]
fn work_of_two_editions(rt: HostRuntime) -> Result<(), Fail> {
    let records: [(&str, &[u8]); 2] = [("LIBB", BRIDGE), ("LIBA", RED)];
    let table: [(&[u8], &[u8]); 3] = [
        (
            b"work hill, ann/red ships",
            b"edition LIBA.a1\nedition LIBB.c1\n",
        ),
        (b"work hill, ann/red", b"none\n"),
        (b"count", b"editions 2 works 1 records 2\n"),
    ];
    assert!(rt; all_answered(rt.alloc(), &records, &table)?);
    Ok(())
}

/// Serials meet by ISSN.
#[test]
fn serials_of_one_issn(rt: HostRuntime) -> Result<(), Fail> {
    let records: [(&str, &[u8]); 2] = [("LIBA", HEARING), ("LIBA", RESEARCH)];
    let table: [(&[u8], &[u8]); 3] = [
        (b"count", b"editions 1 works 1 records 2\n"),
        (b"issn 03785955", b"edition LIBA.s1\n"),
        (b"issn 0028-0836", b"none\n"),
    ];
    assert!(rt; all_answered(rt.alloc(), &records, &table)?);
    Ok(())
}

/// Serials of one title, date and name are two editions, and books of them are one.
#[test]
fn serials_and_books_of_one_title(rt: HostRuntime) -> Result<(), Fail> {
    let serials: [(&str, &[u8]); 2] = [("LIBA", SERIAL), ("LIBA", OTHER_SERIAL)];
    let books: [(&str, &[u8]); 2] = [("LIBA", BOOK), ("LIBA", OTHER_BOOK)];
    let apart: [(&[u8], &[u8]); 1] = [(b"count", b"editions 2 works 1 records 2\n")];
    let merged: [(&[u8], &[u8]); 1] = [(b"count", b"editions 1 works 1 records 2\n")];
    assert!(rt; all_answered(rt.alloc(), &serials, &apart)?);
    assert!(rt; all_answered(rt.alloc(), &books, &merged)?);
    Ok(())
}

#[test]
fn holdings_of_contributors(rt: HostRuntime) -> Result<(), Fail> {
    let records: [(&str, &[u8]); 4] = [
        ("LIBB", ODD),
        ("LIBB", EMPTY),
        ("LIBB", EAST),
        ("LIBA", ANNEX),
    ];
    let merged =
        b"hold LIBA.g1|LIBA|Annex|ML410\nhold LIBA.g1|LIBA|Main|ML410\nhold LIBB.h1|A B|x y|  z\nhold LIBB.h1|||\nhold LIBB.h1|X|first|Q\nhold LIBB.h1|X|first|Q\n";
    let table: [(&[u8], &[u8]); 5] = [
        (b"holdings LIBA g1", merged),
        (b"holdings LIBB h1", merged),
        (b"holdings LIBB h2", b"none\n"),
        (
            b"holdings LIBB h3",
            b"hold LIBB.h3|\xC3\xA9\xE6\x9D\xB1||\xC3\x9F\n",
        ),
        (b"holdings LIBC x", b"none\n"),
    ];
    assert!(rt; all_answered(rt.alloc(), &records, &table)?);
    Ok(())
}

#[test]
fn no_records(rt: HostRuntime) -> Result<(), Fail> {
    let table: [(&[u8], &[u8]); 5] = [
        (b"count ", b"editions 0 works 0 records 0\n"),
        (b"isbn 9780306406157", b"none\n"),
        (b"id LIBA x", b"none\n"),
        (b"title Cat", b"none\n"),
        (b"work \xFF\xFE", b"none\n"),
    ];
    assert!(rt; all_answered(rt.alloc(), &[], &table)?);
    Ok(())
}
