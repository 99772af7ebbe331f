//! Exports whose expected bytes another program made.
use crate::worked::{BLUE, BRIDGE, RED, edition_in};
use catalogue_core::catalogue::Catalogue;
use catalogue_export::editions::append_editions;
use catalogue_export::form::Iso2709;
use catalogue_export::sources::Sources;
use key_hashing::hashing::Hashing;
use merge_laws::join::Join;
use std::test::Fail;

/// One record, and what is exported of it.
const ONE: &[u8] =
    b"00114nam a2200061 a 4500001000300000008004100003245000800044\x1Eid\x1E240101s1999    xx                  eng d\x1E00\x1FaCat\x1E\x1D";

const ONE_EXPORTED: &[u8] =
    b"00192nam a2200097 a 4500001000800000003000600008008004100014245000800055991001800063993001300081\x1ELIBA.id\x1EUNION\x1E240101s1999    xx                  eng d\x1E00\x1FaCat\x1E  \x1Facat///LIBA.id\x1E  \x1FaLIBA\x1Fbid\x1E\x1D";

/// What is exported of the red record, the blue one and the one between them, which are one edition.
const SHIPS_EXPORTED: &[u8] =
    b"00341nam a2200157 a 4500001000800000003000600008008004100014020001500055020002200070100001400092245001400106991002400120993001300144993001300157993001300170\x1ELIBA.a1\x1EUNION\x1E240101s1991    xx                  eng d\x1E  \x1Fa0306406152\x1E  \x1Fa978-0-306-40615-7\x1E1 \x1FaHill, Ann\x1E00\x1FaRed ships\x1E  \x1Fahill, ann/red ships\x1E  \x1FaLIBA\x1Fba1\x1E  \x1FaLIBA\x1Fbb1\x1E  \x1FaLIBA\x1Fbc1\x1E\x1D";

#[test]
fn two_editions_one_behind_the_other(rt: HostRuntime) -> Result<(), Fail> {
    let alloc = rt.alloc();
    let red = edition_in(alloc, "LIBA", RED)?;
    let blue = edition_in(alloc, "LIBA", BLUE)?;
    let bridge = edition_in(alloc, "LIBA", BRIDGE)?;
    let ships = red.joined(alloc, &blue)?.joined(alloc, &bridge)?;
    let cat = edition_in(alloc, "LIBA", ONE)?;
    let mut text = Vec::new(alloc);
    let mut left = Vec::new(alloc);
    let catalogue = Catalogue::empty(alloc, Hashing::fixed())?;
    append_editions::<Iso2709>(
        alloc,
        &Sources::plain(catalogue.names()),
        &[&ships, &cat],
        &mut text,
        &mut left,
    )?;
    let mut expected = Vec::new(alloc);
    expected.extend_from_slice(SHIPS_EXPORTED)?;
    expected.extend_from_slice(ONE_EXPORTED)?;
    assert_eq!(rt; text.as_slice(), expected.as_slice());
    assert_eq!(rt; left.len(), 0);
    Ok(())
}
