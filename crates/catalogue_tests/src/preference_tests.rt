//! Catalogues by preferences: a preference chooses which record gives the fixed part and the slots of an edition, and changes
//! nothing else.
ghost use Rattle.std.specs.Prelude.{◌≡◌, ◌<◌, IfOk, IsTrue};
ghost use Rattle.catalogue_core.specs.Batches.{is_own_op};

use crate::comparing_tests::put_digits;
use crate::edition_tests::{FULL, LATER};
use crate::worked::{edition_by, library_of, op_by};
use catalogue_core::batch::Batch;
use catalogue_core::catalogue::Catalogue;
use catalogue_core::edition::Edition;
use catalogue_core::op::Op;
use catalogue_export::edition::edition_record;
use catalogue_export::editions::append_edition;
use field_merge::content::Content;
use field_merge::preference::Preference;
use field_merge::slot::Slot;
use key_hashing::hashing::Hashing;
use marc_parts::marc_record::Record;
use marc_parts::parts::has_tag;
use match_features::features::Features;
use merge_laws::join::Join;
use merge_laws::steps::Steps;
use std::alloc::Global;
use std::marker::Brand;
use std::sync::ledger::{Blank, Ledger};
use std::test::Fail;
use union_base::library_code::LibraryCode;
use union_base::memory::Memory;

/// What is exported of a full record of LIBA and a later one of LIBB that is less full, where LIBB is preferred.
const PREFERRED: &[u8] =
    b"00298nam a22001457a 4500001000800000003000600008005001700014008004100031020001500072240000900087245001200096991001800108993001300126993001300139\x1ELIBA.x1\x1EUNION\x1E20240101000000.0\x1E240101s2001    xx                  eng d\x1E  \x1Fa0306406152\x1E10\x1FaCats\x1E04\x1FaThe cat\x1E  \x1Facat///LIBA.x1\x1E  \x1FaLIBA\x1Fbx1\x1E  \x1FaLIBB\x1Fby1\x1E\x1D";

#[test]
fn less_full_record_of_a_preferred_library(rt: HostRuntime) -> Result<(), Fail> {
    let alloc = rt.alloc();
    let prefer = Preference::read(b"LIBB").ok_or("a preference")?;
    let full = edition_by(alloc, &prefer, "LIBA", FULL)?;
    let later = edition_by(alloc, &prefer, "LIBB", LATER)?;
    let mut text = Vec::new(alloc);
    let catalogue = Catalogue::empty(alloc, Hashing::fixed())?;
    append_edition(
        alloc,
        catalogue.names(),
        &full.joined(alloc, &later)?,
        &mut text,
    )?;
    assert_eq!(rt; text.as_slice(), PREFERRED);
    Ok(())
}

/// A record with two system numbers and a holding, and the places of its encoding level and of its digits.
const FRAME: [u8; 223] =
    *b"00223nam a2200109 a 4500001000500000005001700005008004100022035001200063035001200075245001000087852001600097\x1E0000\x1E20240101000000.0\x1E240101s1999    xx                  eng d\x1E  \x1Fa(K)0000\x1E  \x1Fa(K)0000\x1E00\x1FaT0000\x1E  \x1FbMAIN\x1FhQ0000\x1E\x1D";

const LEVEL: usize = 17;

const NUMBER: usize = 109;

const FIRST: usize = 179;

const SECOND: usize = 191;

const TITLE: usize = 201;

const SHELF: usize = 217;

/// The libraries of the consortium, and the encoding levels of their records, from the fullest on.
const LIBRARIES: [&str; 3] = ["LIBA", "LIBB", "LIBC"];

const LEVELS: [u8; 4] = *b" 178";

/// The record of that number in the library at that place. It has a system number in common with those of the same number, and
/// another with those of the number that differs in the last bit; but of three records of LIBC two share theirs with none of
/// another library.
fn frame_of(place: u64, number: u64) -> [u8; 223]
    requires place { place < 3 }
    requires number { number < 100 }
{
    let first = if place == 2 && number % 3 > 0 {
        500 + number
    } else {
        number
    };
    let mut frame = FRAME;
    frame[LEVEL] = LEVELS[((place + number) % 4) as usize];
    put_digits(&mut frame, NUMBER, number);
    put_digits(&mut frame, FIRST, first);
    put_digits(&mut frame, SECOND, 1000 + first / 2);
    put_digits(&mut frame, TITLE, 1000 * place + number);
    put_digits(&mut frame, SHELF, 1000 * place + number);
    frame
}

/// The load of that record, by the preference.
fn load_of(
    alloc: Global,
    prefer: &Preference,
    code: &LibraryCode,
    place: u64,
    number: u64,
) -> Result<Op, Fail>
    requires place { place < 3 }
    requires number { number < 100 }
    ensures { IfOk result (λ op. IsTrue (is_own_op code.now op)) }
{
    op_by(alloc, prefer, code, &frame_of(place, number))
}

/// The batch of three records, from that number on, of the library at that place.
fn batch_of(alloc: Global, prefer: &Preference, place: u64, number: u64) -> Result<Batch, Fail>
    requires place { place < 3 }
    requires number { number < 90 }
{
    let code = library_of(LIBRARIES[place as usize])?;
    let mut ops = Vec::new(alloc);
    ops.push(load_of(alloc, prefer, &code, place, number)?)?;
    ops.push(load_of(alloc, prefer, &code, place, number + 1)?)?;
    ops.push(load_of(alloc, prefer, &code, place, number + 2)?)?;
    Ok(Batch::of(code, ops))
}

/// The catalogue of the consortium by the preference: 36 records of the three libraries.
fn catalogue_by<L: Ledger>(
    alloc: Global,
    prefer: &Preference,
    blank: Blank,
) -> Result<Catalogue, Fail>
    requires name { blank.name ≡ L.name }
    requires parts { blank.parts ≡ L.parts }
    requires some { 0 < L.parts }
{
    let mut steps: Steps<L> = Steps::open(blank);
    let mut catalogue = Catalogue::empty(alloc, Hashing::fixed())?;
    for place in 0..3 {
        for turn in 0..4 {
            let batch = batch_of(alloc, prefer, place, 3 * turn)?;
            catalogue.apply(alloc, place as u32, batch, &mut steps)?;
        }
    }
    Ok(catalogue)
}

/// The catalogue by the preference of that text, empty for none, in a ledger of its own.
fn catalogue_of(alloc: Global, text: &str) -> Result<Catalogue, Fail> {
    let prefer = preference_in(text)?;
    catalogue_by::<Brand>(alloc, &prefer, Blank::new(1))
}

fn preference_in(text: &str) -> Result<Preference, Fail> {
    if text.is_empty() {
        return Ok(Preference::none());
    }
    Ok(Preference::read(text.as_bytes()).ok_or("a preference")?)
}

#[test]
fn consortium_by_preferences(rt: HostRuntime) -> Result<(), Fail> {
    let alloc = rt.alloc();
    let plain = catalogue_of(alloc, "")?;
    assert_eq!(rt; plain.record_count(), 36);
    assert_eq!(rt; plain.edition_count(), 12);
    for text in ["LIBB", "LIBC,LIBA", "LIBB,LIBC,LIBA", "LIBX", "LIBX,LIBC"] {
        let other = catalogue_of(alloc, text)?;
        assert!(rt; agree(alloc, &plain, &other)?, "{text}");
        assert!(rt;
            shows_preferred(alloc, &other, &preference_in(text)?)?,
            "{text}"
        );
    }
    Ok(())
}

/// Whether the editions of the two differ, place by place, in their fixed parts and slots alone.
fn agree(alloc: Global, one: &Catalogue, other: &Catalogue) -> Result<bool, Fail> {
    let editions = one.editions(alloc)?;
    let beside = other.editions(alloc)?;
    for (place, edition) in editions.as_slice().iter().enumerate() {
        match beside.as_slice().get(place) {
            Some(second) => {
                if !are_alike(alloc, edition, second)? {
                    return Ok(false);
                }
            }
            None => return Ok(false),
        }
    }
    Ok(editions.len() == beside.len())
}

/// Whether the editions have the same contributors and features, and their records the same holdings and contributors, and the
/// same work key where both show the same title.
fn are_alike(alloc: Global, one: &Edition, other: &Edition) -> Result<bool, Fail> {
    let catalogue = Catalogue::empty(alloc, Hashing::fixed())?;
    let key = catalogue.key_of(alloc, one)?;
    let (first, _) = edition_record(alloc, &one.shown(), &key)?;
    let key = catalogue.key_of(alloc, other)?;
    let (second, _) = edition_record(alloc, &other.shown(), &key)?;
    let has_same_title = one.shown().f245().field == other.shown().f245().field;
    let parts = one.contributors().as_slice() == other.contributors().as_slice()
        && have_same_features(one.features(), other.features());
    let fields = have_same_under(alloc, b"852", &first, &second)?
        && have_same_under(alloc, b"993", &first, &second)?;
    // No record of the consortium has a main entry or a 240.
    let key = !has_same_title || have_same_under(alloc, b"991", &first, &second)?;
    Ok(parts && fields && key)
}

fn have_same_features(one: &Features, other: &Features) -> bool {
    one.control.as_slice() == other.control.as_slice()
        && one.types.as_slice() == other.types.as_slice()
        && one.isbns.as_slice() == other.isbns.as_slice()
        && one.issns.as_slice() == other.issns.as_slice()
        && one.titles.as_slice() == other.titles.as_slice()
        && one.dates.as_slice() == other.dates.as_slice()
        && one.names.as_slice() == other.names.as_slice()
}

/// Whether the records have the same fields under the tag, one at least.
fn have_same_under(
    alloc: Global,
    tag: &[u8; 3],
    one: &Record,
    other: &Record,
) -> Result<bool, Memory> {
    let first = texts_under(alloc, tag, one)?;
    let second = texts_under(alloc, tag, other)?;
    Ok(!first.is_empty() && first.as_slice() == second.as_slice())
}

/// The bytes of the fields under the tag, each with a field terminator after it.
fn texts_under(alloc: Global, tag: &[u8; 3], rec: &Record) -> Result<Vec<u8>, Memory> {
    let mut text = Vec::new(alloc);
    for field in rec.fields.as_slice() {
        if has_tag(tag, field) {
            text.extend_from_slice(field.body.spelling())?;
            text.push(b'\x1E')?;
        }
    }
    Ok(text)
}

/// Whether each edition shows the fixed part and the title of one of its best libraries by the preference.
fn shows_preferred(
    alloc: Global,
    catalogue: &Catalogue,
    prefer: &Preference,
) -> Result<bool, Fail> {
    for edition in catalogue.editions(alloc)? {
        let shown = edition.content(alloc)?;
        let content = shown.content();
        if !is_best(content, prefer, &content.f245) || content.fixed.rank != content.f245.rank {
            return Ok(false);
        }
    }
    Ok(true)
}

/// Whether the slot's record has its library's level, and no contributor has a higher one.
fn is_best(content: &Content, prefer: &Preference, slot: &Slot) -> bool {
    let rank = slot.rank.parts();
    rank.level == prefer.level(&rank.library)
        && content
            .contributors
            .as_slice()
            .iter()
            .all(|id| prefer.level(&id.library) <= rank.level)
}
