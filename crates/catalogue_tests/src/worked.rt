//! Worked records, and what frames ask for.
ghost use Rattle.std.specs.Prelude.{IfOk, IsTrue};
ghost use Rattle.catalogue_core.specs.Batches.{is_own_op};
ghost use Rattle.marc_rules.specs.Accepted.{IsAccepted};

use catalogue_core::batch::Batch;
use catalogue_core::edition::Edition;
use catalogue_core::laws::accepted_can_be_loaded;
use catalogue_core::op::Op;
use catalogue_core::records::{edition_of, op_of};
use field_merge::preference::Preference;
use iso2709_frame::cut::Cut;
use marc_fields::decoding::is_frame;
use marc_parts::loads::is_deleted;
use marc_parts::marc_record::Record;
use marc_rules::check::check_frame;
use std::alloc::Global;
use std::test::Fail;
use union_base::library_code::LibraryCode;

/// Two records with one ISBN, of two titles and years, and one without it, which has the title of the first and the year of
/// the second.
pub const RED: &[u8] =
    b"00173nam a2200085 a 4500001000300000008004100003020001500044100001400059245001400073\x1Ea1\x1E240101s1990    xx                  eng d\x1E  \x1Fa0306406152\x1E1 \x1FaHill, Ann\x1E00\x1FaRed ships\x1E\x1D";

pub const BLUE: &[u8] =
    b"00181nam a2200085 a 4500001000300000008004100003020002200044100001400066245001500080\x1Eb1\x1E240101s1991    xx                  eng d\x1E  \x1Fa978-0-306-40615-7\x1E1 \x1FaHill, Ann\x1E00\x1FaBlue ships\x1E\x1D";

pub const BRIDGE: &[u8] =
    b"00146nam a2200073 a 4500001000300000008004100003100001400044245001400058\x1Ec1\x1E240101s1991    xx                  eng d\x1E1 \x1FaHill, Ann\x1E00\x1FaRed ships\x1E\x1D";

/// A record with blanks around its number, and added entries.
pub const ADDED: &[u8] =
    b"00187nam a2200097 a 4500001000600000008004100006245000800047700001300055710000900068711001200077\x1E  id \x1E240101s1999    xx                  eng d\x1E00\x1FaCat\x1E1 \x1FaZed, Zoe\x1E2 \x1FaAcme\x1E2 \x1FaMeeting\x1E\x1D";

/// The library of that code.
pub fn library_of(code: &str) -> Result<LibraryCode, Fail> {
    Ok(LibraryCode::read(code.as_bytes()).ok_or("a library code")?)
}

/// The record that the frame spells.
pub fn record_in(alloc: Global, frame: &[u8]) -> Result<Record, Fail>
    ensures { IfOk result (λ rec. IsAccepted rec) }
{
    if is_frame(frame) {
        Ok(check_frame(alloc, Cut::Whole, frame)?)
    } else {
        Err("a frame")?
    }
}

/// The operation that the library's record asks for, without a preference.
pub fn op_in(alloc: Global, library: &LibraryCode, frame: &[u8]) -> Result<Op, Fail>
    ensures { IfOk result (λ op. IsTrue (is_own_op library.now op)) }
{
    op_by(alloc, &Preference::none(), library, frame)
}

/// The operation that the library's record asks for, by the preference.
pub fn op_by(
    alloc: Global,
    prefer: &Preference,
    library: &LibraryCode,
    frame: &[u8],
) -> Result<Op, Fail>
    ensures { IfOk result (λ op. IsTrue (is_own_op library.now op)) }
{
    let rec = record_in(alloc, frame)?;
    Ok(op_of(alloc, prefer, library, rec)?)
}

/// The batch of the library that has one operation, which its record asks for.
pub fn batch_of_one(alloc: Global, library: &str, frame: &[u8]) -> Result<Batch, Fail> {
    let library = library_of(library)?;
    let mut ops = Vec::new(alloc);
    ops.push(op_in(alloc, &library, frame)?)?;
    Ok(Batch::of(library, ops))
}

/// The edition of the library's record, which is no withdrawal, without a preference.
pub fn edition_in(alloc: Global, library: &str, frame: &[u8]) -> Result<Edition, Fail> {
    edition_by(alloc, &Preference::none(), library, frame)
}

/// The edition of the library's record, which is no withdrawal, by the preference.
pub fn edition_by(
    alloc: Global,
    prefer: &Preference,
    library: &str,
    frame: &[u8],
) -> Result<Edition, Fail> {
    let library = library_of(library)?;
    let rec = record_in(alloc, frame)?;
    if is_deleted(rec.leader.status) {
        return Err("a record that is loaded")?;
    }
    accepted_can_be_loaded();
    Ok(edition_of(alloc, prefer, &library, rec)?)
}
