//! The features of a record, as `specs/Gathering.antt` has them.
ghost use Rattle.std.specs.Prelude.{◌≡◌, ◌++◌, ◌∷◌, IsTrue, IfOk, codes};
ghost use Rattle.std.specs.Option.{option_to_list};
ghost use Rattle.std.specs.Char.{is_ascii_digit};
ghost use Rattle.std.specs.List.{list_all};
ghost use Rattle.marc_parts.specs.Loads.{is_loadable};
ghost use Rattle.union_base.specs.SortedLists.{set_of};
ghost use Rattle.match_features.specs.Kept.{has_some, pairs_cmp, texts_cmp};
ghost use Rattle.record_features.specs.Gathering.{own_pair, assigned_pair, types_of, date_in, features};

use crate::gathering::{Findings, gathered};
use isbn_keys::control::pair;
use marc_parts::marc_record::Record;
use marc_parts::parts::{control_number, text_under};
use match_features::control_pair::joined;
use match_features::features::Features;
use std::alloc::Global;
use union_base::bytes::Bytes;
use union_base::field::Field;
use union_base::library_code::LibraryCode;
use union_base::memory::Memory;
use union_base::sorted_list::SortedList;

/// What stands before a library's code, in the source of its own control numbers.
const OWN: u8 = b'=';

/// The most pairs that a record has beside those of its fields 010 and 035: its own, and that of 003 and 001.
const FIRST_PAIRS: usize = 2;

/// The features of a record that the library loads. Its own number, under the source `=` and the library's code, the number
/// of 003 and 001, the system numbers of 035 `$a` and the LCCNs of 010 `$a`; leader/06 and 07; the ISBNs of 020 `$a`; the
/// ISSNs of 022 `$a`; the title of 245; the year in 008/07-10; and the heading of 100, 110 or 111 (MARC 21).
///
/// Returns `Memory` if allocation fails.
pub fn features_of(alloc: Global, library: &LibraryCode, rec: &Record) -> Result<Features, Memory>
    requires { IsTrue (is_loadable rec.now) }
    ensures { IfOk result (λ found. found ≡ features library.now rec.now) }
{
    let fields = rec.fields.as_slice();
    let found = gathered(alloc, first_pairs(alloc, library, rec)?, fields)?;
    let types = types_of(alloc, rec)?;
    let dates = date_in(alloc, text_under(b"008", fields))?;
    of_lists(found, types, dates)
}

/// The features with these lists, sorted and rid of repeats.
fn of_lists(found: Findings, types: Vec<[u8; 2]>, dates: Vec<[u8; 4]>) -> Result<Features, Memory>
    requires { IsTrue (has_some found.control.items) }
    ensures control { IfOk result (λ made. made.control ≡ set_of pairs_cmp found.control.items) }
    ensures types { IfOk result (λ made. made.types ≡ set_of texts_cmp types.items) }
    ensures isbns { IfOk result (λ made. made.isbns ≡ set_of texts_cmp found.isbns.items) }
    ensures issns { IfOk result (λ made. made.issns ≡ set_of texts_cmp found.issns.items) }
    ensures titles { IfOk result (λ made. made.titles ≡ set_of texts_cmp found.titles.items) }
    ensures dates { IfOk result (λ made. made.dates ≡ set_of texts_cmp dates.items) }
    ensures names { IfOk result (λ made. made.names ≡ set_of texts_cmp found.names.items) }
{
    let control = SortedList::of(found.control)?;
    let types = SortedList::of(types)?;
    let isbns = SortedList::of(found.isbns)?;
    let issns = SortedList::of(found.issns)?;
    let titles = SortedList::of(found.titles)?;
    let dates = SortedList::of(dates)?;
    let names = SortedList::of(found.names)?;
    Ok(Features {
        control,
        types,
        isbns,
        issns,
        titles,
        dates,
        names,
    })
}

/// The library's own pair, and that of 003 and 001.
fn first_pairs(
    alloc: Global,
    library: &LibraryCode,
    rec: &Record,
) -> Result<Vec<(Bytes, Bytes)>, Memory>
    ensures { IfOk result (λ pairs. pairs.items
        ≡ own_pair library.now rec.now ∷ assigned_pair rec.now) }
{
    let fields = rec.fields.as_slice();
    let source = own_source(alloc, library.bytes())?;
    let number = Bytes::of(alloc, control_number(rec))?;
    let room = fields_of_pairs(fields).saturating_add(FIRST_PAIRS);
    let mut pairs = Vec::with_capacity(alloc, room)?;
    pairs.push((source, number))?;
    if let Some(found) = pair(
        alloc,
        text_under(b"003", fields),
        text_under(b"001", fields),
    )? {
        pairs.push(found)?;
    }
    Ok(pairs)
}

/// The source of a library's own control numbers.
fn own_source(alloc: Global, code: &[u8]) -> Result<Bytes, Memory>
    ensures { IfOk result (λ source. source ≡ codes "=" ++ code.now) }
{
    joined(alloc, &[OWN], code)
}

/// How many fields may have a control pair. That is how much room the list of pairs begins with, and nothing else.
fn fields_of_pairs(fields: &[Field]) -> usize {
    fields.iter().filter(|field| may_have_pair(field)).count()
}

/// Whether the field has tag 010 or 035.
fn may_have_pair(field: &Field) -> bool {
    matches!(field.tag, [b'0', b'1', b'0'] | [b'0', b'3', b'5'])
}

/// The type of record and the bibliographic level.
fn types_of(alloc: Global, rec: &Record) -> Result<Vec<[u8; 2]>, Memory>
    ensures { IfOk result (λ types. types.items ≡ types_of rec.now) }
{
    let mut types = Vec::with_capacity(alloc, 1)?;
    types.push([rec.leader.kind, rec.leader.level])?;
    Ok(types)
}

/// The year in 008/07-10, where it is four digits.
fn date_in(alloc: Global, text: &[u8]) -> Result<Vec<[u8; 4]>, Memory>
    ensures { IfOk result (λ dates. dates.items ≡ date_in text.now) }
{
    let mut dates = Vec::new(alloc);
    if let Some(date) = year_of(text) {
        dates.reserve_exact(1)?;
        dates.push(date)?;
    }
    Ok(dates)
}

fn year_of(text: &[u8]) -> Option<[u8; 4]>
    ensures { option_to_list result ≡ date_in text.now }
{
    let date = text.get(7..11)?;
    let year = date.first_chunk::<4>()?;
    if are_digits(date) { Some(*year) } else { None }
}

fn are_digits(text: &[u8]) -> bool
    ensures { result ≡ list_all is_ascii_digit text.now }
{
    text.iter().all(|b| b.is_ascii_digit())
}
