//! Everything after the first word of a query.
ghost use Rattle.std.specs.Prelude.{◌≡◌, IfOk};
ghost use Rattle.catalogue_query.specs.Queries.{id_in, id_query, isbn_query, issn_query, control_query, title_query, work_query, holdings_query, count_query, query_behind};

use crate::query::Query;
use crate::word::Word;
use isbn_keys::control::system_number;
use isbn_keys::isbn::isbn;
use isbn_keys::issn::issn;
use marc_parts::loads::has_number_shape;
use naco_normal::form::{Comma, normal};
use std::alloc::Global;
use union_base::blanks::{cut_at_blank, trimmed};
use union_base::bytes::Bytes;
use union_base::library_code::LibraryCode;
use union_base::memory::Memory;
use union_base::record_id::RecordId;

/// The query of the word with that rest of its line, where the rest is in the grammar of the word.
pub(crate) fn query_behind(alloc: Global, word: Word, rest: &[u8]) -> Result<Option<Query>, Memory>
    ensures { IfOk result (λ q. q ≡ query_behind word rest.now) }
{
    match word {
        Word::Id => id_query(alloc, rest),
        Word::Isbn => Ok(isbn_query(rest)),
        Word::Issn => Ok(issn_query(rest)),
        Word::Control => control_query(alloc, rest),
        Word::Title => title_query(alloc, rest),
        Word::Work => work_query(alloc, rest),
        Word::Holdings => holdings_query(alloc, rest),
        Word::Count => Ok(count_query(rest)),
    }
}

/// `id LIB CTL`.
fn id_query(alloc: Global, rest: &[u8]) -> Result<Option<Query>, Memory>
    ensures { IfOk result (λ q. q ≡ id_query rest.now) }
{
    Ok(id_in(alloc, rest)?.map(Query::Id))
}

/// `isbn X`.
fn isbn_query(rest: &[u8]) -> Option<Query>
    ensures { result ≡ isbn_query rest.now }
{
    isbn(rest).map(Query::Isbn)
}

/// `issn X`.
fn issn_query(rest: &[u8]) -> Option<Query>
    ensures { result ≡ issn_query rest.now }
{
    issn(rest).map(Query::Issn)
}

/// `control (S)N`.
fn control_query(alloc: Global, rest: &[u8]) -> Result<Option<Query>, Memory>
    ensures { IfOk result (λ q. q ≡ control_query rest.now) }
{
    match system_number(alloc, rest)? {
        Some((source, number)) => Ok(Some(Query::Control(source, number))),
        None => Ok(None),
    }
}

/// `title T`.
fn title_query(alloc: Global, rest: &[u8]) -> Result<Option<Query>, Memory>
    ensures { IfOk result (λ q. q ≡ title_query rest.now) }
{
    let Ok(text) = str::from_utf8(rest) else {
        return Ok(None);
    };
    let form = normal(alloc, text, Comma::None)?;
    if form.bytes().is_empty() {
        return Ok(None);
    }
    Ok(Some(Query::Title(form)))
}

/// `work K`.
fn work_query(alloc: Global, rest: &[u8]) -> Result<Option<Query>, Memory>
    ensures { IfOk result (λ q. q ≡ work_query rest.now) }
{
    if rest.is_empty() {
        return Ok(None);
    }
    Ok(Some(Query::Work(Bytes::of(alloc, rest)?)))
}

/// `holdings LIB CTL`.
fn holdings_query(alloc: Global, rest: &[u8]) -> Result<Option<Query>, Memory>
    ensures { IfOk result (λ q. q ≡ holdings_query rest.now) }
{
    Ok(id_in(alloc, rest)?.map(Query::Holdings))
}

/// `count`.
fn count_query(rest: &[u8]) -> Option<Query>
    ensures { result ≡ count_query rest.now }
{
    if rest.is_empty() {
        Some(Query::Count)
    } else {
        None
    }
}

/// The record that a library code, one blank and a control number name.
fn id_in(alloc: Global, rest: &[u8]) -> Result<Option<RecordId>, Memory>
    ensures { IfOk result (λ id. id ≡ id_in rest.now) }
{
    let (code, number) = cut_at_blank(rest);
    let number = trimmed(number);
    let Some(library) = LibraryCode::read(code) else {
        return Ok(None);
    };
    if !has_number_shape(number) {
        return Ok(None);
    }
    let control = Bytes::of(alloc, number)?;
    Ok(Some(RecordId { library, control }))
}
