//! Control numbers with their source, by which records meet across libraries, as `pair_key` and `system_key` in
//! `specs/Control.antt` have them; they are this project's own.
ghost use Rattle.std.specs.Prelude.{◌≡◌, ◌==◌, false, true, length, drop, MatchOption, IfOk};
ghost use Rattle.isbn_keys.specs.Control.{has_parenthesis, is_source, is_prefixed, without_prefix, number_of, pair_key, system_key};

use crate::check::all_digits;
use crate::text::{cut_at, without_leading};
use std::alloc::Global;
use union_base::blanks::trimmed;
use union_base::bytes::Bytes;
use union_base::memory::Memory;

/// The longest source, in bytes.
const LONGEST_SOURCE: usize = 64;

/// The source whose numbers have a prefix and leading zeros that count for nothing.
const OCLC: [u8; 5] = *b"OCoLC";

/// The key of a source and a number, both trimmed of blanks. A number of the source `OCoLC` loses a leading `ocm`, `ocn`
/// or `on` that only digits follow, and then its leading zeros.
///
/// Answers `None` exactly where the source is not 1 to 64 bytes, begins with `=` or has `(` or `)`, or where the number
/// is empty in the end; and `Memory` if allocation fails.
pub fn pair(alloc: Global, source: &[u8], number: &[u8]) -> Result<Option<(Bytes, Bytes)>, Memory>
    ensures { IfOk result (λ key. key ≡ pair_key source.now number.now) }
{
    let source = trimmed(source);
    let number = number_of(source, trimmed(number));
    if !is_source(source) || number.is_empty() {
        return Ok(None);
    }
    let source = Bytes::of(alloc, source)?;
    Ok(Some((source, Bytes::of(alloc, number)?)))
}

/// The key of a text `(SOURCE)number`, trimmed of blanks, where SOURCE ends at the first `)`: that of `pair`.
/// `(OCoLC)ocm00012345` gives `OCoLC` and `12345`.
///
/// Answers `None` exactly where the text has no such form or `pair` has no key, and `Memory` if allocation fails.
pub fn system_number(alloc: Global, text: &[u8]) -> Result<Option<(Bytes, Bytes)>, Memory>
    ensures { IfOk result (λ key. key ≡ system_key text.now) }
{
    let Some(rest) = trimmed(text).strip_prefix(b"(") else {
        return Ok(None);
    };
    match cut_at(rest, b')') {
        Some((source, number)) => pair(alloc, source, number),
        None => Ok(None),
    }
}

/// Whether a source may stand in a key.
fn is_source(source: &[u8]) -> bool
    ensures { result ≡ is_source source.now }
{
    match source {
        [] | [b'=', ..] => false,
        _ => source.len() <= LONGEST_SOURCE && !has_parenthesis(source),
    }
}

fn has_parenthesis(source: &[u8]) -> bool
    ensures { result ≡ has_parenthesis source.now }
{
    source.iter().any(|b| matches!(*b, b'(' | b')'))
}

/// The number as it stands in a key of the source.
fn number_of<'a>(source: &[u8], number: &'a [u8]) -> &'a [u8]
    ensures { result.now ≡ number_of source.now number.now }
{
    if source == OCLC.as_slice() {
        without_leading(without_prefix(number), b'0')
    } else {
        number
    }
}

/// The number without a leading `ocm`, `ocn` or `on` that only digits follow.
fn without_prefix(number: &[u8]) -> &[u8]
    ensures { result.now ≡ without_prefix number.now }
{
    if let Some(rest) = after_prefix(number, b"ocm") {
        return rest;
    }
    if let Some(rest) = after_prefix(number, b"ocn") {
        return rest;
    }
    if let Some(rest) = after_prefix(number, b"on") {
        return rest;
    }
    number
}

/// What follows the prefix, where that is digits alone.
fn after_prefix<'a>(number: &'a [u8], prefix: &[u8]) -> Option<&'a [u8]>
    ensures { MatchOption result (is_prefixed prefix.now number.now ≡ false)
        (λ rest. (is_prefixed prefix.now number.now ≡ true)
        × (rest.now ≡ drop (length prefix.now) number.now)) }
{
    match number.strip_prefix(prefix) {
        Some(rest) if all_digits(rest) => Some(rest),
        _ => None,
    }
}
