//! The steps of the normal form on characters of every kind, in lists of characters.
ghost use Rattle.std.specs.Prelude.{◌≡◌, ◌++◌, ◌∷◌, [], ◌==◌, ◌||◌, ◌&&◌, encode_utf8_all, option_to_list, IfOk, OnOk};
ghost use Rattle.std.specs.List.{list_any};
ghost use Rattle.unicode.specs.CaseFolding.{full_fold};
ghost use Rattle.unicode_normalization.specs.Forms.{nfkd};
ghost use Rattle.caseless.specs.Caseless.{default_case_fold};
ghost use Rattle.naco_normal.specs.Normal.{is_dropped, plain_letters, is_letter_or_number, is_kept, folded, letters, with_plain_letters, without_deleted, spaced};
ghost use Rattle.naco_normal.specs.Shown.{is_shown};
ghost use Rattle.naco_normal.specs.Words.{joined};

use crate::form::Comma;
use crate::words::push_shown;
use std::alloc::Global;
use unicode::case::full_folding;
use unicode::properties::{GeneralCategory, GeneralCategoryGroup};
use unicode_normalization::slice::extend_nfkd;
use union_base::memory::Memory;

/// The text decomposed, folded, without what is deleted, and in plain letters.
pub(crate) fn letters(alloc: Global, source: &[char]) -> Result<Vec<char>, Memory>
    ensures { IfOk result (λ v. v.items ≡ letters source.now) }
{
    let folded = folded(alloc, source)?;
    let mut letters = Vec::with_capacity(alloc, folded.len())?;
    for c in &folded {
        push_plain(&mut letters, *c)?;
    }
    Ok(letters)
}

/// Compatibility decomposition, full case folding, and decomposition again.
fn folded(alloc: Global, source: &[char]) -> Result<Vec<char>, Memory>
    ensures { IfOk result (λ v. v.items ≡ folded source.now) }
{
    let lower = case_folded(alloc, &decomposed(alloc, source)?)?;
    decomposed(alloc, &lower)
}

/// The compatibility decomposition.
fn decomposed(alloc: Global, source: &[char]) -> Result<Vec<char>, Memory>
    ensures { IfOk result (λ v. v.items ≡ nfkd source.now) }
{
    let mut decomposed = Vec::with_capacity(alloc, source.len())?;
    extend_nfkd(&mut decomposed, source)?;
    Ok(decomposed)
}

/// The full case folding.
fn case_folded(alloc: Global, source: &[char]) -> Result<Vec<char>, Memory>
    ensures { IfOk result (λ v. v.items ≡ default_case_fold source.now) }
{
    let mut folded = Vec::with_capacity(alloc, source.len())?;
    for c in source {
        push_folded(&mut folded, *c)?;
    }
    Ok(folded)
}

fn push_folded(folded: &mut Vec<char>, c: char) -> Result<(), Memory>
    ensures { OnOk result (folded.new.items ≡ folded.old.items ++ full_fold c) }
{
    match full_folding(c) {
        [] => folded.push(c)?,
        folding => folded.extend_from_slice(folding)?,
    }
    Ok(())
}

/// Whether the character is deleted: a nonspacing or enclosing mark, a modifier letter, or one of `'`, `[` and `]`.
fn is_dropped(c: char) -> bool
    ensures { result ≡ is_dropped c }
{
    matches!(c, '\'' | '[' | ']')
        || matches!(
            GeneralCategory::for_char(c),
            GeneralCategory::NonspacingMark
                | GeneralCategory::EnclosingMark
                | GeneralCategory::ModifierLetter
        )
}

/// Appends what the character leaves: nothing where it is deleted, else its plain letters.
fn push_plain(letters: &mut Vec<char>, c: char) -> Result<(), Memory>
    ensures { OnOk result (letters.new.items ≡ letters.old.items
        ++ with_plain_letters (without_deleted (c ∷ []))) }
{
    if is_dropped(c) {
        return Ok(());
    }
    let (first, second) = plain_letters(c);
    letters.push(first)?;
    if let Some(second) = second {
        letters.push(second)?;
    }
    Ok(())
}

/// The one or two plain letters that stand for the character.
fn plain_letters(c: char) -> (char, Option<char>)
    ensures { result.0 ∷ option_to_list result.1 ≡ plain_letters c }
{
    match c {
        'æ' => ('a', Some('e')),
        'œ' => ('o', Some('e')),
        'ø' => ('o', None),
        'đ' | 'ð' => ('d', None),
        'þ' => ('t', Some('h')),
        'ł' => ('l', None),
        'ı' => ('i', None),
        _ => (c, None),
    }
}

/// Whether the character is a letter or a number.
fn is_letter_or_number(c: char) -> bool
    ensures { result ≡ is_letter_or_number c }
{
    if c.is_ascii() {
        return c.is_ascii_alphanumeric();
    }
    let category = GeneralCategory::for_char(c);
    GeneralCategoryGroup::Letter.contains(category)
        || GeneralCategoryGroup::Number.contains(category)
}

/// Whether the character is kept: a letter, a number, a spacing mark, or one of the six signs.
fn is_kept(c: char) -> bool
    ensures { result ≡ is_kept c }
{
    is_letter_or_number(c)
        || matches!(c, '&' | '+' | '@' | '#' | '♭' | '♯')
        || GeneralCategory::for_char(c) == GeneralCategory::SpacingMark
}

/// Whether the character shows in the form: an awaited comma where a letter or number stands after it, and any other
/// character where it is kept.
fn is_shown(c: char, awaiting: bool, after: &[char]) -> bool
    ensures { result ≡ is_shown c awaiting after.now }
{
    if awaiting && c == ',' {
        has_letter_or_number(after)
    } else {
        is_kept(c)
    }
}

fn has_letter_or_number(text: &[char]) -> bool
    ensures { result ≡ list_any is_letter_or_number text.now }
{
    text.iter().any(|c| is_letter_or_number(*c))
}

/// Appends the words that the letters make, after one blank where neither is empty.
pub(crate) fn append_letters(
    form: &mut Vec<u8>,
    letters: &[char],
    comma: Comma,
) -> Result<(), Memory>
    ensures { OnOk result (form.new.items ≡ joined form.old.items
        (encode_utf8_all (spaced comma letters.now))) }
{
    let mut gap = true;
    let mut awaiting = comma.keeps_first();
    for (place, c) in letters.iter().enumerate() {
        let shown = is_shown(*c, awaiting, &letters[place + 1..]);
        push_shown(form, gap, shown, *c)?;
        gap = !shown;
        awaiting = awaiting & (*c != ',');
    }
    Ok(())
}
