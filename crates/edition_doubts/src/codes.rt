//! The codes of 008: languages and forms of item.
ghost use Rattle.std.specs.Prelude.{◌≡◌, ◌++◌, ◌+◌, ◌≤◌, if◌then◌else◌, IfOk, OnOk};
ghost use Rattle.std.specs.List.{flat_map};
ghost use Rattle.edition_doubts.specs.Reasons.{code_at, is_no_language, language_of, languages_differ};
ghost use Rattle.edition_doubts.specs.Reasons.{is_at_29, form_of, forms_differ};

use crate::comparing::differ;
use catalogue_editions::shared_content::SharedContent;
use field_merge::content::Content;
use field_merge::fixed::Fixed;
use std::alloc::Global;
use union_base::bytes::Bytes;
use union_base::memory::Memory;

/// The place of the language in 008 (MARC 21, 008/35-37).
const LANGUAGE: usize = 35;

/// The place of the form of item in 008 (MARC 21, 008/23).
const FORM: usize = 23;

/// Its place in the 008 of maps and of visual materials (MARC 21, 008/29).
const FORM_OF_MAPS: usize = 29;

/// So many bytes of a text from a place on: none where it is shorter.
fn code_at(text: &[u8], from: usize, size: usize) -> &[u8]
    requires { from + size ≤ 40 }
    ensures { result.now ≡ code_at text.now from size }
{
    if text.len() < from + size {
        &[]
    } else {
        &text[from..from + size]
    }
}

/// Whether the code tells no language.
fn is_no_language(code: &[u8]) -> bool
    ensures { result ≡ is_no_language code.now }
{
    code == b"   ".as_slice() || code == b"|||".as_slice() || code == b"und".as_slice()
}

/// Pushes the language of a record, where one is told.
fn push_language(alloc: Global, languages: &mut Vec<Bytes>, content: &Content) -> Result<(), Memory>
    ensures { OnOk result (languages.new.items
        ≡ languages.old.items ++ language_of content.now) }
{
    let code = code_at(content.fixed.text.bytes(), LANGUAGE, 3);
    if !is_no_language(code) {
        languages.push(Bytes::of(alloc, code)?)?;
    }
    Ok(())
}

/// Whether two of the records have different languages. Returns `Memory` if allocation fails.
pub fn languages_differ(alloc: Global, contents: &[SharedContent]) -> Result<bool, Memory>
    ensures { IfOk result (λ are. are ≡ languages_differ contents.now) }
{
    let mut languages = Vec::new(alloc);
    for content in contents {
        push_language(alloc, &mut languages, content.content())?;
    }
    Ok(differ(languages.as_slice()))
}

/// Whether records of this type have their form of item at 29 of 008.
fn is_at_29(kind: u8) -> bool
    ensures { result ≡ is_at_29 kind }
{
    kind == b'e' || kind == b'f' || kind == b'g' || kind == b'k' || kind == b'o' || kind == b'r'
}

/// The form of item.
fn form_in(fixed: &Fixed) -> &[u8]
    ensures { result.now ≡ code_at fixed.now.text (if is_at_29 fixed.now.codes.kind then 29 else 23) 1 }
{
    if is_at_29(fixed.codes.kind) {
        code_at(fixed.text.bytes(), FORM_OF_MAPS, 1)
    } else {
        code_at(fixed.text.bytes(), FORM, 1)
    }
}

/// Pushes the form of item of a record, where one is told.
fn push_form(alloc: Global, forms: &mut Vec<Bytes>, content: &Content) -> Result<(), Memory>
    ensures { OnOk result (forms.new.items ≡ forms.old.items ++ form_of content.now) }
{
    let code = form_in(&content.fixed);
    if code != b"|".as_slice() {
        forms.push(Bytes::of(alloc, code)?)?;
    }
    Ok(())
}

/// Whether two of the records have different forms of item. Returns `Memory` if allocation fails.
pub(crate) fn forms_differ(alloc: Global, contents: &[SharedContent]) -> Result<bool, Memory>
    ensures { IfOk result (λ are. are ≡ forms_differ contents.now) }
{
    let mut forms = Vec::new(alloc);
    for content in contents {
        push_form(alloc, &mut forms, content.content())?;
    }
    Ok(differ(forms.as_slice()))
}
