//! The heading and the title that a field's subfields make: the forms of their texts, joined by one blank, as
//! `heading_of` and `title_of` in `specs/Heading.antt` have them.
ghost use Rattle.std.specs.Prelude.{◌≡◌, ◌==◌, ◌||◌, false, All, IsUtf8, chars, IfOk, OnOk};
ghost use Rattle.naco_normal.specs.Heading.{heading_of, title_of, skipped};
ghost use Rattle.naco_normal.specs.Parts.{first_form, subfield_form, parts_of};
ghost use Rattle.naco_normal.specs.Words.{joined};

use crate::form::{Comma, append_form, append_text, as_text};
use std::alloc::Global;
use union_base::bytes::Bytes;
use union_base::memory::Memory;
use union_base::subfield::Subfield;
use union_base::subfields::Subfields;

/// The code of the subfield that begins a name or a title.
const MAIN_CODE: u8 = b'a';

/// The heading of a name: the forms that aren't empty, of the subfields whose code is among `codes`, in their order and
/// with one blank between each two. The first $a keeps its first comma where a letter or number stands after it; all
/// other commas go (this project's own, for the fields X00, X10 and X11 of MARC 21).
///
/// Returns `Memory` if allocation fails.
pub fn heading(alloc: Global, subfields: Subfields<'_>, codes: &[u8]) -> Result<Bytes, Memory>
    requires { All (λ s. IsUtf8 s.text) subfields }
    ensures { IfOk result (λ b. b ≡ heading_of subfields.entry codes.now) }
{
    joined_forms(alloc, subfields, codes, FirstPart::WithComma)
}

/// The form of a title: the forms that aren't empty, of the subfields whose code is among `codes`, in their order and
/// with one blank between each two. No comma is kept. The first $a is read after its first `skip` characters (Unicode
/// scalar values), where it has that many, else from its beginning (MARC 21, nonfiling characters).
///
/// Returns `Memory` if allocation fails.
pub fn title(
    alloc: Global,
    subfields: Subfields<'_>,
    codes: &[u8],
    skip: u8,
) -> Result<Bytes, Memory>
    requires { All (λ s. IsUtf8 s.text) subfields }
    ensures { IfOk result (λ b. b ≡ title_of subfields.entry codes.now skip) }
{
    joined_forms(alloc, subfields, codes, FirstPart::Behind(skip))
}

/// What is particular to the first $a.
#[derive(Clone, Copy)]
enum FirstPart {
    /// Its first comma is kept.
    WithComma,
    /// It is read after this number of characters, where it has that many.
    Behind(u8),
}

/// The forms of the subfields whose code is among the codes, with one blank between each two that aren't empty.
fn joined_forms(
    alloc: Global,
    subfields: Subfields<'_>,
    codes: &[u8],
    first: FirstPart,
) -> Result<Bytes, Memory>
    requires { All (λ s. IsUtf8 s.text) subfields }
    ensures { IfOk result (λ b. b ≡ parts_of first false codes.now subfields.entry) }
{
    let mut form = Vec::with_capacity(alloc, subfields.spelling().len())?;
    let mut seen = false;
    for subfield in subfields {
        if !codes.contains(&subfield.code) {
            continue;
        }
        append_subfield(alloc, &mut form, &subfield, first, seen)?;
        seen = seen | (subfield.code == MAIN_CODE);
    }
    Ok(Bytes::from(form))
}

/// Appends the form of one subfield; `seen` says that a $a came before it.
fn append_subfield(
    alloc: Global,
    form: &mut Vec<u8>,
    subfield: &Subfield<'_>,
    first: FirstPart,
    seen: bool,
) -> Result<(), Memory>
    requires { IsUtf8 subfield.now.text }
    ensures { OnOk result (form.new.items ≡ joined form.old.items
        (subfield_form first seen subfield.now)) }
{
    if seen || subfield.code != MAIN_CODE {
        append_text(alloc, form, subfield.text, Comma::None)
    } else {
        append_first(alloc, form, subfield.text, first)
    }
}

/// Appends the form of the first $a.
fn append_first(
    alloc: Global,
    form: &mut Vec<u8>,
    text: &[u8],
    first: FirstPart,
) -> Result<(), Memory>
    requires { IsUtf8 text.now }
    ensures { OnOk result (form.new.items ≡ joined form.old.items (first_form first text.now)) }
{
    match first {
        FirstPart::WithComma => append_text(alloc, form, text, Comma::First),
        FirstPart::Behind(0) => append_text(alloc, form, text, Comma::None),
        FirstPart::Behind(skip) => {
            let text = as_text(text);
            append_form(alloc, form, behind(text, skip), Comma::None)
        }
    }
}

/// The text without its first characters, where it has that many, else all of it.
fn behind(text: &str, skip: u8) -> &str
    ensures { chars result.now ≡ skipped skip (chars text.now) }
{
    let mut rest = text.chars();
    for _passed in 0..skip {
        let Some(_character) = rest.next() else {
            return text;
        };
    }
    rest.as_str()
}
