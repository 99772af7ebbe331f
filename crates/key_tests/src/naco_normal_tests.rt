//! Forms, headings and titles whose expected values another program made.
ghost use Rattle.std.specs.Prelude.{All, IsUtf8, IfOk, OnOk};
ghost use Rattle.union_base.specs.Bodies.{subfields_of};

use crate::tables::{CELL_END, assert_cases};
use naco_normal::form::{Comma, normal};
use naco_normal::heading::{heading, title};
use std::alloc::Global;
use std::test::Fail;
use union_base::body::{Body, are_subfields};
use union_base::bytes::Bytes;
use union_base::subfield::Subfield;

mod cases;

#[test]
fn forms(rt: HostRuntime) -> Result<(), Fail> {
    assert_cases(&rt, rt.alloc(), cases::FORMS, 577, is_form)
}

#[test]
fn headings(rt: HostRuntime) -> Result<(), Fail> {
    assert_cases(&rt, rt.alloc(), cases::HEADINGS, 56, is_heading)
}

#[test]
fn titles(rt: HostRuntime) -> Result<(), Fail> {
    assert_cases(&rt, rt.alloc(), cases::TITLES, 125, is_title)
}

/// Whether the text of a case has the form that is expected.
fn is_form(alloc: Global, case: &str) -> Result<bool, Fail> {
    let (comma, cells) = case.split_once(CELL_END).ok_or("a text")?;
    let (text, form) = cells.split_once(CELL_END).ok_or("a form")?;
    let comma = if comma == "First" {
        Comma::First
    } else {
        Comma::None
    };
    let made = normal(alloc, text, comma)?;
    Ok(made.bytes() == form.as_bytes())
}

/// Whether the subfields of a case have the heading that is expected.
fn is_heading(alloc: Global, case: &str) -> Result<bool, Fail> {
    let (codes, cells) = case.split_once(CELL_END).ok_or("a heading")?;
    let (expected, cells) = cells.split_once(CELL_END).unwrap_or((cells, ""));
    let body = body_of(alloc, cells)?;
    let made = heading(alloc, body.subfields(), codes.as_bytes())?;
    Ok(made.bytes() == expected.as_bytes())
}

/// Whether the subfields of a case have the title that is expected.
fn is_title(alloc: Global, case: &str) -> Result<bool, Fail> {
    let (codes, cells) = case.split_once(CELL_END).ok_or("characters to skip")?;
    let (skip, cells) = cells.split_once(CELL_END).ok_or("a title")?;
    let (expected, cells) = cells.split_once(CELL_END).unwrap_or((cells, ""));
    let skip = skip.parse::<u8>()?;
    let body = body_of(alloc, cells)?;
    let made = title(alloc, body.subfields(), codes.as_bytes(), skip)?;
    Ok(made.bytes() == expected.as_bytes())
}

/// A field's content from cells such as `a=Hill, Ann`; a control field's where there are none.
fn body_of(alloc: Global, cells: &str) -> Result<Body, Fail>
    ensures { IfOk result (λ b. All (λ s. IsUtf8 s.text) (subfields_of b)) }
{
    let mut subfields = Vec::new(alloc);
    for cell in cells.split(CELL_END) {
        push_subfield(&mut subfields, cell)?;
    }
    if subfields.is_empty() {
        return Ok(Body::control(Bytes::of(alloc, b"")?));
    }
    if !are_subfields(&subfields) {
        return Err("no subfields")?;
    }
    Ok(Body::of_subfields(alloc, b' ', b' ', &subfields)?)
}

fn push_subfield<'a>(subfields: &mut Vec<Subfield<'a>>, cell: &'a str) -> Result<(), Fail>
    requires { All (λ s. IsUtf8 s.text) subfields.old.items }
    ensures { OnOk result (All (λ s. IsUtf8 s.text) subfields.new.items) }
{
    let Some((code, text)) = cell.split_once('=') else {
        return Ok(());
    };
    let code = *code.as_bytes().first().ok_or("a code")?;
    subfields.push(Subfield {
        code,
        text: text.as_bytes(),
    })?;
    Ok(())
}
