//! The editions that deserve a look, one after the other.
ghost use Rattle.std.specs.Prelude.{◌≡◌, ◌++◌, OnOk, IfOk};
ghost use Rattle.std.specs.Option.{option_copied};
ghost use Rattle.edition_derivations.specs.Steps.{IsEditionOf};
ghost use Rattle.edition_doubts.specs.Groups.{pairs_of, AreEditions};
ghost use Rattle.doubt_texts.specs.Editions.{is_merged, told_doubts, doubts_in, told_line, AddsEdition, AddsEach};
ghost use Rattle.doubt_texts.specs.Editions.{head_text, foot_text, IsListing};

use crate::counts::add_counts;
use crate::form::Form;
use crate::lines::{add_line, add_row};
use catalogue_editions::edition::Edition;
use edition_derivations::merging::derivation;
use edition_derivations::step::Step;
use edition_doubts::doubts::{Doubt, doubts_of};
use edition_doubts::groups::Group;
use edition_doubts::steps::doubtful_step;
use std::alloc::{AllocError, Global};
use union_base::memory::Memory;

/// Whether the edition is of several records.
fn is_merged(edition: &Edition) -> bool
    ensures { result ≡ is_merged edition.now }
{
    edition.contributors().as_slice().len() > 1
}

/// The reasons that stand of a merged edition, by its records; none where it is of one record.
fn told_doubts(alloc: Global, edition: &Edition, members: &[Edition]) -> Result<Vec<Doubt>, Memory>
    ensures { IfOk result (λ doubts. doubts.items ≡ told_doubts edition.now members.now) }
{
    if is_merged(edition) {
        doubts_of(alloc, members)
    } else {
        Ok(Vec::new(alloc))
    }
}

/// Adds an edition with its reasons and a step.
fn add_told(
    alloc: Global,
    text: &mut Vec<u8>,
    form: Form,
    edition: &Edition,
    doubts: &[Doubt],
    step: Option<&Step>,
) -> Result<(), AllocError>
    ensures { OnOk result (text.new.items ≡ text.old.items
        ++ told_line form edition.now doubts.now (option_copied step.entry)) }
{
    match form {
        Form::Lines => add_line(text, edition, doubts, step),
        Form::Table => add_row(alloc, text, edition, doubts, step),
    }
}

/// Adds an edition with its reasons, by its records, and the step that first brings together records of which a reason stands.
fn add_edition(
    alloc: Global,
    text: &mut Vec<u8>,
    form: Form,
    edition: &Edition,
    members: &[Edition],
    doubts: &[Doubt],
) -> Result<(), Memory>
    requires { IsEditionOf members.now edition.now }
    ensures { OnOk result (AddsEdition form edition.now members.now doubts.now
        text.old.items text.new.items) }
{
    if doubts.is_empty() {
        return Ok(());
    }
    let steps = derivation(alloc, members, edition)?;
    let step = doubtful_step(alloc, members, steps.as_slice())?;
    add_told(alloc, text, form, edition, doubts, step)?;
    Ok(())
}

/// Adds an edition, if a reason stands of it, and its reasons.
fn add_group(
    alloc: Global,
    text: &mut Vec<u8>,
    all: &mut Vec<Doubt>,
    form: Form,
    group: &Group,
) -> Result<(), Memory>
    requires { IsEditionOf group.now.members.items group.now.edition }
    ensures text { OnOk result (AddsEdition form group.now.edition group.now.members.items
        (told_doubts group.now.edition group.now.members.items) text.old.items text.new.items) }
    ensures doubts { OnOk result (all.new.items ≡ all.old.items
        ++ told_doubts group.now.edition group.now.members.items) }
{
    let members = group.members.as_slice();
    let mut doubts = told_doubts(alloc, &group.edition, members)?;
    add_edition(
        alloc,
        text,
        form,
        &group.edition,
        members,
        doubts.as_slice(),
    )?;
    all.append(&mut doubts)?;
    Ok(())
}

/// Adds each of the editions of which a reason stands, and answers all reasons.
fn add_editions(
    alloc: Global,
    text: &mut Vec<u8>,
    form: Form,
    groups: &[Group],
) -> Result<Vec<Doubt>, Memory>
    requires { AreEditions (pairs_of groups.now) }
    ensures text { OnOk result (AddsEach form (pairs_of groups.now)
        text.old.items text.new.items) }
    ensures doubts { IfOk result (λ doubts. doubts.items ≡ doubts_in (pairs_of groups.now)) }
{
    let mut all = Vec::new(alloc);
    for group in groups {
        add_group(alloc, text, &mut all, form, group)?;
    }
    Ok(all)
}

/// What a list begins with.
fn head(form: Form) -> &'static [u8]
    ensures { result.now ≡ head_text form }
{
    match form {
        Form::Lines => b"",
        Form::Table => b"edition,records,reasons,step\r\n",
    }
}

/// Adds what a list ends with.
fn add_foot(text: &mut Vec<u8>, form: Form, doubts: &[Doubt]) -> Result<(), AllocError>
    ensures { OnOk result (text.new.items ≡ text.old.items ++ foot_text form doubts.now) }
{
    match form {
        Form::Lines => add_counts(text, doubts),
        Form::Table => Ok(()),
    }
}

/// The list of the editions of which a reason stands. Returns `Memory` if allocation fails.
pub fn listing(alloc: Global, form: Form, groups: &[Group]) -> Result<Vec<u8>, Memory>
    requires { AreEditions (pairs_of groups.now) }
    ensures { IfOk result (λ text. IsListing form (pairs_of groups.now) text.items) }
{
    let mut text = Vec::from_slice(alloc, head(form))?;
    let doubts = add_editions(alloc, &mut text, form, groups)?;
    add_foot(&mut text, form, doubts.as_slice())?;
    Ok(text)
}
