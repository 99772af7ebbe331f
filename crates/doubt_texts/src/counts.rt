//! How often each reason stands.
ghost use Rattle.std.specs.Prelude.{◌≡◌, ◌++◌, OnOk, count_by};
ghost use Rattle.std.specs.List.{flat_map};
ghost use Rattle.doubt_texts.specs.Counts.{number_of, is_same, count_line, counts_text};

use crate::names::doubt_name;
use edition_doubts::doubts::{ALL, Doubt};
use std::alloc::AllocError;
use why_texts::numbers::add_number;

/// The place of a reason among all.
fn number_of(doubt: Doubt) -> u8
    ensures { result ≡ number_of doubt }
{
    match doubt {
        Doubt::Titles => 0,
        Doubt::Isbns => 1,
        Doubt::Languages => 2,
        Doubt::Carriers => 3,
        Doubt::Statements => 4,
        Doubt::Sets => 5,
        Doubt::OwnNumbers => 6,
    }
}

fn is_same(one: Doubt, other: Doubt) -> bool
    ensures { result ≡ is_same one other }
{
    number_of(one) == number_of(other)
}

/// How many of the reasons are this one.
fn count_of(doubts: &[Doubt], wanted: Doubt) -> usize
    ensures { result ≡ count_by (is_same wanted) doubts.now }
{
    doubts
        .iter()
        .filter(|doubt| is_same(wanted, **doubt))
        .count()
}

/// Adds the line of a reason.
fn add_count_line(text: &mut Vec<u8>, doubts: &[Doubt], wanted: Doubt) -> Result<(), AllocError>
    ensures { OnOk result (text.new.items ≡ text.old.items ++ count_line doubts.now wanted) }
{
    text.extend_from_slice(doubt_name(wanted))?;
    text.extend_from_slice(b" ")?;
    add_number(text, count_of(doubts, wanted) as u64)?;
    text.extend_from_slice(b"\n")?;
    Ok(())
}

/// Adds a line for each of the wanted reasons.
fn add_count_lines(text: &mut Vec<u8>, doubts: &[Doubt], wanted: &[Doubt]) -> Result<(), AllocError>
    ensures { OnOk result (text.new.items
        ≡ text.old.items ++ flat_map (count_line doubts.now) wanted.now) }
{
    for doubt in wanted {
        add_count_line(text, doubts, *doubt)?;
    }
    Ok(())
}

/// Adds a line for each reason, with how often it is among those of the editions.
pub(crate) fn add_counts(text: &mut Vec<u8>, doubts: &[Doubt]) -> Result<(), AllocError>
    ensures { OnOk result (text.new.items ≡ text.old.items ++ counts_text doubts.now) }
{
    add_count_lines(text, doubts, &ALL)
}
