//! The names of reasons.
ghost use Rattle.std.specs.Prelude.{◌≡◌, ◌++◌, OnOk};
ghost use Rattle.std.specs.List.{flat_map};
ghost use Rattle.doubt_texts.specs.Names.{doubt_name, next_name, names_text};

use edition_doubts::doubts::Doubt;
use std::alloc::AllocError;

/// The name of a reason.
pub(crate) fn doubt_name(doubt: Doubt) -> &'static [u8]
    ensures { result.now ≡ doubt_name doubt }
{
    match doubt {
        Doubt::Titles => b"titles",
        Doubt::Isbns => b"ISBNs",
        Doubt::Languages => b"languages",
        Doubt::Carriers => b"carriers",
        Doubt::Statements => b"edition statements",
        Doubt::Sets => b"set ISBN",
        Doubt::OwnNumbers => b"own numbers",
    }
}

/// Adds a comma, a blank and the name.
fn add_next(text: &mut Vec<u8>, doubt: Doubt) -> Result<(), AllocError>
    ensures { OnOk result (text.new.items ≡ text.old.items ++ next_name doubt) }
{
    text.extend_from_slice(b", ")?;
    text.extend_from_slice(doubt_name(doubt))
}

/// Adds a comma, a blank and the name for each.
fn add_later(text: &mut Vec<u8>, doubts: &[Doubt]) -> Result<(), AllocError>
    ensures { OnOk result (text.new.items ≡ text.old.items ++ flat_map next_name doubts.now) }
{
    for doubt in doubts {
        add_next(text, *doubt)?;
    }
    Ok(())
}

/// Adds the names, with a comma between two.
pub(crate) fn add_names(text: &mut Vec<u8>, doubts: &[Doubt]) -> Result<(), AllocError>
    ensures { OnOk result (text.new.items ≡ text.old.items ++ names_text doubts.now) }
{
    match doubts {
        [] => Ok(()),
        [first, rest @ ..] => {
            text.extend_from_slice(doubt_name(*first))?;
            add_later(text, rest)
        }
    }
}
