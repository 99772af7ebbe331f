//! What became of an id that has no current record.
ghost use Rattle.std.specs.Prelude.{◌≡◌, ◌++◌, OnOk};
ghost use Rattle.std.specs.List.{list_any};
ghost use Rattle.std.specs.Option.{option_copied};
ghost use Rattle.union_why.specs.Fates.{absent_text, failure_text, fate_text, frame_text, refusals_text, refused_text};
ghost use Rattle.union_why.specs.Fates.{refusal_text, shown_text, shows, withdrawn_text};

use marc_fields::rules::Failure;
use std::alloc::AllocError;
use union_base::library_code::LibraryCode;
use union_base::record_id::RecordId;
use union_keys::refused::Refused;
use union_keys::standing::Standing;
use why_texts::ids::add_id;
use why_texts::numbers::add_number;

/// Adds a frame of a library's file: its number, and how many bytes are before it.
fn add_frame(
    text: &mut Vec<u8>,
    library: &LibraryCode,
    number: u64,
    first: u64,
) -> Result<(), AllocError>
    ensures { OnOk result (text.new.items
        ≡ text.old.items ++ frame_text library.now number first) }
{
    text.extend_from_slice(b"frame ")?;
    add_number(text, number)?;
    text.extend_from_slice(b" of ")?;
    text.extend_from_slice(library.bytes())?;
    text.extend_from_slice(b", at byte ")?;
    add_number(text, first)?;
    Ok(())
}

/// Adds a rule that is broken, and where, as a report has them.
fn add_failure(text: &mut Vec<u8>, failure: &Failure) -> Result<(), AllocError>
    ensures { OnOk result (text.new.items ≡ text.old.items ++ failure_text failure.now) }
{
    text.extend_from_slice(failure.rule.name())?;
    text.extend_from_slice(b" ")?;
    add_number(text, u64::from(failure.place))?;
    Ok(())
}

/// Adds that the last accepted record of the id withdraws it.
fn add_withdrawn(text: &mut Vec<u8>, id: &RecordId, last: &Standing) -> Result<(), AllocError>
    ensures { OnOk result (text.new.items ≡ text.old.items ++ withdrawn_text id.now last.now) }
{
    add_id(text, id)?;
    text.extend_from_slice(b" is not current: withdrawn by ")?;
    add_frame(text, &last.id.library, last.number, last.first)?;
    text.extend_from_slice(b"\n")?;
    Ok(())
}

/// Adds a refused frame, and the rule that it breaks.
fn add_refusal(text: &mut Vec<u8>, frame: &Refused) -> Result<(), AllocError>
    ensures { OnOk result (text.new.items ≡ text.old.items ++ refusal_text frame.now) }
{
    add_frame(text, &frame.id.library, frame.number, frame.first)?;
    text.extend_from_slice(b", is refused: ")?;
    add_failure(text, &frame.failure)?;
    Ok(())
}

/// Adds that a frame that shows the id is refused.
fn add_refused(text: &mut Vec<u8>, id: &RecordId, frame: &Refused) -> Result<(), AllocError>
    ensures { OnOk result (text.new.items ≡ text.old.items ++ refused_text id.now frame.now) }
{
    add_id(text, id)?;
    text.extend_from_slice(b" is not current: ")?;
    add_refusal(text, frame)?;
    text.extend_from_slice(b"\n")?;
    Ok(())
}

/// Adds that no accepted record has the id, and no refused frame shows it.
fn add_absent(text: &mut Vec<u8>, id: &RecordId) -> Result<(), AllocError>
    ensures { OnOk result (text.new.items ≡ text.old.items ++ absent_text id.now) }
{
    add_id(text, id)?;
    text.extend_from_slice(
        b" is not current: no accepted record has this id, and no refused frame shows it\n",
    )
}

/// Whether the refused frame shows the id.
fn shows(id: &RecordId, frame: &Refused) -> bool
    ensures { result ≡ shows id.now frame.now }
{
    id.cmp(&frame.id).is_eq()
}

/// Whether a refused frame shows the id.
fn is_shown(id: &RecordId, refused: &[Refused]) -> bool
    ensures { result ≡ list_any (shows id.now) refused.now }
{
    refused.iter().any(|frame| shows(id, frame))
}

/// Adds a line where the refused frame shows the id.
fn add_shown(text: &mut Vec<u8>, id: &RecordId, frame: &Refused) -> Result<(), AllocError>
    ensures { OnOk result (text.new.items ≡ text.old.items ++ shown_text id.now frame.now) }
{
    if shows(id, frame) {
        add_refused(text, id, frame)
    } else {
        Ok(())
    }
}

/// Adds a line for each refused frame that shows the id.
fn add_refusals(text: &mut Vec<u8>, id: &RecordId, refused: &[Refused]) -> Result<(), AllocError>
    ensures { OnOk result (text.new.items ≡ text.old.items ++ refusals_text id.now refused.now) }
{
    for frame in refused {
        add_shown(text, id, frame)?;
    }
    Ok(())
}

/// Adds why the id has no current record, by the last accepted record of it, if there is one, and the refused frames: nothing where that
/// record is current.
pub fn add_fate(
    text: &mut Vec<u8>,
    id: &RecordId,
    last: Option<&Standing>,
    refused: &[Refused],
) -> Result<(), AllocError>
    ensures { OnOk result (text.new.items
        ≡ text.old.items ++ fate_text id.now (option_copied last.entry) refused.now) }
{
    match last {
        None => {
            if is_shown(id, refused) {
                add_refusals(text, id, refused)
            } else {
                add_absent(text, id)
            }
        }
        Some(standing) => {
            if standing.edition.is_none() {
                add_withdrawn(text, id, standing)?;
                add_refusals(text, id, refused)
            } else {
                Ok(())
            }
        }
    }
}
