//! Ids as text.
ghost use Rattle.std.specs.Prelude.{◌≡◌, ◌++◌, OnOk};
ghost use Rattle.why_texts.specs.Ids.{id_text, ids_text, more_ids, plus_id};

use std::alloc::AllocError;
use union_base::record_id::RecordId;

/// Adds `LIB.CTL`.
pub fn add_id(text: &mut Vec<u8>, id: &RecordId) -> Result<(), AllocError>
    ensures { OnOk result (text.new.items ≡ text.old.items ++ id_text id.now) }
{
    text.extend_from_slice(id.library.bytes())?;
    text.push(b'.')?;
    text.extend_from_slice(id.control.bytes())?;
    Ok(())
}

/// Adds a plus sign and an id for each.
fn add_more(text: &mut Vec<u8>, ids: &[RecordId]) -> Result<(), AllocError>
    ensures { OnOk result (text.new.items ≡ text.old.items ++ more_ids ids.now) }
{
    for id in ids {
        add_plus(text, id)?;
    }
    Ok(())
}

/// Adds a plus sign and an id.
fn add_plus(text: &mut Vec<u8>, id: &RecordId) -> Result<(), AllocError>
    ensures { OnOk result (text.new.items ≡ text.old.items ++ plus_id id.now) }
{
    text.push(b'+')?;
    add_id(text, id)
}

/// Adds the ids, with a plus sign between two.
pub fn add_ids(text: &mut Vec<u8>, ids: &[RecordId]) -> Result<(), AllocError>
    ensures { OnOk result (text.new.items ≡ text.old.items ++ ids_text ids.now) }
{
    match ids {
        [] => Ok(()),
        [first, rest @ ..] => {
            add_id(text, first)?;
            add_more(text, rest)
        }
    }
}
