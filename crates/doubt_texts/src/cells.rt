//! The cells of a table (RFC 4180).
ghost use Rattle.std.specs.Prelude.{◌≡◌, ◌++◌, OnOk};
ghost use Rattle.std.specs.List.{flat_map};
ghost use Rattle.doubt_texts.specs.Cells.{doubled, cell_text};

use std::alloc::AllocError;

/// Stands around a cell, and twice for one in it.
const QUOTE: u8 = b'"';

/// Adds the byte, a quotation mark twice.
fn add_doubled(text: &mut Vec<u8>, byte: u8) -> Result<(), AllocError>
    ensures { OnOk result (text.new.items ≡ text.old.items ++ doubled byte) }
{
    if byte == QUOTE {
        text.extend_from_slice(b"\"\"")
    } else {
        text.extend_from_slice(&[byte])
    }
}

/// Adds the bytes, each quotation mark twice.
fn add_each(text: &mut Vec<u8>, bytes: &[u8]) -> Result<(), AllocError>
    ensures { OnOk result (text.new.items ≡ text.old.items ++ flat_map doubled bytes.now) }
{
    for byte in bytes {
        add_doubled(text, *byte)?;
    }
    Ok(())
}

/// Adds a cell with these bytes.
pub(crate) fn add_cell(text: &mut Vec<u8>, bytes: &[u8]) -> Result<(), AllocError>
    ensures { OnOk result (text.new.items ≡ text.old.items ++ cell_text bytes.now) }
{
    text.extend_from_slice(b"\"")?;
    add_each(text, bytes)?;
    text.extend_from_slice(b"\"")?;
    Ok(())
}
