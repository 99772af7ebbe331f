//! Texts as they are shown on one line.
ghost use Rattle.std.specs.Prelude.{◌≡◌, ◌++◌, OnOk};
ghost use Rattle.union_base.specs.OneLine.{shown_byte, shown};

use std::alloc::AllocError;

/// A byte as it is shown: a blank for a control character. Takes no memory.
fn shown_byte(byte: u8) -> u8
    ensures { result ≡ shown_byte byte }
{
    if byte < 0x20 || byte == 0x7F {
        b' '
    } else {
        byte
    }
}

/// Adds a text, as it is shown.
pub fn add_shown(text: &mut Vec<u8>, bytes: &[u8]) -> Result<(), AllocError>
    ensures { OnOk result (text.new.items ≡ text.old.items ++ shown bytes.now) }
{
    for byte in bytes {
        text.push(shown_byte(*byte))?;
    }
    Ok(())
}
