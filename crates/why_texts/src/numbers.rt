//! Numbers in decimal digits.
ghost use Rattle.std.specs.Prelude.{◌≡◌, ◌++◌, OnOk, decimal};
ghost use Rattle.why_texts.specs.Ids.{count_text};

use itoa::Buffer;
use std::alloc::AllocError;

/// Adds a number.
pub fn add_number(text: &mut Vec<u8>, number: u64) -> Result<(), AllocError>
    ensures { OnOk result (text.new.items ≡ text.old.items ++ decimal number) }
{
    let mut digits = Buffer::new();
    text.extend_from_slice(digits.format(number).as_bytes())
}

/// Adds how many records there are.
pub fn add_count(text: &mut Vec<u8>, count: usize) -> Result<(), AllocError>
    ensures { OnOk result (text.new.items ≡ text.old.items ++ count_text count) }
{
    if count == 1 {
        text.extend_from_slice(b"1 record")
    } else {
        add_number(text, count as u64)?;
        text.extend_from_slice(b" records")
    }
}
