//! The lines on a library's frames.
//!
//! Each function appends its text to a buffer. The texts are those of specs/Reports.antt.
ghost use Rattle.std.specs.Prelude.{◌≡◌, ◌++◌, OnOk};
ghost use Rattle.library_batches.specs.Reports.{counted, refused_line, refused_lines};

use crate::refused::RefusedFrame;
use itoa::Buffer;
use std::alloc::AllocError;

/// Adds ` WORD N`.
pub fn add_counted(text: &mut Vec<u8>, word: &[u8], number: u64) -> Result<(), AllocError>
    ensures { OnOk result (text.new.items ≡ text.old.items ++ counted word.now number) }
{
    let mut digits = Buffer::new();
    text.push(b' ')?;
    text.extend_from_slice(word)?;
    text.push(b' ')?;
    text.extend_from_slice(digits.format(number).as_bytes())?;
    Ok(())
}

/// Adds `LIB refused FRAME RULE PLACE`.
fn add_refused_line(
    text: &mut Vec<u8>,
    library: &[u8],
    frame: &RefusedFrame,
) -> Result<(), AllocError>
    ensures { OnOk result (text.new.items ≡ text.old.items ++ refused_line library.now frame.now) }
{
    text.extend_from_slice(library)?;
    add_counted(text, b"refused", frame.frame)?;
    add_counted(text, frame.rule.name(), u64::from(frame.place))?;
    text.push(b'\n')?;
    Ok(())
}

/// Adds a line for each refused frame.
pub fn add_refused_lines(
    text: &mut Vec<u8>,
    library: &[u8],
    frames: &[RefusedFrame],
) -> Result<(), AllocError>
    ensures { OnOk result (text.new.items ≡ text.old.items
        ++ refused_lines library.now frames.now) }
{
    for frame in frames {
        add_refused_line(text, library, frame)?;
    }
    Ok(())
}
