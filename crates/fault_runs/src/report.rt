//! Lines that say how runs ended.
use crate::files::Ended;
use itoa::Buffer;
use std::alloc::AllocError;

/// Up to how many bytes an output is shown; of a longer one only the length is.
const SHOWN: usize = 80;

/// Adds a number in decimal digits.
pub fn add_number(text: &mut Vec<u8>, number: u64) -> Result<(), AllocError> {
    let mut buffer = Buffer::new();
    text.extend_from_slice(buffer.format(number).as_bytes())
}

/// Adds what was written on an output, or its length.
fn add_output(text: &mut Vec<u8>, output: &[u8]) -> Result<(), AllocError> {
    if output.is_empty() {
        text.extend_from_slice(b"nothing\n")
    } else if output.len() <= SHOWN {
        text.extend_from_slice(output)
    } else {
        add_number(text, output.len() as u64)?;
        text.extend_from_slice(b" bytes\n")
    }
}

/// Adds the lines on a run: its name and number, and what was written on its two outputs.
pub fn add_ended(text: &mut Vec<u8>, name: &[u8], ended: &Ended) -> Result<(), AllocError> {
    text.extend_from_slice(name)?;
    text.extend_from_slice(b": status ")?;
    add_number(text, ended.number as u64)?;
    text.extend_from_slice(b"\n  out: ")?;
    add_output(text, ended.out.as_slice())?;
    text.extend_from_slice(b"  notes: ")?;
    add_output(text, ended.notes.as_slice())
}
