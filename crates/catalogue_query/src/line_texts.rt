//! What is told of the lines of a script or of a file of questions, and of the numbers in them.
ghost use Rattle.std.specs.Prelude.{◌≡◌, ◌++◌, OnOk};
ghost use Rattle.catalogue_query.specs.LineTexts.{ended_lines, six_digits};

use itoa::Buffer;
use std::alloc::AllocError;
use union_base::bytes::Bytes;

/// What is told of a line that begins with a known word and is in no form of it.
pub const REFUSED_WORD: &[u8] = b"refused word\n";

/// What is told of a line that begins with an unknown word.
pub const REFUSED_UNKNOWN: &[u8] = b"refused unknown\n";

/// The zeros before a number that has no digit.
const ZEROS: &[u8] = b"000000";

/// Adds a number in at least six digits.
pub fn add_six_digits(text: &mut Vec<u8>, number: u64) -> Result<(), AllocError>
    ensures { OnOk result (text.new.items ≡ text.old.items ++ six_digits number) }
{
    let mut buffer = Buffer::new();
    let digits = buffer.format(number).as_bytes();
    text.extend_from_slice(&ZEROS[digits.len().min(ZEROS.len())..])?;
    text.extend_from_slice(digits)?;
    Ok(())
}

/// Adds the lines, each with a line feed after it.
pub fn add_lines(text: &mut Vec<u8>, lines: &[Bytes]) -> Result<(), AllocError>
    ensures { OnOk result (text.new.items ≡ text.old.items ++ ended_lines lines.now) }
{
    for line in lines {
        text.extend_from_slice(line.bytes())?;
        text.push(b'\n')?;
    }
    Ok(())
}
