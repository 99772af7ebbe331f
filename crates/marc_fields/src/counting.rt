//! How often a byte stands in bytes. The count takes no memory, and its loop has no branch on a byte, so that the compiler looks
//! at many bytes at once.
ghost use Rattle.std.specs.Prelude.{◌≡◌, ◌≤◌, length};
ghost use Rattle.marc_fields.specs.Tilings.{count_of};

/// How many bytes are counted in a byte.
const BLOCK: usize = 255;

/// How often the byte stands in a block.
fn count_in_block(byte: u8, block: &[u8]) -> u8
    requires { length block.now ≤ 255 }
    ensures { result ≡ count_of byte block.now }
{
    let mut count: u8 = 0;
    for each in block {
        count += (*each == byte) as u8;
    }
    count
}

/// How often the byte stands in the bytes. Takes no memory.
pub(crate) fn count_of(byte: u8, bytes: &[u8]) -> usize
    ensures { result ≡ count_of byte bytes.now }
{
    let mut count = 0;
    let mut rest = bytes;
    while !rest.is_empty() {
        let (block, behind) = rest.split_at(rest.len().min(BLOCK));
        count += count_in_block(byte, block) as usize;
        rest = behind;
    }
    count
}
