//! The bytes of one field, read.
ghost use Rattle.std.specs.Prelude.{◌≡◌, ◌-◌, ◌==◌, ◌&&◌, not, IsTrue, IfOk, length, slice_index};
ghost use Rattle.union_base.specs.Fields.{delimiter, is_subfield_code, is_tag};
ghost use Rattle.marc_fields.specs.Shapes.{are_inner, are_coded, has_control_shape, are_indicated, has_data_shape, has_shape, IsFieldOf};

use memchr::memchr;
use std::alloc::Global;
use union_base::body::{Body, DELIMITER, is_indicator, is_subfield_code};
use union_base::bytes::Bytes;
use union_base::field::Field;
use union_base::memory::Memory;

/// Whether a delimiter is not followed by a code.
fn lacks_code(byte: u8, next: u8) -> bool
    ensures { result ≡ (byte == delimiter && not (is_subfield_code next)) }
{
    (byte == DELIMITER) & !is_subfield_code(next)
}

/// Whether the bytes end in a delimiter.
fn end_in_delimiter(bytes: &[u8]) -> bool
    ensures { result ≡ (slice_index bytes.now (length bytes.now - 1) == delimiter) }
{
    match bytes {
        [.., last] => *last == DELIMITER,
        [] => false,
    }
}

/// Whether a code follows each delimiter. The loop has no branch on a byte, so that the compiler looks at many bytes at once.
/// Takes no memory.
pub(crate) fn have_codes(bytes: &[u8]) -> bool
    ensures { result ≡ are_coded bytes.now }
{
    let mut lacking = false;
    for at in 1..bytes.len() {
        lacking |= lacks_code(bytes[at - 1], bytes[at]);
    }
    !lacking && !end_in_delimiter(bytes)
}

/// Whether no byte is a delimiter.
pub fn are_undelimited(bytes: &[u8]) -> bool
    ensures { result ≡ has_control_shape bytes.now }
{
    match memchr(DELIMITER, bytes) {
        Some(_place) => false,
        None => true,
    }
}

/// Whether the bytes begin with two indicators and a delimiter. Takes no memory.
pub(crate) fn are_indicated(bytes: &[u8]) -> bool
    ensures { result ≡ are_indicated bytes.now }
{
    match bytes {
        [ind1, ind2, byte, ..] => {
            is_indicator(*ind1) && is_indicator(*ind2) && *byte == DELIMITER
        }
        _ => false,
    }
}

/// Whether the bytes are two indicators and then subfields, one at least. Takes no memory.
pub fn are_data(bytes: &[u8]) -> bool
    ensures { result ≡ has_data_shape bytes.now }
{
    are_indicated(bytes) && have_codes(bytes)
}

/// The field with that tag and these bytes, which are those between two terminators and have the shape that the tag asks for
/// (MARC 21, 'Variable fields').
pub fn read_field(alloc: Global, tag: [u8; 3], bytes: &[u8]) -> Result<Field, Memory>
    requires tag { IsTrue (is_tag tag) }
    requires inner { IsTrue (are_inner bytes.now) }
    requires shaped { IsTrue (has_shape tag bytes.now) }
    ensures { IfOk result (λ field. IsFieldOf tag bytes.now field) }
{
    let spelling = Bytes::of(alloc, bytes)?;
    Ok(Field {
        tag,
        body: Body::spelled_by(spelling),
    })
}
