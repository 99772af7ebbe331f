//! How many fields fit in a record.
ghost use Rattle.std.specs.Prelude.{◌≡◌, ◌≤◌, length, map, take, IsTrue};
ghost use Rattle.std.specs.List.{list_all};
ghost use Rattle.marc_fields.specs.Spelling.{is_short};
ghost use Rattle.catalogue_export.specs.Fitting.{fitting};

use marc_fields::encoding::{LONGEST_FRAME, stored_size};
use marc_leader::entry::ENTRY_SIZE;
use union_base::field::Field;

/// The bytes of a frame beside those of its fields: the leader and two terminators.
const FRAME_REST: usize = 26;

/// How many of the fields fit in a record. Takes no memory.
pub(crate) fn fitting_count(fields: &[&Field]) -> usize
    requires { IsTrue (list_all is_short (map (λ f. f.now) fields.now)) }
    ensures fitting { fitting (map (λ f. f.now) fields.now)
        ≡ take result (map (λ f. f.now) fields.now) }
    ensures bound { result ≤ length fields.now }
{
    let mut left = LONGEST_FRAME - FRAME_REST;
    for (count, field) in fields.iter().enumerate() {
        let taken = ENTRY_SIZE + stored_size(&field.body);
        if taken > left {
            return count;
        }
        left -= taken;
    }
    fields.len()
}
