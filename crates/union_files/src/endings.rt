//! The status of a run that came to its end.
ghost use Rattle.std.specs.Prelude.{◌≡◌, IsTrue};
ghost use Rattle.union_files.specs.Endings.{end_with};
ghost use Rattle.union_words.specs.Statuses.{is_done};

use library_batches::refused::RefusedFrame;
use union_words::status::Status;

/// How a run ends that refused these frames, and came to its end. Takes no memory.
pub fn end_with(refused: &[RefusedFrame]) -> Status
    ensures value { result ≡ end_with refused.now }
    ensures done { IsTrue (is_done result) }
{
    if refused.is_empty() {
        Status::Done
    } else {
        Status::DoneWithRefusals
    }
}
