//! The status of a run that stops at an input.
ghost use Rattle.std.specs.Prelude.{◌≡◌};
ghost use Rattle.union_files.specs.Readings.{stopped_with};

use library_batches::stop::Stop;
use union_words::input::Input;
use union_words::status::Status;

/// How a run ends whose input was not read to its end for that cause. Takes no memory.
pub fn stopped_with(stop: Stop, input: Input) -> Status
    ensures { result ≡ stopped_with stop input }
{
    match stop {
        Stop::TooLong => Status::TooLong(input),
        Stop::Failed => Status::ReadFault(input),
        Stop::Memory => Status::Memory,
    }
}
