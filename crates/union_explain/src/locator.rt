//! The frames of a source, one after the other, each with its place.
ghost use Rattle.std.specs.Prelude.{◌≡◌, ◌≤◌, ◌<◌, ◌^◌, ℕ, [], Err, IfOk, MatchResult, Some, None, if◌then◌else◌};
ghost use Rattle.std.specs.declared.option.Option.{Option};
ghost use Rattle.union_explain.specs.Locating.{HandsAfter, HandsNext, LocatorGoesOn};
ghost use Rattle.union_explain.specs.Readings.{CountsFaults, IsLong, ahead};

use crate::byte_reader::ByteReader;
use crate::frame::Frame;
use crate::stop::Stop;
use iso2709_frame::cut::RECORD_TERMINATOR;
use std::alloc::Global;
use std::marker::Model;
use union_base::memory::Memory;
use union_io::source::Source;

/// Hands out the frames of a source. Contracts see the bytes that were read and not yet looked at, how many were looked at,
/// and the frame that was handed out last.
#[derive(Drop)]
pub struct Locator {
    reader: ByteReader,
    frame: Frame,
}

impl Model for Locator {
    ghost use Rattle.union_explain.specs.Locating.{Locating, locating_of};

    ghost Value = { Locating };

    ghost view = { locating_of };
}

impl Locator {
    /// A new locator. It takes the room of a piece; a frame takes its own when it is handed out.
    pub fn open(alloc: Global) -> Result<Locator, Memory>
        ensures unread { IfOk result (λ locator. locator.unread ≡ []) }
        ensures at { IfOk result (λ locator. locator.at ≡ 0) }
    {
        Ok(Locator {
            reader: ByteReader::open(alloc)?,
            frame: Frame::new(alloc),
        })
    }

    /// The frame that was handed out last. Takes no memory.
    pub fn frame(&self) -> &Frame
        ensures { result.now ≡ self.now.frame }
    {
        &self.frame
    }

    /// Whether there is a next frame, which is handed out then.
    pub fn next<S: Source>(&mut self, source: &mut S) -> Result<bool, Stop>
        ensures name { S.name source.new ≡ S.name source.old }
        ensures gives { IfOk result
            (HandsNext self.old (S.left source.old) self.new (S.left source.new)) }
        ensures goes { IfOk result (λ _.
            LocatorGoesOn self.old (S.left source.old) self.new (S.left source.new)) }
        ensures long { result ≡ Err Stop.TooLong
            → IsLong self.old.at (ahead self.old.unread (S.left source.old)) }
        ensures faults { CountsFaults (S.faults source.old) (S.faults source.new) result }
    {
        self.frame.begin(self.reader.at());
        loop {
            match self.reader.next(source)? {
                None => return Ok(self.frame.size() > 0),
                Some(byte) => {
                    self.frame.add(byte)?;
                    if byte == RECORD_TERMINATOR {
                        return Ok(true);
                    }
                }
            }
        }
    }

    /// Whether there is a frame after `count` others, which is handed out then.
    pub fn nth<S: Source>(&mut self, count: u64, source: &mut S) -> Result<bool, Stop>
        ensures name { S.name source.new ≡ S.name source.old }
        ensures finds { IfOk result
            (HandsAfter count self.old (S.left source.old) self.new (S.left source.new)) }
        ensures goes { IfOk result (λ _.
            LocatorGoesOn self.old (S.left source.old) self.new (S.left source.new)) }
        ensures long { result ≡ Err Stop.TooLong
            → IsLong self.old.at (ahead self.old.unread (S.left source.old)) }
        ensures faults { CountsFaults (S.faults source.old) (S.faults source.new) result }
    {
        let mut left = count;
        while left > 0 {
            if !self.next(source)? {
                return Ok(false);
            }
            left -= 1;
        }
        self.next(source)
    }
}
