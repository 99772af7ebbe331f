//! The frames of a library's source, one after the other, in whatever pieces the source gives its bytes.
//!
//! `FrameReader` hands out the frames of the first `limit` bytes of a source (ISO 2709), and then answers that the source
//! ended there, or that it is too long. The definitions are `frames_ahead` and `is_too_long`, of specs/Streaming, on the
//! bytes that the source has left, and what an answer says of them is `Answers`, of specs/Answering. Each byte is searched
//! once for the end of its frame and copied once, from the piece that was read to its frame. The room for a piece and for
//! the largest frame is taken when a reader is opened, and nothing else takes memory.
#![tactic(auto)]

pub mod answer;
pub mod course;
pub mod frame_reader;
mod piece;
