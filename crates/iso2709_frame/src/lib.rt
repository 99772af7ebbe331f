//! Cuts a stream of records into its frames (ISO 2709): a frame reaches up to and with its record terminator.
//!
//! The definition is `frames`, on the whole stream. `Cutter` is fed the stream in pieces, and its cuts are those of the
//! definition whatever the pieces are, which `cut_all` shows over a list of pieces. Each byte is searched once for the
//! terminator, and each byte of a frame is copied once; of a frame that is too long nothing is kept. The room for the
//! largest frame is taken when a cutter is opened, and nothing else takes memory.
#![tactic(auto)]

pub mod cut;
pub mod cutter;
pub mod stream;
