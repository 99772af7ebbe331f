//! What the union catalogue reads and writes, as traits: sources of bytes, sinks, shelves of files, and the gate round a
//! turn.
//!
//! Each trait says what its objects tell of content, and keeps a count of faults: a call answers that it failed only
//! where a count rose, so that whoever reports a failure can be held to it. The real files and streams tell no content,
//! and their counts are the trusted edge. The objects in memory tell all of it: those with a script fail at the calls
//! that it names, and the sure ones never fail.
//!
//! Nothing here keeps a buffer of its own. A read fills the caller's buffer, and a write hands on the caller's piece.
#![tactic(auto)]

pub mod failed;
pub mod file_shelf;
pub mod gate;
pub mod mem_shelf;
pub mod mem_sink;
pub mod mem_source;
mod opened_names;
mod pieces;
pub mod reader_source;
mod script;
pub mod shelf;
pub mod sink;
pub mod source;
pub mod sure_shelf;
pub mod sure_sink;
pub mod sure_source;
pub mod writer_sink;
