//! The union of libraries' files, loaded by sessions at one desk, with questions beside the load and after it.
//!
//! `sessions::load_and_ask` opens each file, runs a session for each and an asker beside them, and answers the catalogue, the
//! reports and the replies. Whatever the order of the turns, the history has the batches of each library in their order and no
//! others. Where it answers a status, that is the first of these: a file that could not be opened, a file that could not be read,
//! a file that is too long, or lack of memory. Definitions: specs/Sessions.antt for the sessions, specs/Asked.antt for a pass that
//! asked, `AreReplies` of catalogue_query for the replies, and those of union_files for what was loaded and for the causes.
//!
//! Cost: that of the sessions, and of memory what is loaded.
#![tactic(auto)]

pub mod asking;
pub mod faults;
pub mod session_ends;
pub mod session_starts;
pub mod sessions;
pub mod start;
