//! What the commands on libraries' files write, and how they end: `check` of a file, and what `export`, `works` and `watch` show of a
//! catalogue that was loaded, with the reports and the line of a run that ended early.
//!
//! `shelved::check_file` checks a file (`IsCheck` of specs/Runs.antt). `showing::write_shown` writes an export or the list of works,
//! and the reports after it (`Shows` there). `watching::write_answered` does so for `watch`: `ask_file::AskFile::read` reads the lines
//! of a file of questions, `questions::divide` says which of the questions are asked beside the load and which after it, and
//! `writing::write_watch` writes a line for each turn of the history and then the answer to each line of the file, or why it is
//! refused. The text is `watch_text` of specs/WatchTexts.antt; what must hold of a whole run of `watch` is `IsWatchRun` of
//! specs/WatchRuns.antt, and of one of `export` or `works` `IsUnionRun` of specs/Runs.antt.
//!
//! Guarantee: each text is exactly the one that is defined, or a prefix of it where a write failed; the turn lines of `watch` alone
//! determine the history that is told, by the law of `laws`. Cost: a check keeps the refused frames alone; each line of a file of
//! questions is looked at once and borrowed; what is written is handed on in pieces, so that memory grows with the longest answer
//! and with the reports.
#![tactic(auto)]

pub mod answered;
pub mod ask_file;
pub mod ask_line;
pub mod check;
pub mod counting;
pub mod laws;
mod lines;
pub mod notes;
pub mod questions;
pub mod shelved;
pub mod showing;
pub mod shown;
pub mod tally;
pub mod watching;
pub mod writing;
