//! What the refused records of a report are: where each is in its library's file, which record it is, what the rule that it
//! breaks says, and what to do.
//!
//! A report, as `check` and `export` write it, has a line `LIB refused FRAME RULE PLACE` for each refused record. `run::table_of`
//! reads the libraries' files again, frame by frame, and makes a row for each such line, or says at which file the run stops. A row is
//! determined by the line and the frame of that number alone; the frames are those that every command cuts (`laws`).
//!
//! Definitions: specs/Located.antt for where the frames of a file are, specs/Reports.antt for the lines of a report,
//! specs/Glances.antt for what is read of a refused frame, specs/Rows.antt and specs/Texts.antt for what is written.
//!
//! Cost: each byte of a file is looked at once. Memory grows with the report, and never with a file.
#![tactic(auto)]

pub mod broken;
pub mod byte_reader;
pub mod conversion;
pub mod explain;
pub mod form;
pub mod frame;
pub mod glance;
pub mod laws;
pub mod locator;
pub mod reported;
pub mod request;
pub mod rules;
pub mod run;
pub mod stop;
pub mod table;
mod texts;
mod words;
