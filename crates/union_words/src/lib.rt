//! The words of the union catalogue's command line, how a run ends, and the texts that the program has of its own.
//!
//! `Job::read` answers exactly what the words ask for (`specs/Words.antt`). Beside it are the numbers that words give
//! (`specs/Numbers.antt`), the lines of a script or of a file of questions (`specs/Lines.antt`), the statuses with their
//! numbers and lines (`specs/Statuses.antt`, `specs/Texts.antt`), and the texts of `--help` and `--version`.
//! `specs/Flows.antt` and `specs/Stops.antt` say what goes in and out of a run, and for which causes it stops at an input. Nothing
//! here takes memory, reads or writes: each answer borrows what it was handed. The work is linear in the words but for the
//! comparison of the codes of one command, each with each.
#![tactic(auto)]

pub mod form;
pub mod input;
pub mod job;
pub mod libraries;
pub mod library_file;
pub mod lines;
pub mod loading;
mod names;
pub mod number;
pub mod options;
pub mod prefer;
pub mod script_line;
pub mod status;
pub mod texts;
pub mod trial;
pub mod workers;
