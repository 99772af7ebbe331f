//! The command `script`: a file of lines, run one after the other on one catalogue that begins empty.
//!
//! A line loads the file of a library, writes the export, lists the works, has the turns of later loads told, or asks something. Each
//! line's text is written before the next line is run, and the first fault ends the run. `run::script_run` does it, and its contract
//! is `IsScript` of specs/Runs.antt; what a line writes and how it changes the catalogue's history is `Writes` of specs/Texts.antt.
//!
//! Guarantee: what is written is exactly the text of the lines that were run, and each status comes for its own cause. Cost:
//! the script is kept whole while it runs, and a library's file is read piece by piece; memory grows with the catalogue and
//! with the refused frames of one load.
#![tactic(auto)]

mod asking;
mod line;
mod lines;
mod loading;
mod noticing;
pub mod run;
mod saying;
mod union;
