//! The files of a command: how they are opened and read, what its libraries deliver, and what came of it.
//!
//! `opening::open_rest` opens the file of each library in the order of the command, before any of them is read; where one cannot be
//! opened, no later one is tried. `text_file::read_text_file` opens and reads a file whole: a script, a file of questions, or a
//! library's file. `stops::stopped_with` and `endings::end_with` say with which status a run ends at an input. `reports::Reports` takes
//! the report of each library, one after the other, in whatever way they are loaded.
//!
//! Definitions: `ReadsFile` of specs/Readings.antt says it of a file, `ReadsInTurn` of several, and `Reads` of a source;
//! specs/Limits.antt which of several inputs is the first that has more bytes than are read of it (how many these are, and for which
//! causes a run stops at one, says union_words); specs/Deliveries.antt what a file delivers, specs/Unions.antt
//! what a catalogue is that was loaded with it, specs/Inputs.antt for which causes a run stops at a file, and specs/Courses.antt what
//! came of each library's file. proofs/CourseLaws.antt has the law on which each load rests: files that were read whole, and whose
//! batches stand in the history in their order, make a union.
//!
//! Cost: of memory a place for each library, and the text of the reports; a text that is read whole is kept, with room for one piece
//! of 65,536 bytes.
#![tactic(auto)]

pub mod endings;
pub mod laws;
pub mod loaded;
pub mod opened_file;
pub mod opening;
pub mod reports;
pub mod stops;
pub mod text_file;
pub mod whole;
