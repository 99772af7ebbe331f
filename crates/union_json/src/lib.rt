//! `tojson` and `fromjson`: a library's file written as lines of JSON, and lines of JSON written as frames.
//!
//! The source is read to its end before anything is written; what is to be written is kept in pieces that don't grow
//! (`gathered::Gathered`), and of the source itself one record or one line is kept at a time. specs/ToJson.antt and
//! specs/FromJson.antt say which texts the bytes of a source come to, and specs/Runs.antt how a run ends.
//!
//! `converter::Converter` takes a text in whatever pieces it comes. It holds one line at most, reads it as a record (marc_json),
//! spells the record as a frame (ISO 2709) and checks the frame by the nineteen rules (marc_rules). specs/Lines.antt says what a
//! line is, specs/Outcomes.antt what comes of one, and specs/Counts.antt how many came to what.
//!
//! Guarantee: the outcomes and the frames are those of the lines, in their order, whatever the pieces. Cost: linear in the text;
//! no text that is kept is copied while it grows.
#![tactic(auto)]

pub mod begun_line;
pub mod converter;
pub mod counting;
pub mod findings;
pub mod from_json;
pub mod gathered;
pub mod judging;
pub mod laws;
pub mod lines;
pub mod made;
pub mod outcome;
pub mod to_json;
pub mod written;
