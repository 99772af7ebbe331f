//! MARC records in JSON: a record is written as one line (`writing`), and such a line is read as the record that it stands for
//! (`reading`). The form is this project's profile of MARC-in-JSON; specs/Values.antt says which value a record has, and
//! specs/Shapes.antt when a value stands for a record. What JSON is, and the text of a value, are serde_json's.
//!
//! Guarantee: what is written is the compact text of the record's value; a line is read as a record exactly where its value has the
//! form; a record that was written is read again as the same record. Cost: linear in the line. Writing makes no tree of values
//! between; reading makes one.
#![tactic(auto)]

pub mod reading;
pub mod writing;
