//! The nineteen rules on a frame of a MARC 21 record (ISO 2709; MARC 21): `check_frame` answers the record that the frame
//! spells, or the first rule that it breaks with its place. The definition is `first_rule`, of specs/NineteenRules. Linear
//! in the frame.
#![tactic(auto)]

pub mod check;
pub mod contents;
pub mod laws;
pub mod required_fields;
