//! MARC 21 records and the frames that spell them (ISO 2709; MARC 21, record structure): `encoding` writes a record as a
//! frame, `decoding` reads a frame as the record that it spells or names the first rule that fails, and `laws` has what
//! holds of both. The relation of frame and record is `Spells`, of specs/Spelling, and the rules are those of specs/Rules.
//! Both directions are linear in the frame.
#![tactic(auto)]

pub use marc_parts::marc_record;

mod counting;
pub mod decoding;
pub mod directory;
pub mod encoding;
pub mod ending;
pub mod fields;
mod has_field;
pub mod head;
pub mod laws;
pub mod parts;
pub mod rules;
pub mod shape;
pub mod tiling;
