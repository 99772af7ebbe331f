//! The leader of a MARC 21 record and the entries of its directory (ISO 2709; MARC 21 Format for Bibliographic Data,
//! 'Leader' and 'Directory'), read from their bytes and written back.
//!
//! What is read is the value that stands in the bytes, or the first rule that they break: the definitions `leader_of` and
//! `entry_of`. What is written is `leader_text` and `entry_text`, and it is read as the same value; what was read is
//! written as the same bytes. Each call looks at each byte once and takes no memory.
#![tactic(auto)]

pub mod codes;
pub mod entry;
pub mod leader;
pub mod numeral;
