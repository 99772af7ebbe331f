//! The key of the work that a record belongs to.
//!
//! Guarantee: `work_key::work_key` answers exactly the key that `specs/WorkKeys.antt` defines, by the headings and titles of
//! naco_normal. Cost: each field that the key needs is read once, in time linear in its texts; room for a key is reserved
//! once.
#![tactic(auto)]

pub mod fields;
pub mod laws;
pub mod names;
mod texts;
pub mod work_key;
