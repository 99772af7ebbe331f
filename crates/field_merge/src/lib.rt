//! The content of an edition: which records contribute to it, and which of their fields it shows.
//!
//! A record's [`content::Content`] has its one id as contributor and its fields in three kinds: the leader's codes with
//! field 008, the fields of which an edition shows one (slots), and all others (united fields). Two contents merge to the
//! union of their contributors and of their united fields; each slot keeps the field of the better [`rank::Rank`].
//!
//! Guarantee: `making::content_of` answers the content that specs/Contents.antt defines, merging is the one of
//! specs/Merging.antt and keeps the laws of `Join`, and the functions of `laws` say where the parts of a merge come from.
//! Cost: a record's fields are walked once and none is copied, the united fields are sorted once, and a merge walks both sides
//! once.
#![tactic(auto)]

pub mod content;
pub mod fixed;
pub mod laws;
pub mod making;
pub mod merging;
pub mod parts;
pub mod preference;
pub mod rank;
pub mod slot;
