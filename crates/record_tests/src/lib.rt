//! The tests of the libraries from bytes to records: union_base, union_io, marc_leader, iso2709_frame, marc_fields, marc_parts,
//! marc_rules, marc_json, holdings_book and library_stream. Each has a module here, and `frames`, `refused_frames`, `json_lines`
//! and `streams` are what they read.
//!
//! They are apart since a crate is proved once without its tests and once with them: so each library is proved once, and
//! this crate, which is empty without its tests, once as well.
#![tactic(auto)]

#[cfg(test)]
mod frames;
#[cfg(test)]
mod holdings_book_tests;
#[cfg(test)]
mod iso2709_frame_tests;
#[cfg(test)]
mod json_lines;
#[cfg(test)]
mod library_stream_tests;
#[cfg(test)]
mod marc_fields_tests;
#[cfg(test)]
mod marc_json_tests;
#[cfg(test)]
mod marc_leader_tests;
#[cfg(test)]
mod marc_parts_tests;
#[cfg(test)]
mod marc_rules_tests;
#[cfg(test)]
mod refused_frames;
#[cfg(test)]
mod streams;
#[cfg(test)]
mod union_base_tests;
#[cfg(test)]
mod union_io_tests;
