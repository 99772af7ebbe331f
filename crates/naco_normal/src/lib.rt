//! The normal form by which names and titles meet: `form::normal` of a text, `heading::heading` and `heading::title` of
//! a field's subfields.
//!
//! The form follows the NACO normalization rules in outline; which characters are kept, replaced or deleted is this
//! project's own. Its nine steps are nine functions on lists of characters in `specs/Normal.antt`, and what the calls
//! answer is exactly their composition in UTF-8: two texts meet where their forms are equal byte for byte.
//! Decomposition, case folding and categories are Unicode's, as the crates `unicode_normalization`, `caseless` and
//! `unicode` have them.
//!
//! Cost: a text of ASCII takes one pass over its bytes, and one allocation for the whole form, heading or title. A text
//! whose characters all lie below U+0500 takes a look into a table for each, and one list of characters. Any other text is
//! decomposed, folded and decomposed again, in a few passes over lists of its characters. All is linear in the text, but
//! for runs of combining marks in such a text, which are sorted.
#![tactic(auto)]

mod ascii;
pub mod form;
pub mod heading;
mod letters;
mod table;
mod words;
