//! The plan of a turn: what a batch makes of a catalogue, worked out before anything of the catalogue changes.
//!
//! Nothing of the catalogue changes while a turn is planned, so where memory runs out it is as before. There are two ways to plan:
//! [`one_by_one`] serves `apply` and `apply_told` of catalogue_core, and so the commands `script` and `follow`; [`prepared`] serves
//! `apply_prepared`, and so `watch` and `trial`; `export` and `works` plan no turn, since they resolve once at the end. Both take the
//! [`steps`], and catalogue_core installs both plans alike. What holds of a plan is in specs/Plans.antt.
//!
//! Guarantee: by a plan the records of the history and of the batch are current, each is found where it was loaded, and the view of
//! the changed blocks is what they resolve to.
//! Cost: at most the reach of the batch in match tests (specs/Reaches.antt, specs/PreparedReaches.antt).
#![tactic(auto)]

pub mod context;
pub mod keeping;
pub mod one_by_one;
pub mod plan;
pub mod prepared;
pub mod steps;
