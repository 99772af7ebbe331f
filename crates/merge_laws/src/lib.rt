//! Generic entity resolution: which values of a list are one thing, and what they merge to.
//!
//! A type that can say whether two of its values match, and what two of them merge to, gets from here the definition of
//! the resolution of a list, the facts on it, and a plain resolver. The names match, merge, derive, dominate and
//! resolve are those of Benjelloun and others, "Swoosh: a generic approach to entity resolution".
//!
//! Guarantee: `swoosh::resolve_plain` answers a resolution of its list, for every type that is `Resolvable`, and the
//! functions of `laws` carry what follows for every resolution, among it that there is only one. Cost: at most k * k
//! match tests for k values. The definitions are in specs/Resolution.antt.
#![tactic(auto)]

pub mod join;
pub mod laws;
pub mod resolvable;
pub mod steps;
pub mod swoosh;
