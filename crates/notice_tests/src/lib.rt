//! The tests of change_notices over the catalogue: the notices of turns, what followers take and refuse, and followers of drawn
//! histories, of which one reads the text of the notices alone.
#![tactic(auto)]

#[cfg(test)]
mod drawing;
#[cfg(test)]
mod followed_tests;
#[cfg(test)]
mod follower_tests;
#[cfg(test)]
mod text_follower;
#[cfg(test)]
mod told_tests;
#[cfg(test)]
mod worked;
