//! The trial: records that a generator makes are loaded as those of three libraries, and the catalogue is measured.
#![tactic(auto)]

pub mod drawing;
pub mod draws;
pub mod generator;
pub mod library_draws;
pub mod loading;
pub mod measures;
pub mod measuring;
pub mod numerals;
pub mod operations;
pub mod records;
pub mod texts;
pub mod trial;
