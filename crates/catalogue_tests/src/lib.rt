//! The tests of the catalogue: of catalogue_core, of gathered_catalogue, of what catalogue_export writes of its editions, and of the
//! questions that catalogue_query reads and answers. Beside them is the plain catalogue, with which the catalogue is compared.
//!
//! They are apart from the libraries, since a crate with tests is proved twice: so each library is proved once, and is not proved
//! again after a change of a test.
#![tactic(auto)]

#[cfg(test)]
mod answer_tests;
#[cfg(test)]
mod common_title_tests;
#[cfg(test)]
mod comparing_tests;
#[cfg(test)]
mod edition_tests;
#[cfg(test)]
mod export_tests;
#[cfg(test)]
mod gathered_tests;
#[cfg(test)]
mod history_tests;
#[cfg(test)]
mod name_tests;
#[cfg(test)]
mod plain_catalogue;
#[cfg(test)]
mod preference_tests;
#[cfg(test)]
mod prepared_tests;
#[cfg(test)]
mod query_tests;
#[cfg(test)]
mod worked;
