//! The questions that a union catalogue is asked, each a line of text, and its answers.
//!
//! Guarantee: `query::Query::read` answers exactly the query that `specs/Queries.antt` gives the line, and refuses a line
//! exactly where that gives none, by the reason that it gives. `answering::answer` answers exactly the lines that
//! `specs/Answers.antt` filters out of all editions of the catalogue. `specs/Replies.antt` says what replies over a growing history
//! are, and `specs/LineTexts.antt` with what text a line is answered or refused. Cost: a line is read in one pass, and its texts are
//! copied once. What a query asks for is looked up, and the counts are read: no answer looks at an edition that it does not show.
#![tactic(auto)]

pub mod answer;
pub mod answering;
mod grammar;
pub mod line_texts;
mod lines;
pub mod query;
pub mod questions;
mod telling;
mod word;
