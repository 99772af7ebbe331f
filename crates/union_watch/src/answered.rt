//! What was loaded and asked.
use crate::ask_line::AskLine;
use catalogue_query::answer::Answer;
use union_files::loaded::Loaded;

/// What libraries loaded, the lines of a file of questions, and the replies to the questions of those that ask something: first
/// to those that were asked beside the load, and then to the late ones.
#[derive(Drop)]
pub struct Answered<'a> {
    pub loaded: Loaded,
    pub lines: Vec<AskLine<'a>>,
    pub beside: Vec<(u64, Answer)>,
    pub late: Vec<(u64, Answer)>,
    /// Whether a line is refused.
    pub refused: bool,
}
