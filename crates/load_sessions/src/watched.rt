//! What a load and its questions come to.
use catalogue_query::answer::Answer;
use union_files::loaded::Loaded;

/// What libraries loaded, and the replies to what was asked beside the sessions and after them. A reply has the number of turns
/// over which it is given.
#[derive(Drop)]
pub struct Watched {
    pub loaded: Loaded,
    pub beside: Vec<(u64, Answer)>,
    pub late: Vec<(u64, Answer)>,
}
