//! Someone who asks the catalogue some questions.
ghost use Rattle.std.specs.Prelude.{◌≡◌, []};

use crate::end::End;
use crate::served::Served;
use catalogue_lock::pass::Pass;
use catalogue_query::answer::Answer;
use catalogue_query::query::Query;
use std::alloc::Global;

/// Someone who asks the catalogue some questions, with a pass of its own. The replies and the end, which is Done or Memory, are
/// told when it was run; a reply has the number of turns over which it is given.
#[derive(Drop)]
pub struct Asker {
    pub pass: Pass<Served>,
    pub questions: Vec<Query>,
    pub replies: Vec<(u64, Answer)>,
    pub end: End,
}

impl Asker {
    /// An asker who was not run. Takes no memory.
    pub fn new(alloc: Global, pass: Pass<Served>, questions: Vec<Query>) -> Asker
        ensures pass { result.pass ≡ pass }
        ensures questions { result.questions ≡ questions }
        ensures replies { result.replies.items ≡ [] }
        ensures end { result.end ≡ End.NotRun }
    {
        Asker {
            pass,
            questions,
            replies: Vec::new(alloc),
            end: End::NotRun,
        }
    }
}
