//! Which questions are asked beside the load, and which after it.
ghost use Rattle.std.specs.Prelude.{◌≡◌, IfOk};
ghost use Rattle.union_watch.specs.Lateness.{beside, late};

use catalogue_query::query::Query;
use catalogue_query::questions::Questions;
use std::alloc::{AllocError, Global};

/// Divides the questions of a file: with one worker all are late, and with more the last one is.
pub fn divide(alloc: Global, workers: u32, questions: Vec<Query>) -> Result<Questions, AllocError>
    ensures beside { IfOk result (λ divided. divided.beside.items
        ≡ beside workers questions.items) }
    ensures late { IfOk result (λ divided. divided.late.items ≡ late workers questions.items) }
{
    if workers == 1 {
        return Ok(Questions {
            beside: Vec::new(alloc),
            late: questions,
        });
    }
    let mut beside = questions;
    let mut late = Vec::new(alloc);
    if let Some(last) = beside.pop() {
        late.push(last)?;
    }
    Ok(Questions { beside, late })
}
