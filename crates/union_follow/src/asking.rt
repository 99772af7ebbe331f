//! The asking of questions through a viewer.
ghost use Rattle.std.specs.Prelude.{◌≡◌, [], length, OnOk};
ghost use mathlib.Core.List.{IsPrefix};
ghost use Rattle.union_follow.specs.Following.{RepliedOver};

use catalogue_query::answer::Answer;
use catalogue_query::query::Query;
use snapshot_desk::viewer::Viewer;
use std::alloc::Global;
use union_base::memory::Memory;

/// Asks each question in order, and keeps the replies. Waits for nobody.
///
/// Returns `Memory` if allocation fails; there may be replies to the first questions then.
pub fn view_all(
    alloc: Global,
    viewer: &mut Viewer,
    questions: &[Query],
    replies: &mut Vec<(u64, Answer)>,
) -> Result<(), Memory>
    requires none { replies.old.items ≡ [] }
    ensures book { viewer.new.book ≡ viewer.old.book }
    ensures seen { IsPrefix viewer.old.seen viewer.new.seen }
    ensures replied { RepliedOver viewer.new.seen (length viewer.old.learnt) questions.now
        replies.new.items }
    ensures all { OnOk result (length replies.new.items ≡ length questions.now) }
{
    for question in questions {
        let reply = viewer.view(alloc, question)?;
        replies.push(reply)?;
    }
    Ok(())
}
