//! Parts of the contents of an edition, with several owners.
//!
//! Cost: one more owner of a part takes no memory, however many contents it has. To make a part takes one more owner of each of its
//! contents, in room that is made once.
ghost use Rattle.std.specs.Prelude.{◌≡◌, ◌++◌, ◌∷◌, IfOk, OnOk};
ghost use Rattle.catalogue_editions.specs.Joined.{all_in};
ghost use Rattle.catalogue_editions.specs.Borrowed.{contents_of};

use crate::shared_content::SharedContent;
use std::alloc::Global;
use std::marker::Model;
use std::sync::Arc;
use union_base::memory::Memory;

/// Contents of one edition, one beside the other, with several owners, which contracts see as the list of them. Nothing changes it
/// once it was made.
#[derive(Debug)]
pub(crate) struct SharedPart {
    contents: Arc<Vec<SharedContent>, Global>,
}

/// A drop of its own, as that of `Bytes`.
impl Drop for SharedPart {
    fn drop(self) {
        let SharedPart { contents: _ } = self;
    }
}

impl Model for SharedPart {
    ghost use Rattle.std.specs.Prelude.{List};
    ghost use Rattle.std.specs.Arc.{arc_value};
    ghost use Rattle.field_merge.specs.declared.content.Content.{Content};

    ghost Value = { List Content };

    ghost view = { λ part. (arc_value part.contents).items };
}

impl SharedPart {
    /// One part of all contents of the left parts, the middle content and all contents of the right parts. Returns `Memory` if
    /// allocation fails.
    pub fn of(
        alloc: Global,
        left: &[SharedPart],
        middle: &SharedContent,
        right: &[SharedPart],
    ) -> Result<SharedPart, Memory>
        ensures { IfOk result (λ part. part ≡ all_in left.now ++ middle.now ∷ all_in right.now) }
    {
        let room = content_count(left)
            .saturating_add(content_count(right))
            .saturating_add(1);
        let mut all = Vec::with_capacity(alloc, room)?;
        push_shared(&mut all, left)?;
        all.push(middle.shared()?)?;
        push_shared(&mut all, right)?;
        Ok(SharedPart {
            contents: Arc::new(alloc, all)?,
        })
    }

    /// One more owner. Takes no memory, and returns `Memory` where there are as many owners as can be counted.
    pub fn shared(&self) -> Result<SharedPart, Memory>
        ensures { IfOk result (λ shared. shared ≡ self.now) }
    {
        Ok(SharedPart {
            contents: Arc::try_clone(&self.contents)?,
        })
    }

    /// The contents. Takes no memory.
    pub fn contents(&self) -> &[SharedContent]
        ensures { result.now ≡ self.now }
    {
        self.contents.as_slice()
    }
}

/// How many contents the parts have together.
pub(crate) fn content_count(parts: &[SharedPart]) -> usize {
    let mut count: usize = 0;
    for part in parts {
        count = count.saturating_add(part.contents().len());
    }
    count
}

/// Each content of the parts where it lies, in this order, in room that is made once. Returns `Memory` if allocation fails.
pub(crate) fn each_of<'a>(
    alloc: Global,
    parts: &'a [SharedPart],
) -> Result<Vec<&'a SharedContent>, Memory>
    ensures { IfOk result (λ each. contents_of each.items ≡ all_in parts.now) }
{
    let mut each = Vec::with_capacity(alloc, content_count(parts))?;
    for part in parts {
        push_each(&mut each, part.contents())?;
    }
    Ok(each)
}

/// Pushes each content where it lies. Returns `Memory` if allocation fails.
fn push_each<'a>(
    into: &mut Vec<&'a SharedContent>,
    contents: &'a [SharedContent],
) -> Result<(), Memory>
    ensures { OnOk result (contents_of into.new.items
        ≡ contents_of into.old.items ++ contents.now) }
{
    for content in contents {
        into.push(content)?;
    }
    Ok(())
}

/// Pushes one more owner of each content of the parts. Returns `Memory` if allocation fails.
fn push_shared(all: &mut Vec<SharedContent>, parts: &[SharedPart]) -> Result<(), Memory>
    ensures { OnOk result (all.new.items ≡ all.old.items ++ all_in parts.now) }
{
    for part in parts {
        push_owners(all, part.contents())?;
    }
    Ok(())
}

/// Pushes one more owner of each content. Returns `Memory` if allocation fails.
fn push_owners(all: &mut Vec<SharedContent>, contents: &[SharedContent]) -> Result<(), Memory>
    ensures { OnOk result (all.new.items ≡ all.old.items ++ contents.now) }
{
    for content in contents {
        all.push(content.shared()?)?;
    }
    Ok(())
}
