//! Contents of editions, with several owners.
ghost use Rattle.std.specs.Prelude.{◌≡◌, IfOk, IsTrue};
ghost use Rattle.catalogue_editions.specs.Sound.{is_sound};

use field_merge::content::Content;
use std::alloc::Global;
use std::marker::Model;
use std::sync::Arc;
use union_base::memory::Memory;

/// What the records of an edition say, with several owners, which contracts see as the content. Each part of it is one that an
/// accepted record can have (`EditionParts`). Nothing changes it once it was made, so one more owner takes no memory.
#[derive(Debug)]
pub struct SharedContent {
    content: Arc<Content, Global>,
}

/// A drop of its own, as that of `Bytes`.
impl Drop for SharedContent {
    fn drop(self) {
        let SharedContent { content: _ } = self;
    }
}

impl Model for SharedContent {
    ghost use Rattle.std.specs.Arc.{arc_value};
    ghost use Rattle.field_merge.specs.declared.content.Content.{Content};

    ghost Value = { Content };

    ghost use Rattle.std.specs.Prelude.{IsTrue};
    ghost use Rattle.catalogue_editions.specs.Sound.{is_sound};

    ghost view = { λ shared. arc_value shared.content };

    ghost invariant = { λ shared. IsTrue (is_sound (arc_value shared.content)) };
}

impl SharedContent {
    /// The content, with one owner. Returns `Memory` if allocation fails.
    pub(crate) fn of(alloc: Global, content: Content) -> Result<SharedContent, Memory>
        requires { IsTrue (is_sound content) }
        ensures { IfOk result (λ shared. shared ≡ content) }
    {
        Ok(SharedContent {
            content: Arc::new(alloc, content)?,
        })
    }

    /// One more owner. Takes no memory, and returns `Memory` where there are as many owners as can be counted.
    pub(crate) fn shared(&self) -> Result<SharedContent, Memory>
        ensures { IfOk result (λ shared. shared ≡ self.now) }
    {
        Ok(SharedContent {
            content: Arc::try_clone(&self.content)?,
        })
    }

    /// The content. Takes no memory.
    pub fn content(&self) -> &Content
        ensures value { result.now ≡ self.now }
        ensures sound { IsTrue (is_sound self.now) }
    {
        &self.content
    }
}
