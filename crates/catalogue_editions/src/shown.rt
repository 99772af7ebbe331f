//! What the records of an edition say together, borrowed from where it lies.
//!
//! Cost: the fixed part and the slots are chosen by one walk over the contents, and the united fields are merged, as references, for
//! whoever asks for them, over a list of references to the contents. Nothing is copied.
ghost use Rattle.std.specs.Prelude.{◌≡◌, ◌++◌, IfOk, OnOk, IsTrue};
ghost use Rattle.catalogue_editions.specs.Borrowed.{contents_of, fields_of};
ghost use Rattle.catalogue_editions.specs.Joined.{joined_all};
ghost use Rattle.catalogue_editions.specs.Sound.{is_sound};

use crate::contents::Contents;
use crate::shared_content::SharedContent;
use crate::shared_part::each_of;
use crate::slots::Slots;
use crate::united::push_united;
use field_merge::fixed::Fixed;
use field_merge::slot::Slot;
use std::alloc::Global;
use std::marker::Model;
use union_base::field::Field;
use union_base::memory::Memory;
use union_base::record_id::RecordId;
use union_base::sorted_list::SortedList;

/// What the records of an edition say together, which contracts see as the content that they merge to. Each part of it is one that
/// an accepted record can have (`EditionParts`).
#[derive(Drop)]
pub struct Shown<'a> {
    contents: &'a Contents,
    slots: Slots<'a>,
}

impl<'a> Model for Shown<'a> {
    ghost use Rattle.field_merge.specs.declared.content.Content.{Content};
    ghost use Rattle.catalogue_editions.specs.Slots.{AreSoundSlots};

    ghost Value = { Content };

    ghost view = { λ s. s.contents.now };

    ghost invariant = { λ s. AreSoundSlots s.slots s.contents.now };
}

impl<'a> Shown<'a> {
    /// What the contents say together. Takes no memory.
    pub(crate) fn of(contents: &'a Contents) -> Shown<'a>
        requires { IsTrue (is_sound contents.now) }
        ensures { result ≡ contents.now }
    {
        let (first, parts) = contents.parts();
        Shown {
            contents,
            slots: Slots::of_all(first, parts),
        }
    }

    /// The ids of the records, in order. Takes no memory.
    pub fn contributors(&self) -> &SortedList<RecordId>
        ensures value { result.now ≡ self.now.contributors }
        ensures sound { IsTrue (is_sound self.now) }
    {
        self.contents.contributors()
    }

    /// The leader's codes and field 008.
    pub fn fixed(&self) -> &Fixed
        ensures value { result.now ≡ self.now.fixed }
        ensures sound { IsTrue (is_sound self.now) }
    {
        self.slots.fixed
    }

    pub fn f005(&self) -> &Option<Slot>
        ensures { result.now ≡ self.now.f005 }
    {
        self.slots.f005
    }

    pub fn f010(&self) -> &Option<Slot>
        ensures { result.now ≡ self.now.f010 }
    {
        self.slots.f010
    }

    pub fn f040(&self) -> &Option<Slot>
        ensures { result.now ≡ self.now.f040 }
    {
        self.slots.f040
    }

    /// The main entry, of tag 100, 110, 111 or 130.
    pub fn f1xx(&self) -> &Option<Slot>
        ensures { result.now ≡ self.now.f1xx }
    {
        self.slots.f1xx
    }

    pub fn f240(&self) -> &Option<Slot>
        ensures { result.now ≡ self.now.f240 }
    {
        self.slots.f240
    }

    pub fn f245(&self) -> &Slot
        ensures { result.now ≡ self.now.f245 }
    {
        self.slots.f245
    }

    /// The contents of the edition's records where they lie: the first one, and those behind it in room that is made once. Returns
    /// `Memory` if allocation fails.
    pub fn contents(&self, alloc: Global) -> Result<(&SharedContent, Vec<&SharedContent>), Memory>
        ensures { IfOk result (λ all. joined_all all.0.now (contents_of all.1.items) ≡ self.now) }
    {
        let (first, parts) = self.contents.parts();
        Ok((first, each_of(alloc, parts)?))
    }

    /// Pushes the united fields, in order and each once, in room that is made once. Returns `Memory` if allocation fails.
    pub fn push_united<'b>(&'b self, alloc: Global, into: &mut Vec<&'b Field>) -> Result<(), Memory>
        ensures { OnOk result (fields_of into.new.items
            ≡ fields_of into.old.items ++ self.now.united) }
    {
        let (first, parts) = self.contents.parts();
        let behind = each_of(alloc, parts)?;
        push_united(alloc, first, behind.as_slice(), into)
    }
}
