//! The fixed part and the slots that contents merge to, borrowed from the contents where they lie.
//!
//! Cost: one walk over the contents, which compares the ranks of each slot. It takes no memory.
ghost use Rattle.field_merge.specs.Merging.{join};
ghost use Rattle.field_merge.specs.declared.content.Content.{Content as ContentModel};
ghost use Rattle.catalogue_editions.specs.Joined.{joined_all, all_in};
ghost use Rattle.catalogue_editions.specs.Slots.{AreSlotsOf};

use crate::shared_content::SharedContent;
use crate::shared_part::SharedPart;
use field_merge::content::Content;
use field_merge::fixed::Fixed;
use field_merge::merging::greater;
use field_merge::slot::Slot;

/// The fixed part and the slots of a content, each of them where it lies.
#[derive(Clone, Copy, Debug)]
pub(crate) struct Slots<'a> {
    pub(crate) fixed: &'a Fixed,
    pub(crate) f005: &'a Option<Slot>,
    pub(crate) f010: &'a Option<Slot>,
    pub(crate) f040: &'a Option<Slot>,
    pub(crate) f1xx: &'a Option<Slot>,
    pub(crate) f240: &'a Option<Slot>,
    pub(crate) f245: &'a Slot,
}

impl<'a> Slots<'a> {
    /// Those that the first content and the contents of the parts behind it merge to.
    pub(crate) fn of_all(first: &'a SharedContent, parts: &'a [SharedPart]) -> Slots<'a>
        ensures { AreSlotsOf result (joined_all first.now (all_in parts.now)) }
    {
        let mut slots = Slots::of(first.content());
        for part in parts {
            slots = slots.joined_all(part.contents());
        }
        slots
    }

    /// Those of one content.
    fn of(content: &'a Content) -> Slots<'a>
        ensures { AreSlotsOf result content.now }
    {
        Slots {
            fixed: &content.fixed,
            f005: &content.f005,
            f010: &content.f010,
            f040: &content.f040,
            f1xx: &content.f1xx,
            f240: &content.f240,
            f245: &content.f245,
        }
    }

    /// The greatest ones of these and those of the contents.
    fn joined_all(self, contents: &'a [SharedContent]) -> Slots<'a>
        ensures { (c : ContentModel) → AreSlotsOf self.entry c
            → AreSlotsOf result (joined_all c contents.now) }
    {
        let mut slots = self;
        for shared in contents {
            slots = slots.joined(shared.content());
        }
        slots
    }

    /// The greater ones of these and those of a content.
    fn joined(self, content: &'a Content) -> Slots<'a>
        ensures { (c : ContentModel) → AreSlotsOf self.entry c
            → AreSlotsOf result (join c content.now) }
    {
        Slots {
            fixed: greater(self.fixed, &content.fixed),
            f005: greater(self.f005, &content.f005),
            f010: greater(self.f010, &content.f010),
            f040: greater(self.f040, &content.f040),
            f1xx: greater(self.f1xx, &content.f1xx),
            f240: greater(self.f240, &content.f240),
            f245: greater(self.f245, &content.f245),
        }
    }
}
