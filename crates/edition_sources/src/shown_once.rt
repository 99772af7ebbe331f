//! The parts of a record of which an edition shows one.
ghost use Rattle.std.specs.Prelude.{◌≡◌};
ghost use Rattle.std.specs.Option.{option_copied, option_map};
ghost use Rattle.edition_sources.specs.Shown.{rank_in, field_in, has_united};

use edition_derivations::common::has;
use field_merge::content::Content;
use field_merge::rank::Rank;
use field_merge::slot::Slot;
use union_base::field::Field;

/// A part of a record of which an edition shows one.
#[derive(Clone, Copy, Debug, PartialEq, Eq)]
pub enum Part {
    /// The leader's codes, and 008.
    Fixed,
    /// 005.
    Stamp,
    /// 010.
    Number,
    /// 040.
    Source,
    /// 100, 110, 111 or 130.
    MainEntry,
    /// 240.
    UniformTitle,
    /// 245.
    Title,
}

fn rank_of(slot: &Option<Slot>) -> Option<&Rank>
    ensures { option_copied result ≡ option_map (λ s. s.rank) slot.now }
{
    match slot {
        Some(slot) => Some(&slot.rank),
        None => None,
    }
}

fn field_of(slot: &Option<Slot>) -> Option<&Field>
    ensures { option_copied result ≡ option_map (λ s. s.field) slot.now }
{
    match slot {
        Some(slot) => Some(&slot.field),
        None => None,
    }
}

impl Part {
    /// The rank of the record that the content's part comes from, where there is one. Takes no memory.
    pub fn rank(self, content: &Content) -> Option<&Rank>
        ensures { option_copied result ≡ rank_in self content.now }
    {
        match self {
            Part::Fixed => Some(&content.fixed.rank),
            Part::Stamp => rank_of(&content.f005),
            Part::Number => rank_of(&content.f010),
            Part::Source => rank_of(&content.f040),
            Part::MainEntry => rank_of(&content.f1xx),
            Part::UniformTitle => rank_of(&content.f240),
            Part::Title => Some(&content.f245.rank),
        }
    }

    /// The content's field, where the part is one and there is one. Takes no memory.
    pub fn field(self, content: &Content) -> Option<&Field>
        ensures { option_copied result ≡ field_in self content.now }
    {
        match self {
            Part::Fixed => None,
            Part::Stamp => field_of(&content.f005),
            Part::Number => field_of(&content.f010),
            Part::Source => field_of(&content.f040),
            Part::MainEntry => field_of(&content.f1xx),
            Part::UniformTitle => field_of(&content.f240),
            Part::Title => Some(&content.f245.field),
        }
    }
}

/// Whether the field is one of the united fields. Takes no memory.
pub fn has_united(content: &Content, field: &Field) -> bool
    ensures { result ≡ has_united field.now content.now }
{
    has(content.united.as_slice(), field)
}
