//! Why a frame of a file of names is refused.
ghost use Rattle.std.specs.Prelude.{◌≡◌};
ghost use Rattle.names_file.specs.Judging.{fault_name, fault_place};

use marc_fields::rules::Rule;

/// Why a frame of a file of names is refused.
#[derive(Clone, Copy, Debug, PartialEq, Eq)]
pub enum NameFault {
    /// The first rule that fails, of those on how the frame is cut, on length, leader, directory, ranges and shape of fields, and
    /// its place (see `Rule`).
    Rule { rule: Rule, place: u32 },
    /// It is no authority record.
    Kind,
    /// Its coding is not one that is read, or a text is not in it.
    Coding,
    /// A text is not UTF-8.
    NotUtf8,
    /// There is not exactly one heading of a person, a body or a meeting, or it is empty.
    Heading,
}

impl NameFault {
    /// How the fault is named in a report. Takes no memory.
    pub fn name(self) -> &'static [u8]
        ensures { result.now ≡ fault_name self }
    {
        match self {
            NameFault::Rule { rule, place: _ } => rule.name(),
            NameFault::Kind => b"Kind",
            NameFault::Coding => b"Coding",
            NameFault::NotUtf8 => b"NotUtf8",
            NameFault::Heading => b"Heading",
        }
    }

    /// The place of a rule, and 0 where the record is refused as a whole. Takes no memory.
    pub fn place(self) -> u32
        ensures { result ≡ fault_place self }
    {
        match self {
            NameFault::Rule { rule: _, place } => place,
            NameFault::Kind | NameFault::Coding | NameFault::NotUtf8 | NameFault::Heading => 0,
        }
    }
}
