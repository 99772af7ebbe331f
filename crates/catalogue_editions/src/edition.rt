//! Editions.
ghost use Rattle.std.specs.Prelude.{◌≡◌, IfOk, IsTrue};
ghost use Rattle.catalogue_editions.specs.Linked.{are_linked};
ghost use Rattle.catalogue_editions.specs.Sound.{is_sound};

use crate::contents::Contents;
use crate::shared_content::SharedContent;
use crate::shown::Shown;
use field_merge::content::Content;
use match_features::features::Features;
use std::alloc::Global;
use std::marker::Model;
use std::sync::Arc;
use union_base::memory::Memory;
use union_base::record_id::RecordId;
use union_base::sorted_list::SortedList;

/// What an edition has: the features by which other records are found to describe it too, and its content.
///
/// For each contributor `LIB.CTL` the pair of `=LIB` and `CTL` is among the control pairs, so editions that do not match
/// have no contributor in common. Each part of the content is one that a record which was accepted and loaded can have:
/// each contributor is a library's code and a control number of 1 to 64 printing ASCII characters; the codes are those of
/// a new record in UTF-8, with the 40 bytes of a field 008; each slot has a field of its tag; no united field has the tag
/// of a slot, or one of 001, 003, 008, 991 and 993; and a frame can store each field, whose texts are UTF-8.
#[derive(Debug)]
pub struct EditionParts {
    pub features: Features,
    pub content: Content,
    pub ghost linked: { IsTrue (are_linked content.contributors features.control) },
    pub ghost sound: { IsTrue (is_sound content) },
}

/// A drop of its own, as that of `Bytes`.
impl Drop for EditionParts {
    fn drop(self) {
        let EditionParts {
            features: _,
            content: _,
        } = self;
    }
}

impl EditionParts {
    /// The features and the content. Takes no memory.
    fn into_both(self) -> (Features, Content)
        ensures features { result.0 ≡ self.features }
        ensures content { result.1 ≡ self.content }
    {
        let EditionParts { features, content } = self;
        (features, content)
    }
}

/// What an edition keeps: as its parts, but that the contents of its records are merged only when somebody asks.
#[derive(Debug)]
struct Kept {
    features: Features,
    contents: Contents,
    ghost linked: { IsTrue (are_linked contents.contributors features.control) },
    ghost sound: { IsTrue (is_sound contents) },
}

/// A drop of its own, as that of `Bytes`.
impl Drop for Kept {
    fn drop(self) {
        let Kept {
            features: _,
            contents: _,
        } = self;
    }
}

/// What one or several records that describe one edition come to, which contracts see as its parts. All owners of an edition
/// share what it keeps, which nothing changes once it was made, so one more owner takes no memory.
#[derive(Debug)]
pub struct Edition {
    kept: Arc<Kept, Global>,
}

/// A drop of its own, as that of `Bytes`.
impl Drop for Edition {
    fn drop(self) {
        let Edition { kept: _ } = self;
    }
}

impl Model for Edition {
    ghost use Rattle.std.specs.Arc.{arc_value};
    ghost use Rattle.catalogue_editions.specs.declared.edition.EditionParts.{EditionParts};

    ghost Value = { EditionParts };

    ghost view = { λ edition. record {
      features = (arc_value edition.kept).features;
      content = (arc_value edition.kept).contents;
      linked = (arc_value edition.kept).linked;
      sound = (arc_value edition.kept).sound;
    } };
}

impl Edition {
    /// The edition of one record, of those parts.
    ///
    /// Returns `Memory` if allocation fails.
    pub fn of(alloc: Global, parts: EditionParts) -> Result<Edition, Memory>
        ensures { IfOk result (λ edition. edition ≡ parts) }
    {
        let (features, content) = parts.into_both();
        let contents = Contents::of(alloc, content)?;
        Edition::with_contents(alloc, features, contents)
    }

    /// The edition of these features and contents. Returns `Memory` if allocation fails.
    pub(crate) fn with_contents(
        alloc: Global,
        features: Features,
        contents: Contents,
    ) -> Result<Edition, Memory>
        requires linked { IsTrue (are_linked contents.contributors features.control) }
        requires sound { IsTrue (is_sound contents) }
        ensures { IfOk result (λ edition. (edition.features ≡ features)
            × (edition.content ≡ contents)) }
    {
        let kept = Kept { features, contents };
        Ok(Edition {
            kept: Arc::new(alloc, kept)?,
        })
    }

    /// One more owner of the edition. Takes no memory.
    ///
    /// Answers `Memory` where the edition has as many owners as can be counted.
    pub fn shared(&self) -> Result<Edition, Memory>
        ensures { IfOk result (λ edition. edition ≡ self.now) }
    {
        Ok(Edition {
            kept: Arc::try_clone(&self.kept)?,
        })
    }

    /// The features by which other records are found to describe the edition.
    pub fn features(&self) -> &Features
        ensures { result.now ≡ self.now.features }
    {
        &self.kept.features
    }

    /// The contents of the edition's records.
    pub(crate) fn contents(&self) -> &Contents
        ensures { result.now ≡ self.now.content }
    {
        &self.kept.contents
    }

    /// The ids of the edition's records, in order. Takes no memory.
    pub fn contributors(&self) -> &SortedList<RecordId>
        ensures { result.now ≡ self.now.content.contributors }
    {
        self.contents().contributors()
    }

    /// What the edition's records say. It is made anew by each call where the edition is of several records: theirs are merged
    /// by halves. Where it is of one record, this takes no memory.
    ///
    /// Returns `Memory` if allocation fails.
    pub fn content(&self, alloc: Global) -> Result<SharedContent, Memory>
        ensures { IfOk result (λ content. content ≡ self.now.content) }
    {
        self.contents().content(alloc)
    }

    /// What the edition's records say together, borrowed from where it lies. Takes no memory.
    pub fn shown(&self) -> Shown<'_>
        ensures { result ≡ self.now.content }
    {
        Shown::of(self.contents())
    }
}
