//! A title, a date and a name, in one text.
ghost use Rattle.std.specs.Prelude.{◌≡◌, ◌&&◌, ◌++◌, IfOk, nat_eq};
ghost use Rattle.std.specs.Cmp.Lexicographic.{pointwise, nat_list_eq_equiv};
ghost use Rattle.std.specs.Cmp.{partial_equiv_from_equiv, and_equiv, on_equiv};

use std::alloc::Global;
use std::hash::{Hash, Hasher};
use std::marker::Model;
use union_base::bytes::Bytes;
use union_base::copied::Copied;
use union_base::memory::Memory;

/// How many bytes a date has.
const DATE: usize = 4;

/// A title, a date and a name in one piece, so that a key has the room of one text and not of three. Contracts see it as the
/// title, the date and the name.
#[derive(Debug, Drop)]
pub struct DescriptionKey {
    /// The title, then the date, then the name.
    text: Bytes,
    /// How many bytes of the text are the title.
    cut: usize,
}

impl Model for DescriptionKey {
    ghost use Rattle.std.specs.Prelude.{List, ℕ, ◌+◌, ◌≤◌, length, take, drop};

    ghost Value = { List ℕ × List ℕ × List ℕ };

    ghost view = { λ k. (take k.cut k.text, take 4 (drop k.cut k.text), drop (k.cut + 4) k.text) };

    ghost invariant = { λ k. k.cut + 4 ≤ length k.text };
}

impl DescriptionKey {
    /// The key of a copy of each text.
    pub fn of(
        alloc: Global,
        title: &[u8],
        date: &[u8; 4],
        name: &[u8],
    ) -> Result<DescriptionKey, Memory>
        ensures { IfOk result (λ key. key ≡ (title.now, date.now, name.now)) }
    {
        Ok(DescriptionKey {
            text: joined(alloc, title, date, name)?,
            cut: title.len(),
        })
    }

    /// The title. Takes no memory.
    pub fn title(&self) -> &[u8]
        ensures { result.now ≡ self.now.0 }
    {
        &self.text.bytes()[..self.cut]
    }

    /// The date. Takes no memory.
    pub fn date(&self) -> &[u8]
        ensures { result.now ≡ self.now.1 }
    {
        &self.text.bytes()[self.cut..self.cut + DATE]
    }

    /// The name. Takes no memory.
    pub fn name(&self) -> &[u8]
        ensures { result.now ≡ self.now.2 }
    {
        &self.text.bytes()[self.cut + DATE..]
    }
}

/// The title, then the date, then the name.
fn joined(alloc: Global, title: &[u8], date: &[u8; 4], name: &[u8]) -> Result<Bytes, Memory>
    ensures { IfOk result (λ text. text ≡ title.now ++ date.now ++ name.now) }
{
    let size = title.len().saturating_add(DATE).saturating_add(name.len());
    let mut text = Vec::with_capacity(alloc, size)?;
    text.extend_from_slice(title)?;
    text.extend_from_slice(date)?;
    text.extend_from_slice(name)?;
    Ok(Bytes::from(text))
}

impl Copied for DescriptionKey {
    fn copied(&self, alloc: Global) -> Result<DescriptionKey, Memory> {
        Ok(DescriptionKey {
            text: self.text.copied(alloc)?,
            cut: self.cut,
        })
    }
}

impl PartialEq for DescriptionKey {
    ghost eq = { λ j k. pointwise nat_eq j.0 k.0 && pointwise nat_eq j.1 k.1 && pointwise nat_eq j.2 k.2 };

    ghost laws = { partial_equiv_from_equiv (and_equiv (and_equiv (on_equiv (λ k. k.0) nat_list_eq_equiv) (on_equiv (λ k. k.1) nat_list_eq_equiv)) (on_equiv (λ k. k.2) nat_list_eq_equiv)) };

    fn eq(&self, other: &DescriptionKey) -> bool {
        self.title() == other.title() && self.date() == other.date() && self.name() == other.name()
    }
}

impl Eq for DescriptionKey {
    ghost laws = { and_equiv (and_equiv (on_equiv (λ k. k.0) nat_list_eq_equiv) (on_equiv (λ k. k.1) nat_list_eq_equiv)) (on_equiv (λ k. k.2) nat_list_eq_equiv) };
}

/// The whole text goes to the hasher in one piece.
impl Hash for DescriptionKey {
    ghost use Rattle.std.specs.Prelude.{[], ◌∷◌};
    ghost use Rattle.std.specs.Cmp.Rules.{hashing};
    ghost use Rattle.std.proofs.Common.{rules};

    ghost hash_input = { λ k. (k.0 ++ k.1 ++ k.2) ∷ [] };

    ghost respects_eq = { Prim.search (hashing, rules) };

    fn hash<H: Hasher>(&self, state: &mut H) {
        state.write(self.text.bytes());
    }
}
