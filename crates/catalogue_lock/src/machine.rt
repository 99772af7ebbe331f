//! What a desk keeps: a machine with a setting and a list of entries.
ghost use Rattle.std.specs.Prelude.{◌≡◌, ℕ, ◌^◌, ◌<◌, List, [], ◌∷◌, ◌++◌, length, IfOk, OnOk, OnErr};

use std::alloc::Global;
use union_base::memory::Memory;

/// A state that is all in a setting, which no call changes, and in a list of entries, to which each change adds one.
///
/// What the machine answers is determined by these two, so an implementation names them and two relations:
///
/// - `setting`: plain data that stays as it is for the machine's life;
/// - `entries`: the pairs of pass number and change that were applied, the oldest first;
/// - `yields setting entries number change outcome`: the change, applied by the pass of that number after these entries,
///   has this outcome;
/// - `answers setting entries question answer`: the question, asked over these entries, has this answer;
/// - `spare`: some setting. It means nothing: it stands in the views of seats that are spent;
/// - the law `bounded`: there are fewer than 2^63 entries. A machine that keeps its entries in a `Vec` meets it by the
///   `Vec`'s own bounds.
pub trait Machine: Sized + Send + Drop {
    /// What never changes.
    type Setting: Drop;

    /// What a turn applies.
    type Change: Drop;

    /// What can be asked.
    type Question: Drop;

    /// What a change answers.
    type Outcome: Drop;

    /// What a question answers.
    type Answer: Drop;

    ghost setting: { Self → Self.Setting };

    ghost entries: { Self → List (ℕ × Self.Change) };

    ghost spare: { Self.Setting };

    ghost yields: { Self.Setting → List (ℕ × Self.Change) → ℕ → Self.Change → Self.Outcome → Type 0 };

    ghost answers: { Self.Setting → List (ℕ × Self.Change) → Self.Question → Self.Answer → Type 0 };

    /// Applies a change of the pass with this number, and appends the entry.
    ///
    /// # Errors
    ///
    /// `Memory`: no entry is appended.
    fn apply(
        &mut self,
        alloc: Global,
        number: u32,
        change: Self::Change,
    ) -> Result<Self::Outcome, Memory>
        ensures setting { setting self.new ≡ setting self.old }
        ensures outcome { IfOk result (λ r. yields (setting self.old) (entries self.old) number
            change r) }
        ensures entries { OnOk result (entries self.new ≡ entries self.old
            ++ (number, change) ∷ []) }
        ensures memory { OnErr result (entries self.new ≡ entries self.old) };

    /// Answers a question over all entries.
    ///
    /// # Errors
    ///
    /// `Memory`.
    fn ask(&self, alloc: Global, question: &Self::Question) -> Result<Self::Answer, Memory>
        ensures { IfOk result (λ a. answers (setting self.now) (entries self.now) question.now a) };

    /// The number of entries. Takes no memory.
    fn turns(&self) -> u64
        ensures { result ≡ length (entries self.now) };

    ghost bounded: { (m : Self) → length (entries m) < 2 ^ 63 };
}
