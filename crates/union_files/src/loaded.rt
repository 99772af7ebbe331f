//! The catalogue that is filled with what libraries deliver.
ghost use Rattle.std.specs.Prelude.{◌≡◌, ◌++◌, ◌||◌, IfOk};

use gathered_catalogue::finished::Finished;
use std::alloc::AllocError;

/// The catalogue that libraries filled, and their reports.
pub struct Loaded {
    pub catalogue: Finished,
    pub reports: Vec<u8>,
    /// Whether some frame was refused.
    pub refused: bool,
}

impl Loaded {
    /// The catalogue, the reports, and whether some frame was refused. Takes no memory.
    pub fn into_parts(self) -> (Finished, Vec<u8>, bool)
        ensures catalogue { result.0 ≡ self.catalogue }
        ensures reports { result.1 ≡ self.reports }
        ensures refused { result.2 ≡ self.refused }
    {
        let Loaded {
            catalogue,
            reports,
            refused,
        } = self;
        (catalogue, reports, refused)
    }

    /// The same with a text before the reports, which tells of something that was refused, or of nothing. Returns the error where
    /// allocation fails.
    pub fn with_text_before(self, text: Vec<u8>, refused: bool) -> Result<Loaded, AllocError>
        ensures catalogue { IfOk result (λ all. all.catalogue ≡ self.catalogue) }
        ensures reports { IfOk result (λ all. all.reports.items ≡ text.items
            ++ self.reports.items) }
        ensures refused { IfOk result (λ all. all.refused ≡ (refused || self.refused)) }
    {
        let Loaded {
            catalogue,
            mut reports,
            refused: other,
        } = self;
        let mut all = text;
        all.append(&mut reports)?;
        Ok(Loaded {
            catalogue,
            reports: all,
            refused: refused || other,
        })
    }
}

impl Drop for Loaded {
    fn drop(self) {
        let Loaded {
            catalogue: _,
            reports: _,
            refused: _,
        } = self;
    }
}
