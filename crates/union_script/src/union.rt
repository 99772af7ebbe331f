//! The catalogue that a script builds.
ghost use Rattle.std.specs.Prelude.{◌≡◌};
ghost use Rattle.std.specs.Coded.{Coded-set, coded_list, coded_option, coded_ℕ};
ghost use Rattle.std.specs.FinMap.{code, empty};

use catalogue_core::catalogue::Catalogue;
use merge_laws::steps::Steps;
use std::sync::ledger::Ledger;

/// A catalogue without names, with the count of the match tests that were made for it.
#[derive(Drop)]
pub struct Union<L: Ledger> {
    pub catalogue: Catalogue,
    pub steps: Steps<L>,
    /// Whether the turns of later loads are told: from a line `notices` on they are.
    pub told: bool,
    pub ghost unnamed: { catalogue.names ≡ empty } by { Coded-set (code (coded_list coded_ℕ) (coded_option (coded_list coded_ℕ))) _ _ },
}
