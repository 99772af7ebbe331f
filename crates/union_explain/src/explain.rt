//! The rows of one library.
ghost use Rattle.std.specs.Prelude.{◌≡◌, ◌+◌, ◌++◌, ◌||◌, ℕ, List, Some, Err, IfOk, MatchResult};
ghost use Rattle.std.specs.declared.option.Option.{Option};
ghost use Rattle.union_explain.specs.Located.{located};
ghost use Rattle.union_explain.specs.Readings.{CountsFaults, IsLong};
ghost use Rattle.union_explain.specs.Reports.{IsRising};
ghost use Rattle.union_explain.specs.Rows.{rows_of, row_count, any_astray};

use crate::form::Form;
use crate::locator::Locator;
use crate::reported::Reported;
use crate::stop::Stop;
use crate::table::Table;
use std::alloc::Global;
use union_io::source::Source;

/// Adds the row of each refused record of a library, whose file the source is. A refused record whose frame the file has not
/// gets no row, and the table notes that.
/// The file is read as far as the last refused record reaches, and each of its bytes is looked at once.
pub fn add_rows<S: Source>(
    alloc: Global,
    form: Form,
    library: &[u8],
    refused: &[Reported],
    source: &mut S,
    table: &mut Table,
) -> Result<(), Stop>
    requires { IsRising 0 refused.now }
    ensures name { S.name source.new ≡ S.name source.old }
    ensures text { IfOk result (λ _. (bytes : List ℕ) → S.left source.old ≡ Some bytes
        → table.new.text ≡ table.old.text ++ rows_of form library.now (located bytes) refused.now) }
    ensures rows { IfOk result (λ _. (bytes : List ℕ) → S.left source.old ≡ Some bytes
        → table.new.rows ≡ table.old.rows + row_count (located bytes) refused.now) }
    ensures astray { IfOk result (λ _. (bytes : List ℕ) → S.left source.old ≡ Some bytes
        → table.new.astray ≡ (table.old.astray || any_astray (located bytes) refused.now)) }
    ensures long { result ≡ Err Stop.TooLong → IsLong 0 (S.left source.old) }
    ensures faults { CountsFaults (S.faults source.old) (S.faults source.new) result }
{
    let mut locator = Locator::open(alloc)?;
    let mut passed = 0;
    let mut rest = refused;
    while let Some((told, behind)) = rest.split_first() {
        let found = locator.nth(told.number - passed - 1, source)?;
        if found {
            table.add(alloc, form, library, told, locator.frame())?;
        } else {
            table.miss();
        }
        passed = told.number;
        rest = behind;
    }
    Ok(())
}
