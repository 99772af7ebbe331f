//! Tables of cases in one text: `¦` parts the cells of a case, and `‡` ends it.
use std::alloc::Global;
use std::process::Abort;
use std::str::Split;
use std::test::Fail;

/// Parts the cells of a case.
pub(crate) const CELL_END: char = '¦';

/// Ends a case.
const CASE_END: char = '‡';

/// Asserts that the table has `count` cases, and that each of them is right.
pub(crate) fn assert_cases<F: Fn(Global, &str) -> Result<bool, Fail>>(
    rt: &impl Abort,
    alloc: Global,
    table: &str,
    count: u32,
    is_right: F,
) -> Result<(), Fail>
    requires { F.IsAlwaysCallable is_right }
{
    let mut found: u32 = 0;
    for case in table.split(CASE_END) {
        if !case.is_empty() {
            assert!(rt; is_right(alloc, case)?, "{case}");
            found = found.saturating_add(1);
        }
    }
    assert_eq!(rt; found, count);
    Ok(())
}

pub(crate) fn next_cell<'a>(cells: &mut Split<'a, char>) -> Result<&'a str, Fail> {
    Ok(cells.next().ok_or("a cell")?)
}
