//! What is made of libraries' records, by itself and merged.
//!
//! The functions are proved for any type, so that their many ends have no code for the parts of a value that is dropped there.
use crate::tables::CELL_END;
use merge_laws::join::Join;
use std::alloc::Global;
use std::str::Split;
use std::test::Fail;
use union_base::memory::Memory;

/// What is made of a library's record.
pub(crate) trait Made: Join {
    /// What is made of the record of the next cells, which end in a library and a frame.
    fn next_made(alloc: Global, cells: &mut Split<'_, char>) -> Result<Self, Fail>;

    /// Writes it as the cases have it.
    fn push_to(&self, text: &mut Vec<u8>) -> Result<(), Memory>;
}

/// Whether the record of a case makes what is written in the next cell.
pub(crate) fn makes<M: Made>(alloc: Global, case: &str) -> Result<bool, Fail> {
    let mut cells = case.split(CELL_END);
    let made = M::next_made(alloc, &mut cells)?;
    is_written(alloc, &made, cells.next())
}

/// Whether what the two records of a case make merges to what is written in the next cell, in either order.
pub(crate) fn merges<M: Made>(alloc: Global, case: &str) -> Result<bool, Fail> {
    let mut cells = case.split(CELL_END);
    let (one, other) = next_pair::<M>(alloc, &mut cells)?;
    let expected = cells.next();
    Ok(merge_is(alloc, &one, &other, expected)? && merge_is(alloc, &other, &one, expected)?)
}

/// Whether what the three records of a case make merges to what is written in the next cell, whichever is merged last.
pub(crate) fn merges_three<M: Made>(alloc: Global, case: &str) -> Result<bool, Fail> {
    let mut cells = case.split(CELL_END);
    let (one, two) = next_pair::<M>(alloc, &mut cells)?;
    let three = M::next_made(alloc, &mut cells)?;
    let expected = cells.next();
    Ok(
        merge_with_pair_is(alloc, &one, (&two, &three), expected)?
            && merge_with_pair_is(alloc, &two, (&three, &one), expected)?
            && merge_with_pair_is(alloc, &three, (&one, &two), expected)?,
    )
}

/// Whether the merge of one with the merge of two is so written.
fn merge_with_pair_is<M: Made>(
    alloc: Global,
    one: &M,
    pair: (&M, &M),
    expected: Option<&str>,
) -> Result<bool, Fail> {
    let merged = pair.0.joined(alloc, pair.1)?;
    merge_is(alloc, one, &merged, expected)
}

/// What is made of the two records of the cells that follow.
pub(crate) fn next_pair<M: Made>(
    alloc: Global,
    cells: &mut Split<'_, char>,
) -> Result<(M, M), Fail> {
    Ok((M::next_made(alloc, cells)?, M::next_made(alloc, cells)?))
}

/// Whether a copy of what the two merge to is so written.
pub(crate) fn merge_is<M: Made>(
    alloc: Global,
    one: &M,
    other: &M,
    expected: Option<&str>,
) -> Result<bool, Fail> {
    let copy = one.joined(alloc, other)?.copied(alloc)?;
    is_written(alloc, &copy, expected)
}

/// Whether this is how it is written.
pub(crate) fn is_written<M: Made>(
    alloc: Global,
    made: &M,
    expected: Option<&str>,
) -> Result<bool, Fail> {
    let mut text = Vec::new(alloc);
    made.push_to(&mut text)?;
    Ok(expected.is_some_and(|expected| text.as_slice() == expected.as_bytes()))
}
