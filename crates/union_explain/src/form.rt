//! How rows are written.
ghost use Rattle.std.specs.Prelude.{◌≡◌, ◌++◌, OnOk, decimal};
ghost use Rattle.union_explain.specs.Rows.{doubled, cell, separator, next_cell, heading};

use itoa::Buffer;
use std::alloc::AllocError;

/// What stands above the rows of CSV.
pub const HEADING: &[u8] =
    b"library,frame,offset,length,control number,tag,rule,what it says,what to do\n";

/// How rows are written.
#[derive(Clone, Copy, Debug, PartialEq, Eq)]
pub enum Form {
    /// Columns parted by tabs, without a heading.
    Tabs,
    /// CSV (RFC 4180) with a heading: columns between quotation marks, parted by commas. A line ends in LF alone.
    Csv,
}

/// Adds a text with each quotation mark doubled.
fn add_doubled(text: &mut Vec<u8>, column: &[u8]) -> Result<(), AllocError>
    ensures { OnOk result (text.new.items ≡ text.old.items ++ doubled column.now) }
{
    let mut rest = column;
    while let [first, behind @ ..] = rest {
        if *first == b'"' {
            text.push(b'"')?;
        }
        text.push(*first)?;
        rest = behind;
    }
    Ok(())
}

impl Form {
    /// What stands above the rows. Takes no memory.
    pub fn heading(self) -> &'static [u8]
        ensures { result.now ≡ heading self }
    {
        match self {
            Form::Tabs => &[],
            Form::Csv => HEADING,
        }
    }

    /// What parts the columns.
    fn separator(self) -> u8
        ensures { result ≡ separator self }
    {
        match self {
            Form::Tabs => b'\t',
            Form::Csv => b',',
        }
    }

    /// Adds the first column of a row.
    pub fn add_cell(self, text: &mut Vec<u8>, column: &[u8]) -> Result<(), AllocError>
        ensures { OnOk result (text.new.items ≡ text.old.items ++ cell self column.now) }
    {
        match self {
            Form::Tabs => text.extend_from_slice(column),
            Form::Csv => {
                text.push(b'"')?;
                add_doubled(text, column)?;
                text.push(b'"')?;
                Ok(())
            }
        }
    }

    /// Adds a further column.
    pub fn add_next(self, text: &mut Vec<u8>, column: &[u8]) -> Result<(), AllocError>
        ensures { OnOk result (text.new.items ≡ text.old.items ++ next_cell self column.now) }
    {
        text.push(self.separator())?;
        self.add_cell(text, column)?;
        Ok(())
    }

    /// Adds a further column that is a number.
    pub fn add_number(self, text: &mut Vec<u8>, number: u64) -> Result<(), AllocError>
        ensures { OnOk result (text.new.items ≡ text.old.items ++ next_cell self (decimal number)) }
    {
        let mut digits = Buffer::new();
        self.add_next(text, digits.format(number).as_bytes())
    }
}
