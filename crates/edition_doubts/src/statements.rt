//! The edition statements of records (MARC 21, 250).
ghost use Rattle.std.specs.Prelude.{◌≡◌, ◌++◌, IfOk, OnOk};
ghost use Rattle.edition_doubts.specs.Reasons.{statements_of, statements_differ};

use crate::comparing::differ;
use catalogue_editions::shared_content::SharedContent;
use field_merge::content::Content;
use marc_parts::parts::has_tag;
use std::alloc::Global;
use union_base::copied::Copied;
use union_base::field::Field;
use union_base::memory::Memory;

/// Pushes the edition statements of a record.
fn push_statements(
    alloc: Global,
    statements: &mut Vec<Field>,
    content: &Content,
) -> Result<(), Memory>
    ensures { OnOk result (statements.new.items
        ≡ statements.old.items ++ statements_of content.now) }
{
    for field in content.united.as_slice() {
        if has_tag(b"250", field) {
            statements.push(field.copied(alloc)?)?;
        }
    }
    Ok(())
}

/// Whether two of the records' edition statements differ. Returns `Memory` if allocation fails.
pub fn statements_differ(alloc: Global, contents: &[SharedContent]) -> Result<bool, Memory>
    ensures { IfOk result (λ are. are ≡ statements_differ contents.now) }
{
    let mut statements = Vec::new(alloc);
    for content in contents {
        push_statements(alloc, &mut statements, content.content())?;
    }
    Ok(differ(statements.as_slice()))
}
