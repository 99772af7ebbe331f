//! What records describe by 006 and 007, and whether their carriers differ.
ghost use Rattle.std.specs.Prelude.{◌≡◌, ◌++◌, IfOk, OnOk};
ghost use Rattle.edition_doubts.specs.Reasons.{first_byte, first_byte_under, materials_of, shares_no_material, carriers_differ};

use crate::codes::forms_differ;
use crate::comparing::{push_told, share_none};
use catalogue_editions::shared_content::SharedContent;
use field_merge::content::Content;
use marc_parts::parts::{control_text, has_tag};
use std::alloc::Global;
use union_base::field::Field;
use union_base::memory::Memory;
use union_base::sorted_list::SortedList;

/// Pushes the first byte of a text, where there is one.
fn push_first(bytes: &mut Vec<[u8; 1]>, text: &[u8]) -> Result<(), Memory>
    ensures { OnOk result (bytes.new.items ≡ bytes.old.items ++ first_byte text.now) }
{
    match text {
        [] => Ok(()),
        [first, ..] => {
            bytes.push([*first])?;
            Ok(())
        }
    }
}

/// Pushes the first byte of a field with that tag.
fn push_first_under(bytes: &mut Vec<[u8; 1]>, tag: &[u8; 3], field: &Field) -> Result<(), Memory>
    ensures { OnOk result (bytes.new.items
        ≡ bytes.old.items ++ first_byte_under tag.now field.now) }
{
    if has_tag(tag, field) {
        push_first(bytes, control_text(&field.body))
    } else {
        Ok(())
    }
}

/// The first bytes of a record's fields with that tag.
fn materials_of(
    alloc: Global,
    tag: &[u8; 3],
    content: &Content,
) -> Result<SortedList<[u8; 1]>, Memory>
    ensures { IfOk result (λ list. list ≡ materials_of tag.now content.now) }
{
    let mut bytes = Vec::new(alloc);
    for field in content.united.as_slice() {
        push_first_under(&mut bytes, tag, field)?;
    }
    SortedList::of(bytes)
}

/// Whether no first byte of the fields with that tag is common to all records that have such a field.
fn shares_no_material(
    alloc: Global,
    tag: &[u8; 3],
    contents: &[SharedContent],
) -> Result<bool, Memory>
    ensures { IfOk result (λ none. none ≡ shares_no_material tag.now contents.now) }
{
    let mut lists = Vec::new(alloc);
    for content in contents {
        push_told(&mut lists, materials_of(alloc, tag, content.content())?)?;
    }
    Ok(share_none(lists.as_slice()))
}

/// Whether the carriers of the records differ. Returns `Memory` if allocation fails.
pub fn carriers_differ(alloc: Global, contents: &[SharedContent]) -> Result<bool, Memory>
    ensures { IfOk result (λ are. are ≡ carriers_differ contents.now) }
{
    if forms_differ(alloc, contents)? || shares_no_material(alloc, b"006", contents)? {
        Ok(true)
    } else {
        shares_no_material(alloc, b"007", contents)
    }
}
