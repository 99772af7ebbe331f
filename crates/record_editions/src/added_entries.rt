//! The names of the added entries of an edition's records, read from the contents as they are.
//!
//! Cost: one look at each united field of each content, over a list of references to the contents. No field is copied, and the table
//! of names is asked once for each added entry of each content.
ghost use Rattle.std.specs.Prelude.{◌≡◌, [], ◌∷◌, ◌++◌, IfOk, OnOk};
ghost use Rattle.workset_keys.specs.Names.{HasTexts};
ghost use Rattle.workset_keys.specs.WorkKeys.{least_of};
ghost use Rattle.record_editions.specs.EditionKeys.{added_names, is_added_entry};

use authority_names::name_table::NameTable;
use catalogue_editions::shared_content::SharedContent;
use catalogue_editions::shown::Shown;
use marc_parts::parts::has_tag;
use std::alloc::Global;
use union_base::bytes::Bytes;
use union_base::field::Field;
use union_base::memory::Memory;
use workset_keys::fields::name_of;

/// The names of the added entries of each content that is shown, as the table has them. An entry that stands in several contents is named as
/// often, so the list can be longer than that of the merged content; the least name is the same. Returns `Memory` if allocation
/// fails.
pub(crate) fn names_used(
    alloc: Global,
    names: &NameTable,
    shown: &Shown<'_>,
) -> Result<Vec<Bytes>, Memory>
    ensures { IfOk result (λ used. least_of used.items
        ≡ least_of (added_names names.now shown.now.united)) }
{
    let (first, each) = shown.contents(alloc)?;
    let behind = each.as_slice();
    let mut used = Vec::new(alloc);
    push_names(alloc, names, first, &mut used)?;
    for other in behind {
        push_names(alloc, names, other, &mut used)?;
    }
    Ok(used)
}

/// Pushes the names of the content's added entries, as the table has them.
fn push_names(
    alloc: Global,
    names: &NameTable,
    content: &SharedContent,
    used: &mut Vec<Bytes>,
) -> Result<(), Memory>
    ensures { OnOk result (used.new.items ≡ used.old.items
        ++ added_names names.now content.now.united) }
{
    let fields = content.content().united.as_slice();
    for field in fields {
        push_name(alloc, names, field, used)?;
    }
    Ok(())
}

/// Pushes the name of the field where it is an added entry, as the table has it.
fn push_name(
    alloc: Global,
    names: &NameTable,
    field: &Field,
    used: &mut Vec<Bytes>,
) -> Result<(), Memory>
    requires { HasTexts field.now }
    ensures { OnOk result (used.new.items ≡ used.old.items
        ++ added_names names.now (field.now ∷ [])) }
{
    if is_added_entry(field) {
        let name = name_of(alloc, field)?;
        used.push(names.used_for(alloc, name)?)?;
    }
    Ok(())
}

/// Whether the field is an added entry under a name (MARC 21, 700, 710 and 711).
fn is_added_entry(field: &Field) -> bool
    ensures { result ≡ is_added_entry field.now }
{
    has_tag(b"700", field) || (has_tag(b"710", field) || has_tag(b"711", field))
}
