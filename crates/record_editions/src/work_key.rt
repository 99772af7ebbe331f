//! The work key of an edition, as `specs/EditionKeys.antt` has it.
//!
//! It is made of the contents of the edition's records as they are: nothing is merged for it. Cost: one look at each content, and
//! where the main entry has no name one at each united field, beside that of the key. The table of names is asked once for each
//! name that the key needs.
ghost use Rattle.std.specs.Prelude.{◌≡◌, [], IfOk, IsTrue, if◌then◌else◌};
ghost use Rattle.std.specs.Option.{option_copied};
ghost use Rattle.std.specs.Str.{is_utf8};
ghost use Rattle.union_base.specs.Fields.{is_text};
ghost use Rattle.naco_normal.specs.Words.{is_empty};
ghost use Rattle.workset_keys.specs.WorkKeys.{least_of};
ghost use Rattle.record_editions.specs.EditionKeys.{added_names, field_in, work_key_by};

use crate::added_entries::names_used;
use authority_names::name_table::NameTable;
use catalogue_editions::edition::Edition;
use catalogue_editions::shown::Shown;
use field_merge::slot::Slot;
use std::alloc::Global;
use union_base::bytes::Bytes;
use union_base::field::Field;
use union_base::memory::Memory;
use workset_keys::names::main_name;
use workset_keys::work_key::key_of_names;

/// The key of the work that the edition belongs to (this project's own profile of the OCLC work-set algorithm): that of its
/// main entry, its 240, its 245, its added entries 700, 710 and 711, and its least contributor. Each name is the one that the
/// table has for it, or itself. The key is UTF-8, and has none of 0x1D, 0x1E and 0x1F.
///
/// Returns `Memory` if allocation fails.
pub fn work_key_of(alloc: Global, names: &NameTable, edition: &Edition) -> Result<Bytes, Memory>
    ensures value { IfOk result (λ key. key ≡ work_key_by names.now edition.now) }
    ensures text { IfOk result (λ key. IsTrue (is_text key)) }
    ensures utf8 { IfOk result (λ key. IsTrue (is_utf8 key)) }
{
    let shown = edition.shown();
    let main = field_in(shown.f1xx());
    let name = names.used_for(alloc, main_name(alloc, main)?)?;
    let others = names_needed(alloc, names, &name, &shown)?;
    key_of_names(
        alloc,
        &name,
        main,
        field_in(shown.f240()),
        &shown.f245().field,
        others.as_slice(),
        edition.least(),
    )
}

/// The names of the added entries, as the table has them, or none where the main entry has a name: a key by that needs no other.
fn names_needed(
    alloc: Global,
    names: &NameTable,
    name: &Bytes,
    shown: &Shown<'_>,
) -> Result<Vec<Bytes>, Memory>
    ensures { IfOk result (λ others. least_of others.items ≡ (if is_empty name.now
        then least_of (added_names names.now shown.now.united) else [])) }
{
    if name.bytes().is_empty() {
        names_used(alloc, names, shown)
    } else {
        Ok(Vec::new(alloc))
    }
}

/// The field of a slot.
fn field_in(slot: &Option<Slot>) -> Option<&Field>
    ensures { option_copied result ≡ field_in slot.now }
{
    match slot {
        Some(slot) => Some(&slot.field),
        None => None,
    }
}
