//! The fields that the catalogue writes itself of an edition.
ghost use Rattle.std.specs.Prelude.{◌≡◌, IfOk, IsTrue};
ghost use Rattle.std.specs.List.{list_all, flat_map};
ghost use Rattle.std.specs.Option.{option_to_list};
ghost use Rattle.union_base.specs.Fields.{is_text};
ghost use Rattle.catalogue_core.specs.Sound.{is_id};
ghost use Rattle.catalogue_export.specs.Exported.{contributor_field, number_field, own_parts};
ghost use Rattle.catalogue_export.specs.OwnFields.{own_list};

use crate::fields::{catalogue_field, contributor_field, fixed_field, key_field, number_field};
use catalogue_core::shown::Shown;
use std::alloc::Global;
use union_base::field::Field;
use union_base::memory::Memory;
use union_base::record_id::RecordId;

/// The most bytes of a 993: two indicators, two delimiters and codes, a library code and a control number.
const LONGEST_CONTRIBUTOR: usize = 86;

/// The fields of an edition's record that its content does not hold.
#[derive(Drop)]
pub(crate) struct OwnFields {
    /// 001, by the first contributor.
    pub(crate) number: Option<Field>,
    /// 003.
    pub(crate) catalogue: Field,
    /// 008.
    pub(crate) fixed: Field,
    /// 991.
    pub(crate) key: Field,
    /// A 993 for each contributor.
    pub(crate) contributors: Vec<Field>,
}

/// The fields that the catalogue writes itself of an edition with this content under this work key.
pub(crate) fn own_fields(
    alloc: Global,
    content: &Shown<'_>,
    key: &[u8],
) -> Result<OwnFields, Memory>
    requires { IsTrue (is_text key.now) }
    ensures { IfOk result (λ own. own_list own content.now ≡ own_parts content.now key.now) }
{
    let ids = content.contributors().as_slice();
    let mut buffer = Vec::with_capacity(alloc, key.len().saturating_add(LONGEST_CONTRIBUTOR))?;
    Ok(OwnFields {
        number: first_number(alloc, ids)?,
        catalogue: catalogue_field(alloc)?,
        fixed: fixed_field(alloc, &content.fixed().text)?,
        key: key_field(alloc, key, &mut buffer)?,
        contributors: contributor_fields(alloc, ids, &mut buffer)?,
    })
}

/// 001, by the first contributor.
fn first_number(alloc: Global, ids: &[RecordId]) -> Result<Option<Field>, Memory>
    requires { IsTrue (list_all is_id ids.now) }
    ensures { IfOk result (λ number. option_to_list number ≡ number_field ids.now) }
{
    match ids.first() {
        Some(id) => Ok(Some(number_field(alloc, id)?)),
        None => Ok(None),
    }
}

/// A 993 for each contributor. The buffer is written over.
fn contributor_fields(
    alloc: Global,
    ids: &[RecordId],
    buffer: &mut Vec<u8>,
) -> Result<Vec<Field>, Memory>
    requires { IsTrue (list_all is_id ids.now) }
    ensures { IfOk result (λ fields. fields.items ≡ flat_map contributor_field ids.now) }
{
    let mut fields = Vec::with_capacity(alloc, ids.len())?;
    for id in ids {
        fields.push(contributor_field(alloc, id, buffer)?)?;
    }
    Ok(fields)
}
