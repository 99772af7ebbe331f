//! The key by which records and editions are grouped into works, as `work_key` in `specs/WorkKeys.antt` has it, which is
//! this project's own profile of the OCLC work-set algorithm.
ghost use Rattle.std.specs.Prelude.{◌≡◌, All, IfOk};
ghost use Rattle.std.specs.Option.{ForSome, option_copied};
ghost use Rattle.workset_keys.specs.Names.{HasTexts, title245_of};
ghost use Rattle.workset_keys.specs.WorkKeys.{least_of, main_title, uniform_title, or_else, own_name, key_by_title, key_without_name, key_of_names, work_key};

use crate::fields::{title130_of, title240_of, title245_of};
use crate::names::{is_uniform_title, least_name, least_of, main_name};
use crate::texts::{empty, is_empty, joined};
use std::alloc::Global;
use union_base::bytes::Bytes;
use union_base::field::Field;
use union_base::memory::Memory;
use union_base::record_id::RecordId;

/// The key of the work. `main` is the field 100, 110, 111 or 130, `uniform` the 240, `title` the 245, and `added` are the
/// fields 700, 710 and 711.
///
/// Where the main entry is a name that isn't empty, the key is that name, `/`, and the title of the 240, or of the 245
/// where that is empty or not there. Else, where it is a uniform title that isn't empty, it is `/` and that title. Else
/// it is the title of the 245, and `//` and the byte-least added name that isn't empty, or where there is none `///` and
/// the record's library and control number, joined by a point.
///
/// Returns `Memory` if allocation fails.
pub fn work_key(
    alloc: Global,
    main: Option<&Field>,
    uniform: Option<&Field>,
    title: &Field,
    added: &[Field],
    id: &RecordId,
) -> Result<Bytes, Memory>
    requires main { ForSome (option_copied main) HasTexts }
    requires uniform { ForSome (option_copied uniform) HasTexts }
    requires title { HasTexts title.now }
    requires added { All HasTexts added.now }
    ensures { IfOk result (λ key. key ≡ work_key (option_copied main.entry)
        (option_copied uniform.entry) title.now added.now id.now) }
{
    let name = main_name(alloc, main)?;
    // A key by the name in the main entry needs no added name.
    let least = if is_empty(&name) {
        least_name(alloc, added)?
    } else {
        empty(alloc)
    };
    key_with_least(alloc, &name, &least, main, uniform, title, id)
}

/// The key of the work with other names than those of its fields: `name` in place of that of the main entry, empty where it
/// has none, and `added` in place of those of the added entries. All else is as in `work_key`. Returns `Memory` if allocation
/// fails.
pub fn key_of_names(
    alloc: Global,
    name: &Bytes,
    main: Option<&Field>,
    uniform: Option<&Field>,
    title: &Field,
    added: &[Bytes],
    id: &RecordId,
) -> Result<Bytes, Memory>
    requires main { ForSome (option_copied main) HasTexts }
    requires uniform { ForSome (option_copied uniform) HasTexts }
    requires title { HasTexts title.now }
    ensures { IfOk result (λ key. key ≡ key_of_names name.now (least_of added.now)
        (option_copied main.entry) (option_copied uniform.entry) title.now id.now) }
{
    // A key by the name in the main entry needs no added name.
    let least = if is_empty(name) {
        least_of(alloc, added)?
    } else {
        empty(alloc)
    };
    key_with_least(alloc, name, &least, main, uniform, title, id)
}

/// The key with these names, of the main entry and the least of the added entries, where an empty one is none.
fn key_with_least(
    alloc: Global,
    name: &Bytes,
    least: &Bytes,
    main: Option<&Field>,
    uniform: Option<&Field>,
    title: &Field,
    id: &RecordId,
) -> Result<Bytes, Memory>
    requires main { ForSome (option_copied main) HasTexts }
    requires uniform { ForSome (option_copied uniform) HasTexts }
    requires title { HasTexts title.now }
    ensures { IfOk result (λ key. key ≡ key_of_names name.now least.now (option_copied main.entry)
        (option_copied uniform.entry) title.now id.now) }
{
    if is_empty(name) {
        key_without_name(alloc, least, main, title, id)
    } else {
        let title = work_title(alloc, uniform, title)?;
        joined(alloc, name.bytes(), b"/", title.bytes())
    }
}

/// The key where the main entry has no name: its title, where it has one.
fn key_without_name(
    alloc: Global,
    least: &Bytes,
    main: Option<&Field>,
    title: &Field,
    id: &RecordId,
) -> Result<Bytes, Memory>
    requires main { ForSome (option_copied main) HasTexts }
    requires title { HasTexts title.now }
    ensures { IfOk result (λ key. key ≡ key_without_name (main_title (option_copied main.entry))
        (title245_of title.now) least.now (own_name id.now)) }
{
    let whole = main_title(alloc, main)?;
    if is_empty(&whole) {
        key_by_title(alloc, least, title, id)
    } else {
        joined(alloc, b"", b"/", whole.bytes())
    }
}

/// The key where the main entry has no name and no title.
fn key_by_title(alloc: Global, least: &Bytes, title: &Field, id: &RecordId) -> Result<Bytes, Memory>
    requires { HasTexts title.now }
    ensures { IfOk result (λ key. key ≡ key_by_title (title245_of title.now) least.now
        (own_name id.now)) }
{
    let title = title245_of(alloc, title)?;
    if is_empty(least) {
        let own = own_name(alloc, id)?;
        joined(alloc, title.bytes(), b"///", own.bytes())
    } else {
        joined(alloc, title.bytes(), b"//", least.bytes())
    }
}

/// The title in the main entry, empty where it is a name or not there.
fn main_title(alloc: Global, main: Option<&Field>) -> Result<Bytes, Memory>
    requires { ForSome (option_copied main) HasTexts }
    ensures { IfOk result (λ b. b ≡ main_title (option_copied main.entry)) }
{
    match main {
        Some(field) => {
            if is_uniform_title(&field.tag) {
                title130_of(alloc, field)
            } else {
                Ok(empty(alloc))
            }
        }
        None => Ok(empty(alloc)),
    }
}

/// The title that goes with a name: that of the 240, or of the 245 where that is empty.
fn work_title(alloc: Global, uniform: Option<&Field>, title: &Field) -> Result<Bytes, Memory>
    requires uniform { ForSome (option_copied uniform) HasTexts }
    requires title { HasTexts title.now }
    ensures { IfOk result (λ b. b ≡ or_else (uniform_title (option_copied uniform.entry))
        (title245_of title.now)) }
{
    let own = uniform_title(alloc, uniform)?;
    if is_empty(&own) {
        title245_of(alloc, title)
    } else {
        Ok(own)
    }
}

/// The title in the 240, empty where there is none.
fn uniform_title(alloc: Global, uniform: Option<&Field>) -> Result<Bytes, Memory>
    requires { ForSome (option_copied uniform) HasTexts }
    ensures { IfOk result (λ b. b ≡ uniform_title (option_copied uniform.entry)) }
{
    match uniform {
        Some(field) => title240_of(alloc, field),
        None => Ok(empty(alloc)),
    }
}

/// The record's own name: its library's code and its control number there, joined by a point. Returns `Memory` if
/// allocation fails.
pub fn own_name(alloc: Global, id: &RecordId) -> Result<Bytes, Memory>
    ensures { IfOk result (λ b. b ≡ own_name id.now) }
{
    joined(alloc, id.library.bytes(), b".", id.control.bytes())
}
