//! The names by which a work is known: that of the main entry, and the least of the added entries, as `specs/WorkKeys.antt`
//! has them. The key is made of them elsewhere, so that other names can be put in their place. Each field is read once.
ghost use Rattle.std.specs.Prelude.{◌≡◌, All, IfOk};
ghost use Rattle.std.specs.Option.{ForSome, option_copied};
ghost use Rattle.workset_keys.specs.Names.{HasTexts};
ghost use Rattle.workset_keys.specs.WorkKeys.{is_uniform_title, main_name, lesser, least_name, least_of};

use crate::fields::name_of;
use crate::texts::{empty, is_empty};
use std::alloc::Global;
use union_base::bytes::Bytes;
use union_base::field::Field;
use union_base::memory::Memory;

/// The name in the main entry, empty where it is a uniform title or not there. Returns `Memory` if allocation fails.
pub fn main_name(alloc: Global, main: Option<&Field>) -> Result<Bytes, Memory>
    requires { ForSome (option_copied main) HasTexts }
    ensures { IfOk result (λ b. b ≡ main_name (option_copied main.entry)) }
{
    match main {
        Some(field) => {
            if is_uniform_title(&field.tag) {
                Ok(empty(alloc))
            } else {
                name_of(alloc, field)
            }
        }
        None => Ok(empty(alloc)),
    }
}

/// The byte-least name in the fields, of those that aren't empty.
pub(crate) fn least_name(alloc: Global, added: &[Field]) -> Result<Bytes, Memory>
    requires { All HasTexts added.now }
    ensures { IfOk result (λ b. b ≡ least_name added.now) }
{
    let mut least = empty(alloc);
    for field in added {
        least = lesser(least, name_of(alloc, field)?);
    }
    Ok(least)
}

/// The byte-least of the names, of those that aren't empty.
pub(crate) fn least_of(alloc: Global, names: &[Bytes]) -> Result<Bytes, Memory>
    ensures { IfOk result (λ b. b ≡ least_of names.now) }
{
    let mut least: &[u8] = &[];
    for name in names {
        least = lesser_bytes(least, name.bytes());
    }
    Bytes::of(alloc, least)
}

/// The byte-lesser of two texts, where an empty one counts for nothing.
fn lesser_bytes<'a>(least: &'a [u8], text: &'a [u8]) -> &'a [u8]
    ensures { result.now ≡ lesser least.now text.now }
{
    if least.is_empty() {
        return text;
    }
    if text.is_empty() {
        return least;
    }
    if text.cmp(least).is_lt() { text } else { least }
}

/// The byte-lesser of two texts, where an empty one counts for nothing.
fn lesser(least: Bytes, text: Bytes) -> Bytes
    ensures { result ≡ lesser least text }
{
    if is_empty(&least) {
        return text;
    }
    if is_empty(&text) {
        return least;
    }
    if text.cmp(&least).is_lt() {
        text
    } else {
        least
    }
}

/// Whether the tag is that of a uniform title in the main entry.
pub(crate) fn is_uniform_title(tag: &[u8; 3]) -> bool
    ensures { result ≡ is_uniform_title tag.now }
{
    tag.as_slice() == b"130".as_slice()
}
