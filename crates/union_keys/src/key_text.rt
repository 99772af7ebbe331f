//! Keys as text, each in one word.
ghost use Rattle.std.specs.Prelude.{◌≡◌, ◌++◌, ◌∷◌, OnOk};
ghost use Rattle.std.specs.List.{flat_map};
ghost use Rattle.hex.specs.Hex.{encode_lower};
ghost use Rattle.match_features.specs.KeyLists.{posted, sought};
ghost use Rattle.union_keys.specs.Lines.{pair_text, description_text, key_text, key_cell, key_cells};

use catalogue_editions::edition::Edition;
use hex::encode;
use match_features::control_pair::ControlPair;
use match_features::description_key::DescriptionKey;
use match_features::keys::{FeatureKey, posted_keys, sought_keys};
use std::alloc::{AllocError, Global};
use union_base::memory::Memory;

/// What stands before a key that is sought, and before one under which an index has the edition.
const SOUGHT: u8 = b's';

const POSTED: u8 = b'p';

/// Adds the bytes in hex.
fn add_hex(alloc: Global, text: &mut Vec<u8>, bytes: &[u8]) -> Result<(), AllocError>
    ensures { OnOk result (text.new.items ≡ text.old.items ++ encode_lower bytes.now) }
{
    let digits = encode(alloc, bytes)?;
    text.extend_from_slice(digits.as_bytes())
}

/// Adds the kind of a key, and its text in hex.
fn add_one(alloc: Global, text: &mut Vec<u8>, kind: u8, bytes: &[u8]) -> Result<(), AllocError>
    ensures { OnOk result (text.new.items ≡ text.old.items ++ (kind ∷ encode_lower bytes.now)) }
{
    text.push(kind)?;
    add_hex(alloc, text, bytes)
}

/// Adds the kind of a key, and its two texts in hex with a full stop between them.
fn add_pair(
    alloc: Global,
    text: &mut Vec<u8>,
    kind: u8,
    pair: &ControlPair,
) -> Result<(), AllocError>
    ensures { OnOk result (text.new.items ≡ text.old.items ++ (kind ∷ pair_text pair.now)) }
{
    add_one(alloc, text, kind, pair.source())?;
    add_one(alloc, text, b'.', pair.number())
}

/// Adds the kind of a key, and its title, its date and its name in hex with full stops between them.
fn add_description(
    alloc: Global,
    text: &mut Vec<u8>,
    kind: u8,
    key: &DescriptionKey,
) -> Result<(), AllocError>
    ensures { OnOk result (text.new.items ≡ text.old.items ++ (kind ∷ description_text key.now)) }
{
    add_one(alloc, text, kind, key.title())?;
    add_one(alloc, text, b'.', key.date())?;
    add_one(alloc, text, b'.', key.name())
}

/// Adds a key.
pub(crate) fn add_key(alloc: Global, text: &mut Vec<u8>, key: &FeatureKey) -> Result<(), AllocError>
    ensures { OnOk result (text.new.items ≡ text.old.items ++ key_text key.now) }
{
    match key {
        FeatureKey::Control(pair) => add_pair(alloc, text, b'c', pair),
        FeatureKey::Isbn(isbn) => add_one(alloc, text, b'i', isbn),
        FeatureKey::Issn(issn) => add_one(alloc, text, b'j', issn),
        FeatureKey::Title(title) => add_one(alloc, text, b't', title.bytes()),
        FeatureKey::Description(key) => add_description(alloc, text, b'n', key),
        FeatureKey::TitleOfMany(title) => add_one(alloc, text, b'm', title.bytes()),
    }
}

/// Adds a column with a key.
fn add_key_cell(
    alloc: Global,
    text: &mut Vec<u8>,
    mark: u8,
    key: &FeatureKey,
) -> Result<(), AllocError>
    ensures { OnOk result (text.new.items ≡ text.old.items ++ key_cell mark key.now) }
{
    text.push(b'\t')?;
    text.push(mark)?;
    add_key(alloc, text, key)
}

/// Adds a column for each key.
fn add_each(
    alloc: Global,
    text: &mut Vec<u8>,
    mark: u8,
    keys: &[FeatureKey],
) -> Result<(), AllocError>
    ensures { OnOk result (text.new.items ≡ text.old.items ++ flat_map (key_cell mark) keys.now) }
{
    for key in keys {
        add_key_cell(alloc, text, mark, key)?;
    }
    Ok(())
}

/// Adds the columns of an edition's keys: those that it seeks, and then those under which an index has it.
///
/// Returns `Memory` if allocation fails.
fn add_keys(alloc: Global, text: &mut Vec<u8>, edition: &Edition) -> Result<(), Memory>
    ensures { OnOk result (text.new.items ≡ text.old.items ++ key_cells edition.now) }
{
    let seeks = sought_keys(alloc, edition.features())?;
    add_each(alloc, text, SOUGHT, seeks.as_slice())?;
    let posts = posted_keys(alloc, edition.features())?;
    add_each(alloc, text, POSTED, posts.as_slice())?;
    Ok(())
}

/// Adds the columns of the keys of each edition. Returns `Memory` if allocation fails.
pub(crate) fn add_all_keys(
    alloc: Global,
    text: &mut Vec<u8>,
    editions: &[Edition],
) -> Result<(), Memory>
    ensures { OnOk result (text.new.items ≡ text.old.items ++ flat_map key_cells editions.now) }
{
    for edition in editions {
        add_keys(alloc, text, edition)?;
    }
    Ok(())
}
