//! The refusals that a conversion from MARC-8 may mend, and the command that converts a file.
ghost use Rattle.std.specs.Prelude.{◌≡◌, ◌++◌, filter, IfOk, OnOk};
ghost use Rattle.union_words.specs.Meanings.{libraries_meaning};
ghost use Rattle.union_explain.specs.Conversions.{is_marc8, marc8_refusals};

use crate::reported::{Reported, refused_of};
use std::alloc::{AllocError, Global};
use union_base::memory::Memory;
use union_words::libraries::Libraries;

/// The command that converts a file.
pub const CONVERSION: &[u8; 72] =
    b"yaz-marcdump -f MARC-8 -t UTF-8 -l 9=97 -i marc -o marc in.mrc > out.mrc";

/// Whether the record says that it is in MARC-8, and a field of it is not ASCII.
fn is_marc8(told: &Reported) -> bool
    ensures { result ≡ is_marc8 told.now }
{
    told.place != 0 && told.rule.name() == b"Coding".as_slice()
}

/// Adds those of the refusals that a conversion may mend.
fn add_marc8(refused: &[Reported], found: &mut Vec<Reported>) -> Result<(), AllocError>
    ensures { OnOk result (found.new.items ≡ found.old.items ++ filter is_marc8 refused.now) }
{
    for told in refused {
        if is_marc8(told) {
            found.push(*told)?;
        }
    }
    Ok(())
}

/// The refusals of these libraries by the rule on coding at a field, in the order of the libraries and of the report: the records say
/// that they are in MARC-8, which is not read beyond ASCII. Returns `Memory` if allocation fails.
pub fn marc8_refusals(
    alloc: Global,
    libraries: &Libraries<'_>,
    report: &[u8],
) -> Result<Vec<Reported>, Memory>
    ensures { IfOk result (λ found. found.items
        ≡ marc8_refusals report.now (libraries_meaning libraries.now)) }
{
    let mut found = Vec::new(alloc);
    for place in 0..libraries.len() {
        let file = libraries.at(place);
        let refused = refused_of(alloc, file.library.bytes(), report)?;
        add_marc8(refused.as_slice(), &mut found)?;
    }
    Ok(found)
}
