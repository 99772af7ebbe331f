//! The record that is made of a frame's draws.
ghost use Rattle.std.specs.Prelude.{◌≡◌, ◌∷◌, [], IfOk, IsTrue};
ghost use Rattle.marc_leader.specs.Codes.{is_printable};
ghost use Rattle.union_base.specs.Fields.{is_field};
ghost use Rattle.union_base.specs.Bodies.{Control, Data};
ghost use Rattle.catalogue_export.specs.Exported.{control_field, subfield};
ghost use Rattle.union_trial.specs.TrialRecords.{codes_of_status, number_field, fixed_field, isbn_field, author_field, title_field, text_field, load_fields, record_of};

use crate::draws::Draws;
use crate::numerals::eight_digits;
use crate::texts::{author, fixed_text, isbn_text, title};
use marc_leader::codes::LeaderCodes;
use marc_parts::marc_record::Record;
use std::alloc::Global;
use union_base::body::Body;
use union_base::bytes::Bytes;
use union_base::field::Field;
use union_base::memory::Memory;
use union_base::sequence::Sequence;
use union_base::subfield::Subfield;

/// The leader of a book in Unicode, of that status: new or deleted.
fn codes_of_status(status: u8) -> LeaderCodes
    requires { IsTrue (is_printable status) }
    ensures { result ≡ codes_of_status status }
{
    LeaderCodes {
        status,
        kind: b'a',
        level: b'm',
        control: b' ',
        coding: b'a',
        encoding: b' ',
        form: b'a',
        part: b' ',
        last: b'0',
    }
}

/// A control field of that text.
fn control_field(alloc: Global, tag: &[u8; 3], text: &[u8]) -> Result<Field, Memory>
    requires { IsTrue (is_field tag.now (Control text.now)) }
    ensures { IfOk result (λ f. control_field tag.now text.now ≡ f ∷ []) }
{
    let text = Bytes::of(alloc, text)?;
    Ok(Field {
        tag: *tag,
        body: Body::control(text),
    })
}

/// A data field with these two indicators and that text in $a.
fn text_field(
    alloc: Global,
    tag: &[u8; 3],
    ind1: u8,
    ind2: u8,
    text: &[u8],
) -> Result<Field, Memory>
    requires { IsTrue (is_field tag.now (Data ind1 ind2 (subfield 0x61 text.now ∷ []))) }
    ensures { IfOk result (λ f. text_field tag.now ind1 ind2 text.now ≡ f ∷ []) }
{
    let subfields = [Subfield { code: b'a', text }];
    let body = Body::of_subfields(alloc, ind1, ind2, &subfields)?;
    Ok(Field { tag: *tag, body })
}

/// 001, the control number.
fn number_field(alloc: Global, draws: &Draws) -> Result<Field, Memory>
    ensures { IfOk result (λ f. number_field draws.now ≡ f ∷ []) }
{
    control_field(alloc, b"001", &eight_digits(draws.control))
}

/// 008, the fixed-length data elements.
fn fixed_field(alloc: Global, draws: &Draws) -> Result<Field, Memory>
    ensures { IfOk result (λ f. fixed_field draws.now ≡ f ∷ []) }
{
    control_field(alloc, b"008", &fixed_text(draws.year))
}

/// 020, the ISBN.
fn isbn_field(alloc: Global, draws: &Draws) -> Result<Field, Memory>
    ensures { IfOk result (λ f. isbn_field draws.now ≡ f ∷ []) }
{
    text_field(alloc, b"020", b' ', b' ', &isbn_text(draws.number))
}

/// 100, the author.
fn author_field(alloc: Global, draws: &Draws) -> Result<Field, Memory>
    ensures { IfOk result (λ f. author_field draws.now ≡ f ∷ []) }
{
    text_field(alloc, b"100", b'1', b' ', &author(draws.name))
}

/// 245, the title.
fn title_field(alloc: Global, draws: &Draws) -> Result<Field, Memory>
    ensures { IfOk result (λ f. title_field draws.now ≡ f ∷ []) }
{
    text_field(alloc, b"245", b'0', b'0', &title(draws.title))
}

/// The fields of a record that is loaded.
fn load_fields(alloc: Global, draws: &Draws) -> Result<Vec<Field>, Memory>
    ensures { IfOk result (λ fields. fields.items ≡ load_fields draws.now) }
{
    let mut fields = Vec::with_capacity(alloc, 5)?;
    fields.push(number_field(alloc, draws)?)?;
    fields.push(fixed_field(alloc, draws)?)?;
    fields.push(isbn_field(alloc, draws)?)?;
    fields.push(author_field(alloc, draws)?)?;
    fields.push(title_field(alloc, draws)?)?;
    Ok(fields)
}

/// The fields of a record that is withdrawn: its control number alone.
fn withdrawal_fields(alloc: Global, draws: &Draws) -> Result<Vec<Field>, Memory>
    ensures { IfOk result (λ fields. fields.items ≡ number_field draws.now) }
{
    let mut fields = Vec::with_capacity(alloc, 1)?;
    fields.push(number_field(alloc, draws)?)?;
    Ok(fields)
}

/// The record of the draws: a deleted one where the first of them is 0, and else a new one.
pub fn record_of(alloc: Global, draws: &Draws) -> Result<Record, Memory>
    ensures { IfOk result (λ made. made ≡ record_of draws.now) }
{
    if draws.op == 0 {
        Ok(Record {
            leader: codes_of_status(b'd'),
            fields: Sequence::from(withdrawal_fields(alloc, draws)?),
        })
    } else {
        Ok(Record {
            leader: codes_of_status(b'n'),
            fields: Sequence::from(load_fields(alloc, draws)?),
        })
    }
}
