//! What two editions that do not match have in common, and what not, as text.
ghost use Rattle.std.specs.Prelude.{◌≡◌, ◌++◌, OnOk, codes};
ghost use Rattle.std.specs.List.{flat_map};
ghost use Rattle.std.specs.Option.{option_copied};
ghost use Rattle.why_texts.specs.Differences.{next_value, values_text, after_text, both_text, unlike_text};
ghost use Rattle.why_texts.specs.Differences.{compared_text, line_text, common_pair, control_told, differences_text};

use crate::spelled::Spelled;
use edition_derivations::common::first_common;
use match_features::features::Features;
use std::alloc::AllocError;
use union_base::bytes::Bytes;
use union_base::sorted_list::SortedList;

/// Adds a comma, a blank and the value.
fn add_next<K: Spelled>(text: &mut Vec<u8>, value: &K) -> Result<(), AllocError>
    ensures { OnOk result (text.new.items ≡ text.old.items ++ next_value K.spelled value.now) }
{
    text.extend_from_slice(b", ")?;
    text.extend_from_slice(value.spelling())
}

/// Adds a comma, a blank and the value for each.
fn add_later<K: Spelled>(text: &mut Vec<u8>, values: &[K]) -> Result<(), AllocError>
    ensures { OnOk result (text.new.items
        ≡ text.old.items ++ flat_map (next_value K.spelled) values.now) }
{
    for value in values {
        add_next(text, value)?;
    }
    Ok(())
}

/// Adds the values, with a comma between two.
fn add_values<K: Spelled>(text: &mut Vec<u8>, values: &[K]) -> Result<(), AllocError>
    ensures { OnOk result (text.new.items ≡ text.old.items ++ values_text K.spelled values.now) }
{
    match values {
        [] => Ok(()),
        [first, rest @ ..] => {
            text.extend_from_slice(first.spelling())?;
            add_later(text, rest)
        }
    }
}

/// Adds words, and then the values.
fn add_after<K: Spelled>(text: &mut Vec<u8>, words: &[u8], values: &[K]) -> Result<(), AllocError>
    ensures { OnOk result (text.new.items
        ≡ text.old.items ++ after_text K.spelled words.now values.now) }
{
    text.extend_from_slice(words)?;
    add_values(text, values)?;
    Ok(())
}

/// Adds the values of both.
fn add_both<K: Spelled>(text: &mut Vec<u8>, xs: &[K], ys: &[K]) -> Result<(), AllocError>
    ensures { OnOk result (text.new.items ≡ text.old.items ++ both_text K.spelled xs.now ys.now) }
{
    add_after(text, b"differs: ", xs)?;
    add_after(text, b" and ", ys)?;
    Ok(())
}

/// Adds what each has, where they have no value in common.
fn add_unlike<K: Spelled>(text: &mut Vec<u8>, xs: &[K], ys: &[K]) -> Result<(), AllocError>
    ensures { OnOk result (text.new.items ≡ text.old.items ++ unlike_text K.spelled xs.now ys.now) }
{
    if xs.is_empty() {
        if ys.is_empty() {
            text.extend_from_slice(b"neither has one")
        } else {
            add_after(text, b"only the second has one: ", ys)
        }
    } else if ys.is_empty() {
        add_after(text, b"only the first has one: ", xs)
    } else {
        add_both(text, xs, ys)
    }
}

/// Adds a value that both have.
fn add_same<K: Spelled>(text: &mut Vec<u8>, value: &K) -> Result<(), AllocError>
    ensures { OnOk result (text.new.items
        ≡ text.old.items ++ (codes "same: " ++ K.spelled value.now)) }
{
    text.extend_from_slice(b"same: ")?;
    text.extend_from_slice(value.spelling())?;
    Ok(())
}

/// Adds a value that both have; where there is none, what each has.
fn add_compared<K: Spelled>(
    text: &mut Vec<u8>,
    common: Option<&K>,
    xs: &[K],
    ys: &[K],
) -> Result<(), AllocError>
    ensures { OnOk result (text.new.items
        ≡ text.old.items ++ compared_text K.spelled (option_copied common.entry) xs.now ys.now) }
{
    match common {
        Some(value) => add_same(text, value),
        None => add_unlike(text, xs, ys),
    }
}

/// Adds the line under a name.
fn add_line<K: Spelled>(
    text: &mut Vec<u8>,
    name: &[u8],
    xs: &SortedList<K>,
    ys: &SortedList<K>,
) -> Result<(), AllocError>
    ensures { OnOk result (text.new.items
        ≡ text.old.items ++ line_text K.cmp K.spelled name.now xs.now ys.now) }
{
    text.extend_from_slice(name)?;
    add_compared(text, first_common(xs, ys), xs.as_slice(), ys.as_slice())?;
    text.extend_from_slice(b"\n")?;
    Ok(())
}

/// Adds a control number that is common to both.
fn add_pair(text: &mut Vec<u8>, pair: &(Bytes, Bytes)) -> Result<(), AllocError>
    ensures { OnOk result (text.new.items ≡ text.old.items ++ common_pair pair.now) }
{
    text.extend_from_slice(b"control   same: (")?;
    text.extend_from_slice(pair.0.bytes())?;
    text.extend_from_slice(b")")?;
    text.extend_from_slice(pair.1.bytes())?;
    text.extend_from_slice(b"\n")?;
    Ok(())
}

/// Adds whether a control number is common to both.
fn add_control(text: &mut Vec<u8>, common: Option<&(Bytes, Bytes)>) -> Result<(), AllocError>
    ensures { OnOk result (text.new.items
        ≡ text.old.items ++ control_told (option_copied common.entry)) }
{
    match common {
        None => text.extend_from_slice(b"control   none in common\n"),
        Some(pair) => add_pair(text, pair),
    }
}

/// Adds what two editions have in common, and what not, each kind of feature on a line.
pub fn add_differences(text: &mut Vec<u8>, x: &Features, y: &Features) -> Result<(), AllocError>
    ensures { OnOk result (text.new.items ≡ text.old.items ++ differences_text x.now y.now) }
{
    add_control(text, first_common(&x.control, &y.control))?;
    add_line(text, b"ISBN      ", &x.isbns, &y.isbns)?;
    add_line(text, b"ISSN      ", &x.issns, &y.issns)?;
    add_line(text, b"title     ", &x.titles, &y.titles)?;
    add_line(text, b"name      ", &x.names, &y.names)?;
    add_line(text, b"date      ", &x.dates, &y.dates)?;
    add_line(text, b"type      ", &x.types, &y.types)?;
    Ok(())
}
