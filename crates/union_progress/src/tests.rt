//! The texts of the progress, and how it is shown.
use crate::line::{Amounts, line_of};
use crate::style::Style;

/// A run that has read a third of a million bytes in two seconds.
const BEGUN: Amounts = Amounts {
    records: 1_234_567,
    read: 333_333,
    total: 1_000_000,
    written: 0,
    milliseconds: 2_000,
};

#[test]
fn tells_how_far_a_run_is(rt: HostRuntime) {
    let unknown = Amounts { total: 0, ..BEGUN };
    let all = Amounts {
        read: 1_000_000,
        ..BEGUN
    };
    let writing = Amounts {
        written: 1_203_000_000,
        ..all
    };
    let none = Amounts {
        records: 0,
        read: 0,
        milliseconds: 0,
        ..BEGUN
    };
    for (amounts, line) in [
        (
            BEGUN,
            "union: loading: 1,234,567 records, 617,283 a second, 33 %, 4 s left",
        ),
        (
            unknown,
            "union: loading: 1,234,567 records, 617,283 a second",
        ),
        (all, "union: 1,234,567 records read; resolving"),
        (writing, "union: 1,234,567 records read; writing: 1,203 MB"),
        (none, "union: loading: 0 records, 0 a second"),
    ] {
        let told = line_of(rt.alloc(), amounts);
        assert!(rt; told.is_ok_and(|told| told.as_str() == line), "{line}");
    }
}

#[test]
fn is_shown_by_the_word_and_the_terminal(rt: HostRuntime) {
    for (word, is_terminal, style) in [
        (None, true, Style::Line),
        (None, false, Style::Silent),
        (Some(b"1".as_slice()), true, Style::Line),
        (Some(b"1".as_slice()), false, Style::Lines),
        (Some(b"0".as_slice()), true, Style::Silent),
        (Some(b"0".as_slice()), false, Style::Silent),
        (Some(b"yes".as_slice()), true, Style::Line),
        (Some(b"".as_slice()), false, Style::Silent),
    ] {
        assert!(rt; Style::of(word, is_terminal) == style);
    }
}
