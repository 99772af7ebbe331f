//! The texts of the progress.
use std::alloc::{AllocError, Global};
use std::string::String;

/// What is known of a run: how much was read, of how much where that is known, how much was written, and how long it has run.
#[derive(Clone, Copy, Debug)]
pub(crate) struct Amounts {
    pub records: u64,
    pub read: u64,
    /// 0 where it is not known.
    pub total: u64,
    pub written: u64,
    pub milliseconds: u64,
}

/// A number with a comma before each three digits.
fn grouped(alloc: Global, number: u64) -> Result<String, AllocError> {
    if number < 1_000 {
        return format!(in alloc; "{number}");
    }
    let front = grouped(alloc, number / 1_000)?;
    let last = number % 1_000;
    format!(in alloc; "{front},{last:03}")
}

/// `number * times / by`, and the largest number where that is more. 0 where `by` is 0.
fn scaled(number: u64, times: u64, by: u64) -> u64 {
    if by == 0 {
        return 0;
    }
    let product = u128::from(number) * u128::from(times) / u128::from(by);
    match u64::try_from(product) {
        Ok(scaled) => scaled,
        Err(_) => u64::MAX,
    }
}

/// The share that was read and the seconds that are left, where the size is known.
fn left(alloc: Global, amounts: Amounts) -> Result<String, AllocError> {
    if amounts.read == 0 || amounts.total <= amounts.read {
        return format!(in alloc; "");
    }
    let percent = scaled(amounts.read, 100, amounts.total);
    let more = scaled(
        amounts.milliseconds,
        amounts.total - amounts.read,
        amounts.read,
    ) / 1_000;
    let seconds = grouped(alloc, more)?;
    format!(in alloc; ", {percent} %, {seconds} s left")
}

/// What is told of a run. While it reads: the records so far, how many a second, and the share that was read with the time that is left,
/// where the size of the files is known. When all is read, that it resolves; and once it writes, how much.
pub(crate) fn line_of(alloc: Global, amounts: Amounts) -> Result<String, AllocError> {
    let records = grouped(alloc, amounts.records)?;
    if amounts.written > 0 {
        let written = grouped(alloc, amounts.written / 1_000_000)?;
        return format!(in alloc; "union: {records} records read; writing: {written} MB");
    }
    if amounts.total > 0 && amounts.total <= amounts.read {
        return format!(in alloc; "union: {records} records read; resolving");
    }
    let rate = grouped(alloc, scaled(amounts.records, 1_000, amounts.milliseconds))?;
    let left = left(alloc, amounts)?;
    format!(in alloc; "union: loading: {records} records, {rate} a second{left}")
}
