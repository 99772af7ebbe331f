//! What holds of the numbers that keys are made of. Each function is empty, and its clause is the law.
ghost use Rattle.isbn_keys.specs.Laws.{CheckDigitDivides, ConvertedIsIsbn};

/// The check digit of twelve digits is the one that makes the sum of all thirteen, with the weights 1 and 3 in turn, divisible
/// by 10, and no other does (ISO 2108).
pub fn check_digit_divides()
    ensures { CheckDigitDivides }
{}

/// A number of ten whose check holds becomes a number of thirteen whose check holds.
pub fn converted_is_isbn()
    ensures { ConvertedIsIsbn }
{}
