//! The table of the values of `nabc-lines`. Code and definitions read this one.

ghost use Rattle.std.specs.Prelude.{◌≡◌};
ghost use Rattle.gabc_headers.specs.Book.{nabc_values};
ghost use Rattle.gabc_headers.specs.NabcLines.{values_in_range};

/// The values that the header `nabc-lines` may have, in ASCII. The index of each is the number of
/// NABC lines that it means.
pub const NABC_LINES: [&str; 5] = ["0", "1", "2", "3", "4"];

/// Law: the values that the header `nabc-lines` may have are the digits 0 to 4, each at the index
/// that is its number.
pub fn nabc_lines_are_these()
    ensures { nabc_values ≡ values_in_range }
{}
