//! Prints headers in the answers of rows.

use crate::printed::Printed;
use gabc_headers::{HeaderBook, Headers};

/// The digits for whose macros a row asks: 10 and 11 are none.
const DIGITS: [u8; 12] = [0, 1, 2, 3, 4, 5, 6, 7, 8, 9, 10, 11];

/// Prints a digit with a blank before it, if its macro is defined.
fn show_digit(digit: u8, is_macro: bool, out: &mut Printed) {
    if is_macro {
        out.put(" ");
        out.show(&digit);
    }
}

/// Prints the number of NABC lines, the macros as a number, and the number of bytes of the
/// canonical lines.
fn show_numbers(lines: u8, macros: u16, canonical: usize, out: &mut Printed) {
    out.show(&lines);
    out.tab();
    out.show(&macros);
    out.tab();
    out.show(&canonical);
    out.put("\tmacros");
}

/// Prints the meaning of a book, and its headers.
pub(crate) fn show_book(book: &HeaderBook, out: &mut Printed) {
    show_numbers(book.nabc_lines(), book.macros(), book.canonical_len(), out);
    for digit in DIGITS {
        show_digit(digit, book.is_macro(digit), out);
    }
    out.put(if book.is_empty() { "\tempty " } else { "\t" });
    out.show_debug(book);
}

/// Prints the meaning of headers.
pub(crate) fn show_headers(headers: &Headers, out: &mut Printed) {
    show_numbers(
        headers.nabc_lines(),
        headers.macros(),
        headers.canonical_len(),
        out,
    );
    for digit in DIGITS {
        show_digit(digit, headers.is_macro(digit), out);
    }
}

/// Prints a value, or that there is none.
pub(crate) fn show_value(value: Option<&str>, out: &mut Printed) {
    match value {
        Some(value) => show_text(value, out),
        None => out.put("none"),
    }
}

/// Prints a text as `{:?}` does.
pub(crate) fn show_text(text: &str, out: &mut Printed) {
    out.show_debug(&text);
}

/// Prints the headers of a book as `NAME=VALUE|` each.
pub(crate) fn show_entries(book: &HeaderBook, out: &mut Printed) {
    for (name, value) in book {
        show_entry(name, value, "|", out);
    }
}

/// Prints a header, and `end` after it.
pub(crate) fn show_entry(name: &str, value: &str, end: &str, out: &mut Printed) {
    out.put(name);
    out.put("=");
    out.put(value);
    out.put(end);
}
