//! A row of a table: a call, its input and its answer, split by tabs. The call's name may have two
//! words after it, and the answer may have several columns.

use crate::columns::unescaped;
use crate::printed::Printed;
use crate::table::Table;
use gabc_places::{Limits, Place, Span};
use std::alloc::{AllocError, Global};
use std::str::from_utf8;

/// A call.
#[derive(Clone, Copy)]
pub(crate) struct Call<'a> {
    pub name: &'a str,
    /// The words after the name.
    pub first: &'a str,
    pub second: &'a str,
    /// The input.
    pub bytes: &'a [u8],
    /// The input as a text, if it is UTF-8, and else a text that says that it is not.
    pub text: &'a str,
}

/// Returns the place of a column `LINE:COLUMN`.
pub(crate) fn place_of(column: &str) -> Option<Place> {
    let (line, column) = column.split_once(':')?;
    Some(Place {
        line: line.parse::<u64>().ok()?,
        column: column.parse::<u64>().ok()?,
    })
}

/// Returns the span of a column `FROM-TO`.
pub(crate) fn span_of(column: &str) -> Option<Span> {
    let (from, to) = column.split_once('-')?;
    Some(Span {
        from: from.parse::<usize>().ok()?,
        to: to.parse::<usize>().ok()?,
    })
}

/// Returns the limits of a column, each in bytes, if they are in range.
pub(crate) fn limits_of(column: &str) -> Option<Limits> {
    let mut numbers = column.split(',');
    let header = numbers.next()?.parse::<u32>().ok()?;
    let syllable = numbers.next()?.parse::<u32>().ok()?;
    let input = numbers.next()?.parse::<u32>().ok()?;
    Limits::new(header, syllable, input)
}

/// Returns the call of the first two columns of a row.
fn call_of<'a>(column: &'a str, bytes: &'a [u8]) -> Call<'a> {
    let mut words = column.split(' ');
    Call {
        name: words.next().unwrap_or(""),
        first: words.next().unwrap_or(""),
        second: words.next().unwrap_or(""),
        bytes,
        text: from_utf8(bytes).unwrap_or("not UTF-8"),
    }
}

/// Returns whether the call of the row `line` of `table` has the answer of the row. Appends its
/// answer to `printed`.
pub(crate) fn is_answered(
    alloc: Global,
    table: Table,
    line: &str,
    printed: &mut Printed,
) -> Result<bool, AllocError> {
    let (call, rest) = line.split_once('\t').unwrap_or((line, ""));
    let (input, wanted) = rest.split_once('\t').unwrap_or((rest, ""));
    let bytes = unescaped(alloc, input)?;
    let wanted = unescaped(alloc, wanted)?;
    table.answer(alloc, call_of(call, bytes.as_slice()), printed)?;
    Ok(printed.is(wanted.as_slice()))
}
