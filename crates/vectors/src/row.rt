//! A row of a file of runs.

use gregorio::Format;
use std::alloc::{AllocError, Global};

/// A run, with the output, the messages and the status that it must have.
#[derive(Drop)]
pub(crate) struct Row {
    pub format: Format,
    pub all_warnings: bool,
    pub header: u32,
    pub syllable: u32,
    pub input: u32,
    pub broken: bool,
    pub bytes: Vec<u8>,
    pub output: Vec<u8>,
    pub messages: Vec<u8>,
    pub status: u8,
}

/// The state of a reader of escapes.
#[derive(Clone, Copy)]
enum Escape {
    None,
    Begun,
    Hex,
    HexAfter(u8),
}

/// Returns the value of a hexadecimal digit, or 0.
fn digit(byte: u8) -> u8 {
    match byte {
        b'0'..=b'9' => byte - b'0',
        b'A'..=b'F' => byte - b'A' + 10,
        b'a'..=b'f' => byte - b'a' + 10,
        _ => 0,
    }
}

/// Returns the bytes of a column: `\n`, `\r`, `\t`, `\\` and `\xNN` are escapes.
fn unescaped(alloc: Global, column: &str) -> Result<Vec<u8>, AllocError> {
    let mut bytes = Vec::new(alloc);
    let mut escape = Escape::None;
    for byte in column.bytes() {
        escape = match escape {
            Escape::None if byte == b'\\' => Escape::Begun,
            Escape::None => {
                bytes.push(byte)?;
                Escape::None
            }
            Escape::Begun if byte == b'x' => Escape::Hex,
            Escape::Begun => {
                bytes.push(match byte {
                    b'n' => b'\n',
                    b'r' => b'\r',
                    b't' => b'\t',
                    _ => byte,
                })?;
                Escape::None
            }
            Escape::Hex => Escape::HexAfter(byte),
            Escape::HexAfter(high) => {
                bytes.push(digit(high).wrapping_mul(16).wrapping_add(digit(byte)))?;
                Escape::None
            }
        };
    }
    Ok(bytes)
}

/// Returns the three limits of a column, in bytes, if they are numbers.
fn limits_of(column: &str) -> Option<(u32, u32, u32)> {
    let mut numbers = column.split(',');
    let header = numbers.next()?.parse::<u32>().ok()?;
    let syllable = numbers.next()?.parse::<u32>().ok()?;
    let input = numbers.next()?.parse::<u32>().ok()?;
    Some((header, syllable, input))
}

/// Returns the format that `options` name.
fn format_of(options: &str) -> Format {
    if options.contains("-F dump") {
        Format::Dump
    } else {
        Format::Gabc
    }
}

/// Returns the column of `line` with this `number`, from 0; an empty one if there is none.
pub(crate) fn column(line: &str, number: usize) -> &str {
    line.split('\t').nth(number).unwrap_or("")
}

/// Returns the row of a line, if its limits are numbers: options, limits, ending, input, output,
/// messages and status, split by tabs. A status that is no number is 255, with which no run ends.
pub(crate) fn row_of(alloc: Global, line: &str) -> Result<Option<Row>, AllocError> {
    let Some((header, syllable, input)) = limits_of(column(line, 1)) else {
        return Ok(None);
    };
    let options = column(line, 0);
    let bytes = unescaped(alloc, column(line, 3))?;
    let output = unescaped(alloc, column(line, 4))?;
    let messages = unescaped(alloc, column(line, 5))?;
    Ok(Some(Row {
        format: format_of(options),
        all_warnings: options.ends_with("-W"),
        header,
        syllable,
        input,
        broken: column(line, 2) == "broken",
        bytes,
        output,
        messages,
        status: column(line, 6).parse::<u8>().unwrap_or(255),
    }))
}
