//! The columns of a row.

use std::alloc::{AllocError, Global};

/// The state of a reader of escapes.
#[derive(Clone, Copy)]
enum Escape {
    None,
    Begun,
    Hex,
    HexAfter(u8),
}

/// Returns the value of a hexadecimal digit, or 0.
fn digit(byte: u8) -> u8 {
    match byte {
        b'0'..=b'9' => byte - b'0',
        b'A'..=b'F' => byte - b'A' + 10,
        b'a'..=b'f' => byte - b'a' + 10,
        _ => 0,
    }
}

/// Returns the bytes of a column: `\n`, `\r`, `\t`, `\\` and `\xNN` are escapes.
pub(crate) fn unescaped(alloc: Global, column: &str) -> Result<Vec<u8>, AllocError> {
    let mut bytes = Vec::new(alloc);
    let mut escape = Escape::None;
    for byte in column.bytes() {
        escape = match escape {
            Escape::None if byte == b'\\' => Escape::Begun,
            Escape::None => {
                bytes.push(byte)?;
                Escape::None
            }
            Escape::Begun if byte == b'x' => Escape::Hex,
            Escape::Begun => {
                bytes.push(match byte {
                    b'n' => b'\n',
                    b'r' => b'\r',
                    b't' => b'\t',
                    _ => byte,
                })?;
                Escape::None
            }
            Escape::Hex => Escape::HexAfter(byte),
            Escape::HexAfter(high) => {
                bytes.push(digit(high).wrapping_mul(16).wrapping_add(digit(byte)))?;
                Escape::None
            }
        };
    }
    Ok(bytes)
}
