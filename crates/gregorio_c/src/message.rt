//! A message as a record.

ghost use Rattle.std.specs.Prelude.{◌≡◌};
ghost use Rattle.gregorio_c.specs.Messages.{message_at, severity_number};

use gabc_places::{Code, Place, Severity};
use gabc_tree::number_of_code;

/// A message: its line and its column in characters, both from 1, its severity (0 a warning, 1 an
/// error, 2 a fatal fault), and its code: E1 to E6 are 101 to 106, W1 to W12 are 201 to 212, F1 to
/// F7 are 301 to 307.
#[repr(C)]
#[derive(Clone, Copy, Debug, PartialEq, Eq)]
pub struct Message {
    /// The line, from 1.
    pub line: u64,
    /// The column in characters, from 1.
    pub column: u64,
    /// 0 for a warning, 1 for an error, 2 for a fatal fault.
    pub severity: u32,
    /// The number of its code, which never changes: 101 for E1, 201 for W1, 301 for F1.
    pub code: u32,
}

impl Message {
    /// Returns the message of `code` at `place`.
    pub(crate) fn at(place: Place, code: Code) -> Message
        ensures { result ≡ message_at place code }
    {
        Message {
            line: place.line,
            column: place.column,
            severity: number_of(code.severity()),
            code: u32::from(number_of_code(code)),
        }
    }
}

/// Returns the number of a severity.
fn number_of(severity: Severity) -> u32
    ensures { result ≡ severity_number severity }
{
    match severity {
        Severity::Warning => 0,
        Severity::Error => 1,
        Severity::Fatal => 2,
    }
}
