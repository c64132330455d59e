//! The texts of places, codes, findings and faults.

ghost use Rattle.std.specs.Prelude.{◌≡◌, ◌≤◌, Some, length};
ghost use Rattle.gabc_places.specs.Code.{name_of};
ghost use Rattle.gabc_places.specs.Message.{word_of, place_text, message_text};

use crate::code::{Code, Fault, Finding};
use crate::place::Place;
use crate::severity::Severity;
use std::error::Error;
use std::fmt;

impl Severity {
    /// Returns its word in messages: `warning`, `error` or `fatal`.
    pub fn as_str(self) -> &'static str
        ensures word { result.now ≡ word_of self }
        ensures short { length result.now ≤ 7 }
    {
        match self {
            Severity::Warning => "warning",
            Severity::Error => "error",
            Severity::Fatal => "fatal",
        }
    }
}

/// Prints `warning`, `error` or `fatal`.
impl fmt::Display for Severity {
    ghost output = { λ s. Some (word_of s) };

    fn fmt<W: fmt::Write>(&self, f: &mut fmt::Formatter<W>) -> fmt::Result {
        write!(f, "{}", self.as_str())
    }
}

/// Prints `LINE:COLUMN`.
impl fmt::Display for Place {
    ghost output = { λ p. Some (place_text p) };

    fn fmt<W: fmt::Write>(&self, f: &mut fmt::Formatter<W>) -> fmt::Result {
        write!(f, "{}:{}", self.line, self.column)
    }
}

/// Prints the code's name, such as `E4`.
impl fmt::Display for Code {
    ghost output = { λ c. Some (name_of c) };

    fn fmt<W: fmt::Write>(&self, f: &mut fmt::Formatter<W>) -> fmt::Result {
        write!(f, "{}", self.name())
    }
}

/// Prints the words of a message after the file's name: `LINE:COLUMN: KIND: CODE: TEXT`.
impl fmt::Display for Finding {
    ghost output = { λ x. Some (message_text x.place x.code) };

    fn fmt<W: fmt::Write>(&self, f: &mut fmt::Formatter<W>) -> fmt::Result {
        let Finding { place, code } = *self;
        write!(f, "{place}: {}: {code}: {}", code.severity(), code.text())
    }
}

/// Prints the words of a message after the file's name: `LINE:COLUMN: KIND: CODE: TEXT`, where KIND
/// is `fatal` for each code of a fault.
impl fmt::Display for Fault {
    ghost output = { λ x. Some (message_text x.place x.code) };

    fn fmt<W: fmt::Write>(&self, f: &mut fmt::Formatter<W>) -> fmt::Result {
        let Fault { place, code } = *self;
        write!(f, "{place}: {}: {code}: {}", code.severity(), code.text())
    }
}

impl Error for Fault {}
