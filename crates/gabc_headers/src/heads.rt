//! The headers of a text, or the fault that stopped them.

ghost use Rattle.std.specs.Prelude.{Some};
ghost use Rattle.gabc_places.specs.Message.{message_text};

use crate::book::HeaderBook;
use gabc_places::{Fault, Findings};
use std::error::Error;
use std::fmt;

/// The headers of a text that has a line `%%` after them, and the findings in them.
#[derive(Debug, Drop)]
pub struct Heads {
    /// The headers that count.
    pub book: HeaderBook,
    /// The byte of the text, from 0, at which its body begins: the one after the `%%`.
    pub body: usize,
    /// The findings, in the order of places.
    pub findings: Findings,
}

/// The fault that stopped the headers of a text, and the findings before it.
#[derive(Debug, Drop)]
pub struct HeadFault {
    /// The fault, with its place.
    pub fault: Fault,
    /// The findings before it, in the order of places.
    pub findings: Findings,
    /// Whether the fault comes of the end of the text.
    pub at_end: bool,
}

/// Prints the words of the fault's message after the file's name: `LINE:COLUMN: KIND: CODE: TEXT`,
/// where KIND is `fatal` for each code of a fault.
impl fmt::Display for HeadFault {
    ghost output = { λ x. Some (message_text x.fault.place x.fault.code) };

    fn fmt<W: fmt::Write>(&self, f: &mut fmt::Formatter<W>) -> fmt::Result {
        write!(f, "{}", self.fault)
    }
}

impl Error for HeadFault {}
