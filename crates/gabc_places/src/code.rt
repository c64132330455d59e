//! The codes of findings and faults.

ghost use Rattle.std.specs.Prelude.{◌≡◌, ◌∷◌};

use crate::codes::CODES;
use crate::place::Place;
use crate::severity::Severity;

/// The code of a finding or a fault. An error reports a character, a part or a header left out, a
/// warning reports something else. A fatal fault stops the run.
#[derive(Clone, Copy, Debug, PartialEq, Eq)]
pub enum Code {
    /// A character left out of the notes.
    E1,
    /// A character left out of the text.
    E2,
    /// A character left out of the NABC notes.
    E3,
    /// A header without a usable name.
    E4,
    /// An `nabc-lines` header out of range.
    E5,
    /// An unfinished end of the notes.
    E6,
    /// No `name` header.
    W1,
    /// A header given again.
    W2,
    /// A style tag that is not matched.
    W3,
    /// A centring brace that is not matched, or a second one.
    W4,
    /// A second translation.
    W5,
    /// A tag that is not known.
    W6,
    /// An NABC code that is not known.
    W7,
    /// A macro that is not defined.
    W8,
    /// A text without notes at the end.
    W9,
    /// A fusion bracket that is not matched.
    W10,
    /// An `eu` or `nlba` span that is open at the end.
    W11,
    /// A note before any clef.
    W12,
    /// Bytes that are not UTF-8.
    F1,
    /// No `%%` line.
    F2,
    /// A header value that is not ended.
    F3,
    /// The headers are longer than their limit.
    F4,
    /// A syllable is longer than its limit.
    F5,
    /// The input ends inside notes, a tag, a raw part or a translation.
    F6,
    /// The input, or its canonical form, is longer than the limit of the input.
    F7,
}

impl Code {
    ghost use Rattle.gabc_places.specs.Code.{severity_of, name_of, text_of};

    /// Returns its severity.
    pub fn severity(self) -> Severity
        ensures { result ≡ severity_of self }
    {
        let (severity, _, _) = &CODES[self as usize];
        *severity
    }

    /// Returns its name in messages, such as `E4`.
    pub fn name(self) -> &'static str
        ensures { result.now ≡ name_of self }
    {
        CODES[self as usize].1
    }

    /// Returns its text in messages.
    pub fn text(self) -> &'static str
        ensures { result.now ≡ text_of self }
    {
        CODES[self as usize].2
    }
}

/// An error or a warning, with its place.
#[derive(Clone, Copy, Debug, PartialEq, Eq)]
pub struct Finding {
    /// Its place.
    pub place: Place,
    /// Its code, of an error or a warning.
    pub code: Code,
}

/// The fault that stopped a run, with its place.
#[derive(Clone, Copy, Debug, PartialEq, Eq)]
pub struct Fault {
    /// Its place.
    pub place: Place,
    /// Its code.
    pub code: Code,
}
