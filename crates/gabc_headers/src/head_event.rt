//! The events of a header stage.

use gabc_places::{Char, Fault, Finding};

/// An event of a header stage: of the headers of a text, or of the characters after them.
#[derive(Clone, Copy, Debug, PartialEq, Eq)]
pub enum HeadEvent {
    /// An error or a warning.
    Found(Finding),
    /// The text is stopped here. No event follows.
    Stop(Fault),
    /// The line `%%` ended the headers.
    Heads {
        /// The number of lines of NABC under each snippet of notes, 0 to 4.
        nabc_lines: u8,
        /// The bit `d` says that the macro of the digit `d` is defined.
        macros: u16,
        /// The number of bytes of the canonical header lines and `%%`.
        canonical: u32,
    },
    /// A character after the `%%`.
    Body(Char),
    /// The text has ended after its headers. No event follows.
    End,
}

/// Another name of the events of a header stage.
pub type HeadOut = HeadEvent;
