//! The events of the machine of the headers.

use gabc_places::{Place, Span};

/// A header, or a line or header that is left out, of this line from 1. The point at which it
/// becomes known is an index of a character of the text, and spans are bytes of the text.
#[derive(Clone, Copy, Debug)]
pub(crate) enum HeaderEvent {
    LeftOut {
        line: u64,
        point: usize,
    },
    Header {
        line: u64,
        name: Span,
        value: Span,
        point: usize,
    },
}

/// How the headers end. A header whose value is not ended there is named by its first line,
/// `open_line`.
#[derive(Clone, Copy, Debug)]
pub(crate) enum HeaderEnding {
    /// At the line `%%`, whose first character is at `place`. The body begins at the byte `body`.
    Score {
        place: Place,
        body: usize,
        open_line: Option<u64>,
    },
    /// At the character here, with which the text of the headers is longer than its limit.
    Limit(Place),
    /// At the end of the text, at this place.
    Text {
        place: Place,
        open_line: Option<u64>,
    },
}

/// The events of the headers of a text, and their ending.
#[derive(Drop)]
pub(crate) struct HeaderEvents {
    pub events: Vec<HeaderEvent>,
    pub end: HeaderEnding,
}
