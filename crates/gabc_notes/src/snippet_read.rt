//! The reading of a snippet.

ghost use Rattle.std.specs.Prelude.{◌≡◌};
ghost use Rattle.gabc_notes.specs.SnippetRead.{ending_at};

use crate::stage::NoteEnd;
use gabc_places::{Findings, Place};

/// The end of a snippet. A byte is one of the body that was read, from 0.
#[derive(Clone, Copy, Debug, PartialEq, Eq)]
pub enum SnippetEnding {
    /// At a `|`, with its byte.
    Next(usize),
    /// At a `)`, with its byte.
    Close(usize),
    /// At the end of the body, before the snippet ends: the place of the open bracket; line 0 and
    /// column 0 if none is open.
    Cut(Place),
}

impl SnippetEnding {
    /// Returns the end of a snippet whose stage emitted `end` with the character at the byte
    /// `index` of the body.
    pub fn at(end: NoteEnd, index: usize) -> SnippetEnding
        ensures { result ≡ ending_at end index }
    {
        match end {
            NoteEnd::Next => SnippetEnding::Next(index),
            NoteEnd::Close => SnippetEnding::Close(index),
            NoteEnd::Cut(place) => SnippetEnding::Cut(place),
        }
    }
}

/// The reading of a snippet: its kept text, the findings, and its end.
#[derive(Debug, Drop)]
pub struct SnippetRead {
    /// The text that is kept, as UTF-8. If the snippet ended, it is a snippet itself, without an
    /// unfinished end. After a `Cut` it is all that was kept so far, and need be no snippet.
    pub kept: String,
    /// The findings, each at its line and column in the source.
    pub findings: Findings,
    /// The end of the snippet, with its byte or place.
    pub how: SnippetEnding,
}
