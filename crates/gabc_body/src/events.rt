//! The events of a stage over a body.

use gabc_notes::NoteEvent;
use gabc_text::TextEvent;

/// An event of a stage over a body: of a text or of a snippet.
#[derive(Clone, Copy, Debug, PartialEq, Eq)]
pub enum BodyEvent {
    /// Of a text.
    Text(TextEvent),
    /// Of a snippet of notes. Line 0 is GABC, and the lines from 1 on are its NABC lines. The place
    /// of a cut is that of the innermost open bracket.
    Notes { line: u8, out: NoteEvent },
}
