//! The events of a text as it is read.

use crate::view::Piece;
use gabc_places::{Char, Finding, Place, Span};

/// A part of a text's view.
#[derive(Clone, Copy, Debug, PartialEq, Eq)]
pub enum TextPart {
    /// The syllable begins a word.
    WordStart,
    /// A piece.
    Piece(Piece),
    /// The centre, from and to a number of pieces. It comes just before the end.
    Centre(Span),
    /// The translation without its brackets, in bytes of the kept text.
    Translation(Span),
}

/// The end of a text.
#[derive(Clone, Copy, Debug, PartialEq, Eq)]
pub enum TextEnd {
    /// At the `(` of the notes.
    Notes,
    /// At the end of the input.
    Finished,
    /// At the end of the input, inside the tag, raw part or translation that begins here.
    Cut(Place),
}

/// An event of a text as it is read.
#[derive(Clone, Copy, Debug, PartialEq, Eq)]
pub enum TextEvent {
    /// A character of the kept text.
    Kept(Char),
    /// A part of the view.
    Part(TextPart),
    /// An error or a warning, with its place.
    Found(Finding),
    /// The end, the last event.
    Ended(TextEnd),
}

/// The output of a `TextStage`.
pub type TextOut = TextEvent;
