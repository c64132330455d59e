//! The fields of a saved state.

use gabc_neumes::{Alter, Clef};
use gabc_places::{Limits, Place};
use gregorio_jobs::Format;

/// The state of a run in the score.
#[derive(Clone, Copy, Debug)]
pub struct ScoreFields<'a> {
    /// The number of NABC lines under each GABC snippet.
    pub nabc_lines: u8,
    /// The defined macros: the bit `d` says that the macro of the digit `d` is defined.
    pub macros: u16,
    /// The number of whole syllables.
    pub syllables: u32,
    /// The bytes of the canonical file so far, without its last LF.
    pub canonical: u32,
    /// Whether the span that `<eu>` opens is open before the last whole syllable.
    pub in_eu: bool,
    /// Whether the span that `<nlba>` opens is open before the last whole syllable.
    pub in_nlba: bool,
    /// Whether a note or a clef comes before the last whole syllable in GABC.
    pub sounded: bool,
    /// The clef in force before the last whole syllable, if there is one. It is tracked for a dump
    /// alone: in canonical form it is `None`.
    pub clef: Option<Clef>,
    /// The alterations in force before the last whole syllable, of each height from 0 to 14,
    /// without the `b` of the clef. They are tracked for a dump alone: in canonical form there are
    /// none.
    pub alters: [Alter; 15],
    /// The canonical text of the last whole syllable; it is empty if there is none.
    pub held: &'a str,
    /// Whether a comment is open.
    pub in_comment: bool,
    /// The place of the `(` of the current notes.
    pub notes_opener: Option<Place>,
    /// The place of the `<` or `[` of the current tag, raw part, translation or raw bracket of
    /// GABC.
    pub inner_opener: Option<Place>,
    /// The kept text of the syllable that is read.
    pub kept: &'a str,
}

/// The part of the input in which a run is saved.
#[derive(Clone, Copy, Debug)]
pub enum Phase<'a> {
    /// The headers: their text so far, with its comments.
    Headers(&'a str),
    /// The score.
    Score(ScoreFields<'a>),
}

/// The fields of a saved state.
#[derive(Clone, Copy, Debug)]
pub struct StateFields<'a> {
    /// The format of the output.
    pub format: Format,
    /// Whether warnings are reported.
    pub all_warnings: bool,
    /// The limits of the run.
    pub limits: Limits,
    /// The number of bytes taken of the input.
    pub taken: u32,
    /// The place of the next character.
    pub place: Place,
    /// The bytes of a character that is not whole: at most three.
    pub pending: &'a [u8],
    /// Whether the last character is a CR directly before the next byte.
    pub after_cr: bool,
    /// Whether an error was found.
    pub has_error: bool,
    /// The part of the input that is read, with its fields.
    pub phase: Phase<'a>,
}
