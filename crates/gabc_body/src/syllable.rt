//! A syllable: a text with its notes.

use crate::canonical::canonical_len;
use crate::kept_text::LentSyllable;
use crate::slice::{slice_of, text_in};
use crate::snippets::Snippets;
use gabc_places::{Memory, Span};
use gabc_text::TextView;
use std::alloc::AllocError;

/// The position of a syllable in its word. A syllable begins a word if blanks come before its text
/// (GregorioRef, "Syllable Text Syntax"); the first one of a score does, and after the last one a
/// word would begin.
#[derive(Clone, Copy, Debug, PartialEq, Eq)]
pub enum Position {
    /// It is the whole word.
    One,
    /// It begins a word of several syllables.
    Beginning,
    /// It is between the first and the last syllable of its word.
    Middle,
    /// It ends a word of several syllables.
    End,
}

impl Position {
    ghost use Rattle.std.specs.Prelude.{◌≡◌};
    ghost use Rattle.gabc_body.specs.Canonical.{starts_word};

    /// Returns whether a syllable at this position begins its word.
    pub fn starts_word(self) -> bool
        ensures { result ≡ starts_word self }
    {
        match self {
            Position::One | Position::Beginning => true,
            Position::Middle | Position::End => false,
        }
    }
}

/// A text with its notes in parentheses (GregorioRef, "Syllable Text Syntax").
#[derive(Debug, Drop)]
pub struct Syllable {
    /// The view of its text.
    pub text: TextView,
    /// The text from the blanks before it to its `)`, without comments and without characters left
    /// out. Spans count its bytes.
    pub kept: String<Memory>,
    /// Its snippets, in order.
    pub snippets: Snippets,
    /// Its position in its word.
    pub position: Position,
    /// Whether the span that `<eu>` opens is open at the end of its text (GregorioRef, "Syllable
    /// Text Syntax").
    pub eu: bool,
    /// Whether the span that `<nlba>` opens is open at the end of its text (GregorioRef, "Syllable
    /// Text Syntax").
    pub nlba: bool,
}

impl Syllable {
    ghost use Rattle.std.specs.Prelude.{◌≡◌, ◌-◌, ◌^◌, min, length, string_bytes, IfOk};
    ghost use Rattle.gabc_body.specs.Syllable.{unplaced_of, placed_of, slice, text_at};
    ghost use Rattle.gabc_body.specs.Canonical.{canonical, starts_word};

    /// Returns the bytes of `span` in its kept text, without those past its end.
    pub fn slice(&self, span: Span) -> &[u8]
        ensures { result.now ≡ slice span (string_bytes self.now.kept) }
    {
        slice_of(self.kept.as_str(), span)
    }

    /// Returns the text of `span` in its kept text. A span that does not begin and end between
    /// characters of it has none.
    pub fn text_at(&self, span: Span) -> &str
        ensures { result.now ≡ text_at span (string_bytes self.now.kept) }
    {
        text_in(self.kept.as_str(), span)
    }

    /// Returns whether it begins a word.
    pub fn starts_word(&self) -> bool
        ensures { result ≡ starts_word self.now.position }
    {
        self.position.starts_word()
    }

    /// Returns a syllable that says the same, whose kept text lies in `memory`. Fails only if
    /// memory for it cannot be allocated.
    pub fn copy(&self, memory: &Memory) -> Result<Syllable, AllocError>
        ensures { IfOk result (λ syllable. placed_of syllable ≡ placed_of self.now) }
    {
        Ok(Syllable {
            text: self.text.copy(memory.global())?,
            kept: String::from_str(memory.share()?, self.kept.as_str())?,
            snippets: Snippets::from_slice(memory.global(), self.snippets.as_slice())?,
            position: self.position,
            eu: self.eu,
            nlba: self.nlba,
        })
    }

    /// Returns the number of bytes of its canonical text; it saturates at the last value of a
    /// `usize`.
    pub fn canonical_len(&self) -> usize
        ensures { result ≡ min (length (canonical (starts_word self.now.position)
            (unplaced_of self.now))) (2 ^ 64 - 1) }
    {
        canonical_len(LentSyllable::of(self), self.starts_word())
    }
}
