//! A regular syllable as it is spelled.

ghost use Rattle.std.specs.Prelude.{◌≡◌, ◌<◌, ℕ, List, IfSome, length, take, encode_utf8_all};
ghost use Rattle.gabc_score.specs.RegularSyllable.{with_lines};
ghost use Rattle.gabc_score.specs.SpelledSyllable.{AreToCome, GivesNext, IsSpelling, ToCome, AreTextsOf, first_of};
ghost use Rattle.gabc_score.specs.machine.Run.{sounds_among, sounds_on_line};

use crate::body_stage::next_line;
use crate::regular::snippet_len;
use gabc_body::{Position, Spans};
use gabc_notes::first_note_or_clef;
use gabc_text::translation_from;

/// A regular syllable as it is spelled, in a slice of the text that has it.
#[derive(Clone, Copy)]
pub struct SpelledSyllable<'a> {
    /// Its position in its word.
    pub position: Position,
    /// The spans that are open after it.
    pub spans: Spans,
    /// The number of NABC lines under each GABC snippet.
    pub lines: u8,
    /// Its canonical text but for the LF before a word.
    pub canonical: &'a str,
    /// The number of its bytes before the `(`: those of its text and its translation.
    pub opening: usize,
}

/// A snippet of a regular syllable as it is spelled.
#[derive(Clone, Copy)]
pub struct SpelledSnippet<'a> {
    /// 0 for GABC, and 1 to 4 for NABC.
    pub line: u8,
    /// Its text.
    pub text: &'a str,
}

/// The remaining snippets of a regular syllable.
#[derive(Clone, Copy)]
pub struct SpelledSnippets<'a> {
    lines: u8,
    /// The line of the next one.
    line: u8,
    /// The next one and the text after it, through the `)`.
    rest: &'a str,
    /// Whether no snippet is left.
    over: bool,
}

impl<'a> SpelledSyllable<'a> {
    /// Returns its text with its translation.
    pub fn text(self) -> &'a str
        requires { IsSpelling self }
        ensures { result.now ≡ take self.entry.opening self.entry.canonical.now }
    {
        self.canonical.split_at(self.opening).0
    }

    /// Returns its text, and its translation with its brackets, either of which may be empty;
    /// `None`, if it is not known where the translation begins.
    pub fn text_and_translation(self) -> Option<(&'a [u8], &'a [u8])>
        requires { IsSpelling self }
        ensures { IfSome result (λ both. AreTextsOf self.entry both.0.now both.1.now) }
    {
        let text = self.text();
        let from = translation_from(text)?;
        let bytes = text.as_bytes();
        Some((&bytes[..from], &bytes[from..]))
    }

    /// Returns its snippets in order.
    pub fn snippets(self) -> SpelledSnippets<'a>
        requires { IsSpelling self }
        ensures { (is : IsSpelling self.entry) →
            ToCome result (with_lines self.entry.lines 0 is.parts.nexts is.parts.final) }
    {
        let (_, notes) = self.canonical.split_at(self.opening + 1);
        SpelledSnippets {
            lines: self.lines,
            line: 0,
            rest: notes,
            over: false,
        }
    }

    /// Returns whether its snippets of GABC have a note or a clef.
    pub(crate) fn sounds(self) -> bool
        requires { IsSpelling self }
        ensures { (is : IsSpelling self.entry) →
            result ≡ sounds_among (with_lines self.entry.lines 0 is.parts.nexts is.parts.final) }
    {
        let mut rest = self.snippets();
        while let Some(snippet) = rest.next() {
            if snippet.sounds() {
                return true;
            }
        }
        false
    }
}

impl<'a> SpelledSnippet<'a> {
    /// Returns whether it is of GABC, and has a note or a clef.
    fn sounds(self) -> bool
        ensures { result ≡ sounds_on_line (self.entry.line, self.entry.text.now) }
    {
        self.line == 0 && first_note_or_clef(self.text).is_some()
    }
}

impl<'a> SpelledSnippets<'a> {
    /// Returns the length of the next snippet in bytes.
    #[inline(never)]
    fn next_len(self) -> usize
        requires { (nexts : List (List ℕ)) × ((final : List ℕ) × AreToCome self nexts final) }
        ensures { (nexts : List (List ℕ)) (final : List ℕ) → AreToCome self.entry nexts final →
            result ≡ length (encode_utf8_all (first_of nexts final)) }
    {
        gabc_notes::laws::what_follows_emits_nothing();
        gabc_nabc::laws::what_follows_emits_nothing();
        if self.lines == 0 {
            self.rest.len() - 1
        } else {
            snippet_len(self.line, self.rest)
        }
    }

    /// Returns the next snippet with its line, if one is left.
    pub fn next(&mut self) -> Option<SpelledSnippet<'a>>
        requires { (texts : List (ℕ × List ℕ)) × ToCome self.old texts }
        ensures next { (texts : List (ℕ × List ℕ)) → ToCome self.old texts →
            GivesNext result texts self.new }
        ensures shorter { IfSome result
            (λ _. length self.new.rest.now < length self.old.rest.now) }
    {
        if self.over {
            return None;
        }
        let len = self.next_len();
        let (text, _) = self.rest.split_at(len);
        let (_, rest) = self.rest.split_at(len + 1);
        let snippet = SpelledSnippet {
            line: self.line,
            text,
        };
        self.over = self.rest.as_bytes()[len] != b'|';
        self.line = next_line(self.lines, self.line);
        self.rest = rest;
        Some(snippet)
    }
}
