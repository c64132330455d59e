//! A syllable that is read into reserved memory.

use crate::first_sound::{FirstSound, first_sound};
use gabc_body::{Position, Snippet, Snippets, Spans, Syllable, position_by};
use gabc_places::{Memory, Span};
use gabc_text::{TextPart, TextView};
use std::alloc::AllocError;
use std::marker::Model;

/// A syllable that is being read, or was read. Its memory is reserved: for the bytes of the longest
/// syllable, and for those that one more character can add.
#[derive(Drop)]
pub(crate) struct Slot {
    syllable: Syllable,
    /// The bytes of the kept text before the part that is being read, which is the text or a
    /// snippet.
    from: usize,
    limit: usize,
}

impl Model for Slot {
    ghost use Rattle.gabc_score.specs.machine.Slot.{ReadSyllable, read_syllable, IsReserved};

    ghost Value = { ReadSyllable };

    ghost view = { λ s. read_syllable s.syllable s.from s.limit };

    ghost invariant = { λ s. IsReserved s.limit s.syllable };
}

impl Slot {
    ghost use Rattle.std.specs.Prelude.{◌≡◌, ◌+◌, ◌<◌, ◌^◌, ◌||◌, not, [], ◌∷◌, IfOk, string_bytes};
    ghost use Rattle.gabc_notes.specs.FirstNoteOrClef.{first_note_or_clef};
    ghost use Rattle.gabc_notes.specs.Items.{items_of};
    ghost use Rattle.gabc_text.specs.BuiltText.{with_part};
    ghost use Rattle.gabc_body.specs.Body.{empty_snippet};
    ghost use Rattle.gabc_body.specs.Canonical.{position_by};
    ghost use Rattle.gabc_body.specs.Syllable.{slice, text_at, placed_of, unplaced_of};
    ghost use Rattle.gabc_score.specs.machine.FirstSound.{kind_of};
    ghost use Rattle.gabc_body.specs.witness.Gatherer.{span_of};
    ghost use Rattle.gabc_score.specs.machine.Slot.{placed_in, made_in, FitsKept, FitsPiece, FitsSnippet};
    ghost use Rattle.gabc_body.specs.witness.SyllableBuilder.{nothing_open, with_kept, past_mark, past_text, past_snippet};

    /// Returns a slot in which nothing was read, and reserves room for a syllable of `limit` bytes.
    /// Its kept text lies in `memory`.
    pub(crate) fn with_limit(memory: &Memory, limit: usize) -> Result<Slot, AllocError>
        requires { limit < 2 ^ 32 }
        ensures reading { IfOk result (λ slot. slot.reading ≡ nothing_open) }
        ensures limit { IfOk result (λ slot. slot.limit ≡ limit) }
    {
        let room = limit + 32;
        Ok(Slot {
            syllable: Syllable {
                text: TextView::with_capacity(memory.global(), room)?,
                kept: String::with_capacity(memory.share()?, room)?,
                snippets: Snippets::with_capacity(memory.global(), room)?,
                position: Position::One,
                eu: false,
                nlba: false,
            },
            from: 0,
            limit,
        })
    }

    /// Drops the syllable that was read. The memory stays reserved.
    pub(crate) fn clear(&mut self)
        ensures { self.new ≡ record self.old { reading = nothing_open } }
    {
        self.syllable.text.clear();
        self.syllable.kept.clear();
        self.syllable.snippets.clear();
        self.from = 0;
    }

    /// Keeps `c`.
    pub(crate) fn keep(&mut self, c: char)
        requires { FitsKept self.old.limit self.old.reading 4 }
        ensures { self.new ≡ record self.old { reading = with_kept self.old.reading c } }
    {
        let Ok(()) = self.syllable.kept.push(c) else {
            unreachable!()
        };
    }

    /// Adds `part` to the view.
    pub(crate) fn add(&mut self, part: TextPart)
        requires { FitsPiece self.old.limit self.old.reading }
        ensures { self.new ≡ record self.old {
          reading = record self.old.reading { view = with_part self.old.reading.view part };
        } }
    {
        self.syllable.text.add_reserved(part);
    }

    /// Ends the part that is being read with `mark`.
    fn mark(&mut self, mark: char)
        requires { FitsKept self.old.limit self.old.reading 4 }
        ensures { self.new ≡ record self.old {
          reading = past_mark self.old.reading.kept mark self.old.reading;
        } }
    {
        let Ok(()) = self.syllable.kept.push(mark) else {
            unreachable!()
        };
        self.from = self.syllable.kept.len();
    }

    /// Ends the text at its `(`.
    pub(crate) fn end_text(&mut self)
        requires { FitsKept self.old.limit self.old.reading 4 }
        ensures { self.new ≡ record self.old { reading = past_text self.old.reading } }
    {
        self.mark('(');
    }

    /// Ends the snippet of line `line` at `mark`; `count` bytes of the snippet are kept. Returns
    /// its span.
    pub(crate) fn end_snippet(&mut self, line: u8, count: usize, mark: char) -> Span
        requires kept { FitsKept self.old.limit self.old.reading 4 }
        requires snippet { FitsSnippet self.old.limit self.old.reading }
        ensures slot { self.new ≡ record self.old {
          reading = past_snippet self.old.reading line count mark;
        } }
        ensures span { result ≡ span_of self.old.reading line count }
    {
        cut_text(&mut self.syllable.kept, self.from.saturating_add(count));
        let span = Span {
            from: self.from,
            to: self.syllable.kept.len(),
        };
        self.syllable.snippets.push_reserved(Snippet { line, span });
        self.mark(mark);
        span
    }

    /// Adds the notes of a last text, which are one empty snippet.
    pub(crate) fn add_no_notes(&mut self)
        ensures { self.new ≡ record self.old {
          reading = record self.old.reading { snippets = empty_snippet self.old.reading.kept ∷ [] };
        } }
    {
        let end = self.syllable.kept.len();
        self.syllable.snippets.clear();
        self.syllable.snippets.push_reserved(Snippet {
            line: 0,
            span: Span { from: end, to: end },
        });
    }

    /// Makes the syllable that was read whole. `spans` are open after it.
    pub(crate) fn close(&mut self, spans: Spans)
        ensures { self.new ≡ record self.old { eu = spans.eu; nlba = spans.nlba } }
    {
        self.syllable.eu = spans.eu;
        self.syllable.nlba = spans.nlba;
    }

    /// Returns whether the syllable that was read begins a word. `follows` says whether there is a
    /// syllable before it.
    pub(crate) fn starts_word(&self, follows: bool) -> bool
        ensures { result ≡ (not follows || self.now.reading.view.word_start) }
    {
        !follows || self.syllable.text.word_start
    }

    /// Gives the syllable its position in its word. `follows` says whether there is a syllable
    /// before it, and `next_starts` whether the next one begins a word.
    pub(crate) fn place(&mut self, follows: bool, next_starts: bool)
        ensures { self.new ≡ record self.old {
          position = position_by (not follows || self.old.reading.view.word_start) next_starts;
        } }
    {
        self.syllable.position = position_by(self.starts_word(follows), next_starts);
    }

    /// Returns the bytes of `span` in the kept text.
    pub(crate) fn slice(&self, span: Span) -> &[u8]
        ensures { result.now ≡ slice span self.now.reading.kept }
    {
        self.syllable.slice(span)
    }

    /// Returns which comes first in the snippet of `span`, a note or a clef; `None`, if neither
    /// does.
    #[inline(always)]
    pub(crate) fn first_sound_in(&self, span: Span) -> Option<FirstSound>
        ensures { kind_of result
            ≡ first_note_or_clef (items_of (text_at span self.now.reading.kept)) }
    {
        if span.to <= span.from {
            return None;
        }
        self.first_sound_read(span)
    }

    /// Returns which comes first in the snippet of `span`, a note or a clef, by reading its items.
    #[inline(never)]
    fn first_sound_read(&self, span: Span) -> Option<FirstSound>
        ensures { kind_of result
            ≡ first_note_or_clef (items_of (text_at span self.now.reading.kept)) }
    {
        first_sound(self.syllable.text_at(span))
    }

    /// Returns the syllable.
    pub(crate) fn syllable(&self) -> &Syllable
        ensures placed { placed_of result.now ≡ placed_in self.now }
        ensures made { unplaced_of result.now ≡ made_in self.now }
    {
        &self.syllable
    }
}

ghost use Rattle.std.specs.Prelude.{◌≡◌, string_bytes};
ghost use Rattle.std.specs.String.{string_capacity};
ghost use Rattle.gabc_body.specs.Syllable.{prefix_of};

/// Cuts `kept` to its first `to` bytes, if a character ends there.
fn cut_text(kept: &mut String<Memory>, to: usize)
    ensures bytes { string_bytes kept.new ≡ prefix_of to (string_bytes kept.old) }
    ensures capacity { string_capacity kept.new ≡ string_capacity kept.old }
{
    if kept.as_str().is_char_boundary(to) {
        kept.truncate(to);
    }
}
