//! Two slots: one for the current syllable, and one for the pending one.

ghost use Rattle.std.specs.Prelude.{◌<◌, ◌^◌};
ghost use Rattle.std.specs.Prelude.{IfOk};
ghost use Rattle.gabc_body.specs.witness.SyllableBuilder.{nothing_open};

use crate::first_sound::FirstSound;
use crate::preceding::{NO_SPANS, Preceding};
use crate::slot::Slot;
use gabc_body::{LentSyllable, Spans, canonical_len};
use gabc_notes::{NoteEnd, NoteEvent};
use gabc_places::{Code, Fault, Limits, Memory, Place, Span};
use gabc_text::{Piece, PieceKind, TextEnd, TextEvent, TextPart, TextView};
use std::alloc::AllocError;
use std::marker::Model;
use std::mem::swap;

/// The state of the slot `reader`.
#[derive(Clone, Copy)]
pub(crate) enum SlotUse {
    /// It holds what is read of a syllable.
    Filling,
    /// It holds the whole syllable that was made last.
    Made,
    /// It holds a syllable that was given, and is cleared before it reads on.
    Lent,
}

/// The state gathered from the events of a body. Of its whole syllables it has only the pending
/// one.
#[derive(Drop)]
pub(crate) struct SlotPair {
    /// The most bytes that a syllable may have.
    limit: usize,
    pub(crate) reader: Box<Slot, Memory>,
    pub(crate) used: SlotUse,
    /// The byte at which the canonical text of the whole syllable in `reader` begins in its kept
    /// text, if it is known.
    pub(crate) reader_from: Option<usize>,
    /// The pending syllable, if `held`.
    pub(crate) holder: Box<Slot, Memory>,
    /// The same for the syllable in `holder`.
    pub(crate) holder_from: Option<usize>,
    pub(crate) held: bool,
    /// The context of the pending syllable; if none is pending, the same as `after`.
    pub(crate) before: Preceding,
    /// The context of the current syllable, the one in `reader`.
    pub(crate) after: Preceding,
    /// The canonical bytes of the whole syllable in `reader`. Counts only while `used` is `Made`.
    pub(crate) made_len: usize,
    /// The spans that are open.
    pub(crate) spans: Spans,
    /// Whether a syllable that was made is longer than the limit.
    over: bool,
    /// The place of the bracket that the end of the input leaves open.
    cut: Option<Place>,
    /// Whether a note or a clef came first in the GABC snippets that have ended, if one has come.
    pub(crate) sounded: Option<FirstSound>,
}

/// Returns a slot with room for a syllable of `limit` bytes, in `memory`.
fn boxed(memory: &Memory, limit: usize) -> Result<Box<Slot, Memory>, AllocError>
    requires { limit < 2 ^ 32 }
    ensures reading { IfOk result (λ slot. slot.value.reading ≡ nothing_open) }
    ensures limit { IfOk result (λ slot. slot.value.limit ≡ limit) }
{
    match Box::new(memory.share()?, Slot::with_limit(memory, limit)?) {
        Ok(slot) => Ok(slot),
        Err(_) => Err(AllocError),
    }
}

impl Model for SlotPair {
    ghost use Rattle.std.specs.Prelude.{◌≡◌, ◌++◌};
    ghost use Rattle.gabc_score.specs.machine.FirstSound.{kind_of};
    ghost use Rattle.gabc_score.specs.machine.Slot.{placed_in};
    ghost use Rattle.gabc_score.specs.machine.SlotPair.{SlotPairState, reading_in, held_in, made_last, first_in, follows_in, total_in, StandsIn, StandsInReader};

    ghost Value = { SlotPairState };

    ghost view = { λ s. record {
      gathered = record {
        limit = s.limit;
        builder = reading_in s.used s.reader.value;
        eu = s.spans.eu;
        nlba = s.spans.nlba;
        made = held_in s.held s.holder.value ++ made_last s.used s.reader.value;
        follows = follows_in s.used s.after;
        total = total_in s.used s.after s.made_len;
        over = s.over;
        cut = s.cut;
        first_kind = kind_of s.sounded;
      };
      held = held_in s.held s.holder.value;
      contexts = record { before = s.before; after = s.after };
      used = s.used;
      first = first_in s.used s.reader.value s.holder.value;
      second = placed_in s.reader.value;
    } };

    ghost invariant = { λ s. (s.reader.value.limit ≡ s.limit) × (s.holder.value.limit ≡ s.limit)
        × StandsInReader s.used s.reader_from s.reader.value × StandsIn s.holder_from s.holder.value };
}

impl SlotPair {
    ghost use Rattle.std.specs.Prelude.{◌≡◌, ◌≢◌, ◌||◌, ◌-◌, ◌<◌, ◌≤◌, ◌^◌, nat_lt, take, length, true, false, IfOk};
    ghost use Rattle.gabc_body.specs.Body.{has_text, is_none};
    ghost use Rattle.gabc_body.specs.witness.BodyBuilder.{code_in, end_fault};
    ghost use Rattle.gabc_body.specs.witness.Gatherer.{nothing_gathered, with_mark, with_mark_of, with_text_end, with_text, with_syllable, with_note_end, with_note, with_last, awaits, first_past};
    ghost use Rattle.gabc_score.specs.machine.Preceded.{past_point};
    ghost use Rattle.gabc_score.specs.machine.ScoreStage.{placed_after, with_held};
    ghost use Rattle.gabc_score.specs.machine.Slot.{FitsText, FitsNote, FitsKept, FitsSnippet};
    ghost use Rattle.gabc_score.specs.machine.SlotPair.{HasGathered, LendsLast, is_made, is_preceded, used_past, lent_syllables, slots_after};

    /// Returns two slots in which nothing was read, and reserves room for syllables of `limit`
    /// bytes in `memory`.
    pub(crate) fn with_limit(memory: &Memory, limit: usize) -> Result<SlotPair, AllocError>
        requires { limit < 2 ^ 32 }
        ensures gathered { IfOk result (λ pair. pair.gathered ≡ nothing_gathered limit 0) }
        ensures used { IfOk result (λ pair. pair.used ≡ SlotUse.Filling) }
    {
        Ok(SlotPair {
            limit,
            reader: boxed(memory, limit)?,
            used: SlotUse::Filling,
            reader_from: None,
            holder: boxed(memory, limit)?,
            holder_from: None,
            held: false,
            before: Preceding::after_headers(0),
            after: Preceding::after_headers(0),
            made_len: 0,
            spans: NO_SPANS,
            over: false,
            cut: None,
            sounded: None,
        })
    }

    /// Drops what was gathered, as in new slots. Their memory stays reserved.
    pub(crate) fn restart(&mut self)
        ensures gathered { self.new.gathered ≡ nothing_gathered self.old.gathered.limit 0 }
        ensures used { self.new.used ≡ SlotUse.Filling }
    {
        self.reader.clear();
        self.used = SlotUse::Filling;
        self.follow(Preceding::after_headers(0));
        self.over = false;
        self.cut = None;
        self.sounded = None;
    }

    /// Sets the context of the current syllable to `before`, and drops the pending one.
    pub(crate) fn follow(&mut self, before: Preceding)
        requires { is_made self.old.used ≡ false }
        ensures { self.new ≡ slots_after before self.old }
    {
        self.held = false;
        self.before = before;
        self.after = before;
        self.spans = before.spans;
    }

    /// Takes back the borrowed syllables.
    pub(crate) fn free(&mut self)
        requires { is_made self.old.used ≡ false }
        ensures gathered { self.new.gathered ≡ self.old.gathered }
        ensures held { self.new.held ≡ self.old.gathered.made }
        ensures contexts { self.new.contexts ≡ self.old.contexts }
        ensures used { self.new.used ≡ SlotUse.Filling }
        ensures one { length self.new.gathered.made ≤ 1 }
    {
        match self.used {
            SlotUse::Lent => self.reader.clear(),
            _ => {}
        }
        self.used = SlotUse::Filling;
    }

    /// Adds the next event of a text.
    #[inline(always)]
    pub(crate) fn add_text(&mut self, event: TextEvent)
        requires reads { self.old.used ≡ SlotUse.Filling }
        requires fits { FitsText self.old.gathered.limit self.old.gathered.builder event }
        ensures { HasGathered self.old (with_text self.old.gathered event)
            SlotUse.Filling self.new }
    {
        match event {
            TextEvent::Kept(kept) => self.reader.keep(kept.c),
            TextEvent::Part(part) => {
                self.add_mark_of(part);
                self.reader.add(part);
            }
            TextEvent::Found(_) => {}
            TextEvent::Ended(end) => self.end_text(end),
        }
    }

    /// Opens or closes a span, if `part` is a mark that does.
    fn add_mark_of(&mut self, part: TextPart)
        requires { self.old.used ≡ SlotUse.Filling }
        ensures { self.new ≡ record self.old {
          gathered = with_mark_of self.old.gathered part;
        } }
    {
        if let TextPart::Piece(piece) = part {
            self.add_mark(piece);
        }
    }

    fn add_mark(&mut self, piece: Piece)
        requires { self.old.used ≡ SlotUse.Filling }
        ensures { self.new ≡ record self.old { gathered = with_mark self.old.gathered piece } }
    {
        if let PieceKind::Mark = piece.kind {
            let spelled = self.reader.slice(piece.span);
            let Spans { eu, nlba } = self.spans;
            self.spans = Spans {
                eu: is_open_after(b"<eu>", b"</eu>", eu, piece.kind, spelled),
                nlba: is_open_after(b"<nlba>", b"</nlba>", nlba, piece.kind, spelled),
            };
        }
    }

    fn end_text(&mut self, end: TextEnd)
        requires reads { self.old.used ≡ SlotUse.Filling }
        requires fits { FitsKept self.old.gathered.limit self.old.gathered.builder 4 }
        ensures { HasGathered self.old (with_text_end self.old.gathered end)
            SlotUse.Filling self.new }
    {
        match end {
            TextEnd::Notes => self.reader.end_text(),
            TextEnd::Finished => {}
            TextEnd::Cut(place) => self.cut = Some(place),
        }
    }

    /// Adds the next event of a snippet of line `line`.
    #[inline(always)]
    pub(crate) fn add_note(&mut self, line: u8, event: NoteEvent)
        requires reads { self.old.used ≡ SlotUse.Filling }
        requires fits { FitsNote self.old.gathered.limit self.old.gathered.builder event }
        ensures { HasGathered self.old (with_note self.old.gathered line event)
            (used_past event) self.new }
    {
        match event {
            NoteEvent::Kept(kept) => self.reader.keep(kept.c),
            NoteEvent::Found(_) => {}
            NoteEvent::Ended { how, kept } => self.end_snippet(line, how, kept),
        }
    }

    #[inline(always)]
    fn end_snippet(&mut self, line: u8, how: NoteEnd, count: usize)
        requires reads { self.old.used ≡ SlotUse.Filling }
        requires kept { FitsKept self.old.gathered.limit self.old.gathered.builder 4 }
        requires snippet { FitsSnippet self.old.gathered.limit self.old.gathered.builder }
        ensures { HasGathered self.old (with_note_end self.old.gathered line how count)
            (used_past (NoteEvent.Ended how count)) self.new }
    {
        match how {
            NoteEnd::Next => {
                let span = self.reader.end_snippet(line, count, '|');
                self.add_first_sound(line, span);
            }
            NoteEnd::Close => {
                let span = self.reader.end_snippet(line, count, ')');
                self.add_first_sound(line, span);
                self.close();
            }
            NoteEnd::Cut(place) => self.cut = Some(place),
        }
    }

    /// Returns whether `line` is a line of GABC, and no note or clef has come in GABC.
    #[inline(always)]
    fn awaits_on(&self, line: u8) -> bool
        ensures { result ≡ awaits self.now.gathered.first_kind line }
    {
        line == 0 && self.sounded.is_none()
    }

    /// Looks for the first note or clef in `span`, the snippet of line `line` that has ended, if
    /// this is a line of GABC and neither came before.
    #[inline(always)]
    fn add_first_sound(&mut self, line: u8, span: Span)
        requires { self.old.used ≡ SlotUse.Filling }
        ensures { let g = self.old.gathered in self.new ≡ record self.old {
          gathered = record g { first_kind = first_past g.first_kind line span g.builder.kept };
        } }
    {
        if self.awaits_on(line) {
            self.sounded = self.reader.first_sound_in(span);
        }
    }

    /// Makes the syllable that was read whole.
    fn close(&mut self)
        requires { self.old.used ≡ SlotUse.Filling }
        ensures { HasGathered self.old (with_syllable self.old.gathered) SlotUse.Made self.new }
    {
        self.reader.close(self.spans);
        let starts = self.reader.starts_word(self.after.has_syllable());
        let made = LentSyllable::of(self.reader.syllable());
        let len = canonical_len(made, starts);
        let kept = made.syllable.kept.len();
        self.reader_from = made.kept_from;
        self.over = self.over || kept > self.limit || len > self.limit;
        self.made_len = len;
        self.used = SlotUse::Made;
    }

    /// Closes the last text, if it has a piece, a centre or a translation: its notes are one empty
    /// snippet. Returns whether it did.
    pub(crate) fn close_last(&mut self) -> bool
        requires { self.old.used ≢ SlotUse.Lent }
        ensures gathered { self.new.gathered ≡ with_last self.old.gathered }
        ensures has_last { result ≡ has_text self.old.gathered.builder.view }
        ensures held { self.new.held ≡ self.old.held }
        ensures contexts { self.new.contexts ≡ self.old.contexts }
        ensures used { self.new.used ≢ SlotUse.Lent }
    {
        let has_last = match self.used {
            SlotUse::Filling => has_text(&self.reader.syllable().text),
            _ => false,
        };
        if has_last {
            self.reader.add_no_notes();
            self.close();
        }
        has_last
    }

    /// Returns the bytes of the canonical headers and of all syllables that were made; saturates.
    fn total(&self) -> usize
        ensures { result ≡ self.now.gathered.total }
    {
        match self.used {
            SlotUse::Made => self.after.canonical.saturating_add(self.made_len),
            SlotUse::Filling | SlotUse::Lent => self.after.canonical,
        }
    }

    /// Returns the code of the limit that is passed, if one is; the lower one, if two are.
    pub(crate) fn code(&self, limits: Limits) -> Option<Code>
        ensures code { result ≡ code_in limits self.now.gathered }
    {
        let most = limits.input as usize;
        let is_made = match self.used {
            SlotUse::Made => true,
            _ => self.held,
        };
        if self.over || self.kept_len() > self.limit {
            Some(Code::F5)
        } else if is_made && self.total() >= most {
            Some(Code::F7)
        } else {
            None
        }
    }

    /// Returns whether a syllable is being read, and its kept text is within the limit.
    #[inline(always)]
    pub(crate) fn reads_on(&self) -> bool
        ensures short { result ≡ true →
            length self.now.gathered.builder.kept ≤ self.now.gathered.limit }
        ensures used { result ≡ true → self.now.used ≡ SlotUse.Filling }
    {
        match self.used {
            SlotUse::Filling => self.kept_len() <= self.limit,
            _ => false,
        }
    }

    /// Returns the length in bytes of the syllable that is read.
    fn kept_len(&self) -> usize
        ensures { result ≡ length self.now.gathered.builder.kept }
    {
        match self.used {
            SlotUse::Filling => self.reader.syllable().kept.len(),
            _ => 0,
        }
    }

    /// Returns the fault of the end, if there is one: of an open bracket, at its place, or else of
    /// a limit, at `at`.
    pub(crate) fn end_fault(&self, limits: Limits, at: Place) -> Option<Fault>
        ensures fault { result ≡ end_fault limits at self.now.gathered }
    {
        let passed = self.code(limits);
        match self.cut {
            Some(place) => Some(Fault {
                place,
                code: Code::F6,
            }),
            None => match passed {
                Some(code) => Some(Fault { place: at, code }),
                None => None,
            },
        }
    }

    /// Returns whether the syllable in the slot `reader` begins a word.
    fn starts(&self) -> bool
        ensures { result ≡ self.now.second.made.text.word_start }
    {
        self.reader.syllable().text.word_start
    }

    /// Emits the pending syllable if the current one is whole, which is pending from then on.
    /// Returns the number of syllables emitted, 0 or 1.
    pub(crate) fn rotate(&mut self) -> usize
        ensures gathered { self.new.gathered ≡ with_held self.old.gathered }
        ensures contexts { self.new.contexts ≡ past_point
            (nat_lt (length self.old.held) (length self.old.gathered.made))
            (nat_lt 1 (length self.old.gathered.made)) self.old.contexts self.old.gathered }
        ensures lends { lent_syllables result self.new ≡ take (length self.old.gathered.made - 1)
            (placed_after (is_preceded self.old) self.old.gathered.made) }
        ensures most { result ≤ 1 }
        ensures used { is_made self.new.used ≡ false }
    {
        let SlotUse::Made = self.used else {
            return 0;
        };
        let next_starts = self.starts();
        let total = self.total();
        swap(&mut self.reader, &mut self.holder);
        swap(&mut self.reader_from, &mut self.holder_from);
        let count = if self.held {
            self.reader.place(self.before.has_syllable(), next_starts);
            self.used = SlotUse::Lent;
            self.before = self.after;
            1
        } else {
            self.reader.clear();
            self.used = SlotUse::Filling;
            self.held = true;
            0
        };
        self.after = Preceding {
            syllables: self.before.syllables.saturating_add(1),
            canonical: total,
            spans: self.spans,
            sounded: self.has_sounded(),
        };
        count
    }

    /// Emits the pending syllable as the last one. Returns the number of syllables emitted, 0 or 1.
    pub(crate) fn give_held(&mut self) -> usize
        requires { self.old.used ≢ SlotUse.Lent }
        ensures { LendsLast self.old (placed_after (is_preceded self.old) self.old.held) 1
            result self.new }
    {
        self.holder.place(self.before.has_syllable(), true);
        if self.held { 1 } else { 0 }
    }

    /// Emits the pending syllable, and after it the one that was made last. Returns the number of
    /// syllables emitted, at most 2.
    pub(crate) fn give_all(&mut self) -> usize
        requires { self.old.used ≢ SlotUse.Lent }
        ensures { LendsLast self.old (placed_after (is_preceded self.old) self.old.gathered.made) 2
            result self.new }
    {
        let SlotUse::Made = self.used else {
            return self.give_held();
        };
        let follows = self.before.has_syllable();
        if self.held {
            let next_starts = self.starts();
            self.holder.place(follows, next_starts);
            self.reader.place(true, true);
            2
        } else {
            self.reader.place(follows, true);
            swap(&mut self.reader, &mut self.holder);
            swap(&mut self.reader_from, &mut self.holder_from);
            1
        }
    }
}

ghost use Rattle.std.specs.Prelude.{◌≡◌};
ghost use Rattle.gabc_body.specs.Syllable.{is_open_after};
ghost use Rattle.gabc_body.specs.Body.{has_text};
ghost use Rattle.gabc_text.specs.TextView.{content_of};

/// Returns whether a last text is a syllable.
fn has_text(view: &TextView) -> bool
    ensures { result ≡ has_text (content_of view.now) }
{
    !view.pieces.as_slice().is_empty() || view.centre.is_some() || view.translation.is_some()
}

/// Returns whether a span is open after a piece of kind `kind` spelled `spelled`, if `was` says so
/// before it. The tag `opening` opens it, and `closing` closes it.
fn is_open_after(opening: &[u8], closing: &[u8], was: bool, kind: PieceKind, spelled: &[u8]) -> bool
    ensures { result ≡ is_open_after opening.now closing.now was kind spelled.now }
{
    match kind {
        PieceKind::Mark => spelled == opening || (was && spelled != closing),
        _ => was,
    }
}
