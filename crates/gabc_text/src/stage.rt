//! The machine that reads a text, one character at a time.

ghost use Rattle.std.specs.Prelude.{◌≡◌, ◌==◌, ◌↔◌, ◌&&◌, ℕ, ◌+◌, ◌≤◌, List, [], length, map, true, false, IsTrue};
ghost use Rattle.std.specs.Str.{chars, NonePass};
ghost use Rattle.gabc_places.specs.BoundedList.{Fits, extended_by};
ghost use Rattle.gabc_text.specs.TextStage.{fresh_stage};
ghost use Rattle.gabc_text.specs.witness.Keeps.{Keeps};
ghost use Rattle.gabc_text.specs.machine.TextStage.{token_stage, events_of_token, settle_stage, events_of_settling, read_stage, events_of_reading, events_of_end, end_stage, push_stage, events_of_push, finish_stage, events_of_finish, is_cut_end, end_by};
ghost use Rattle.gabc_text.specs.View.{piece_kind};
ghost use Rattle.gabc_text.specs.witness.EventsLeft.{events_left, parts_by};
ghost use Rattle.gabc_text.specs.machine.TokenState.{IsLetterBetween};
ghost use Rattle.gabc_text.specs.machine.RawPart.{stage_past, is_in_raw};
ghost use Rattle.gabc_text.specs.Events.{CountsFit, codes_of, events_by_point};
ghost use Rattle.gabc_text.specs.End.{is_end};

use crate::emit::{emit_char, emit_code, emit_part, emit_piece};
use crate::progress::{Progress, centre, part_at, piece_there};
use crate::text_event::{TextEnd, TextEvent, TextPart};
use crate::text_facts::{
    TextFacts, centre_code, code_at, early_at, keep, kind_of, no_facts, style_code,
};
use crate::token::{TagEffect, TokenKind};
use crate::token_state::{
    Step, TokenState, is_plain, is_plain_letter, is_unmatched, kind_at_end, next_step, settled_kind,
};
use crate::view::PieceKind;
use gabc_places::{Char, Place, Room, Stage};

/// Reads a text, one character at a time, up to the `(` of its notes (GregorioRef, "Syllable Text
/// Syntax"). What a character makes known is emitted with it; after the `(` nothing is emitted. A
/// call emits at most 8 events. It does not allocate. After its end `push` and `finish` change
/// nothing of it.
#[derive(Clone, Copy)]
pub struct TextStage {
    pub(crate) state: TokenState,
    facts: TextFacts,
    pub(crate) progress: Progress,
    ended: bool,
}

/// Returns whether a text with the end `how` is cut.
fn is_cut(how: TextEnd) -> bool
    ensures { result ≡ is_cut_end how }
{
    match how {
        TextEnd::Cut(_) => true,
        _ => false,
    }
}

impl TextStage {
    /// Returns a machine that has read nothing. The first character is at `at`. The spans that it
    /// emits count bytes of the kept text, a centre counts pieces. Each count saturates. It has
    /// kept the empty text. A call emits at most 8 events. After the end `push` and `finish` emit
    /// nothing, and leave the machine as it is.
    pub fn new(at: Place) -> TextStage
        ensures fresh { result ≡ fresh_stage at }
        ensures keeps { Keeps result [] }
        ensures events { (t : List ℕ) → CountsFit at t →
            events_left result t ≡ events_by_point at t }
    {
        TextStage {
            state: TokenState::Plain,
            facts: no_facts(),
            progress: Progress::new(at),
            ended: false,
        }
    }

    /// Returns whether it has read nothing, and its first character is at `at`.
    pub fn begins(&self, at: Place) -> bool
        ensures { IsTrue result ↔ (self.now ≡ fresh_stage at) }
    {
        match self.state {
            TokenState::Plain => {
                !self.ended && self.facts == no_facts() && self.progress == Progress::new(at)
            }
            _ => false,
        }
    }

    /// Emits the parts of a token: a piece comes after the pending blank. Before its last
    /// character, `last` bytes were kept.
    #[inline(always)]
    fn emit_parts(&self, kind: TokenKind, effect: TagEffect, last: usize, out: &mut Room<TextEvent>)
        requires { Fits out.old 2 }
        ensures events { let progress = self.now.progress in out.new
            ≡ extended_by out.old (map (λ p. TextEvent.Part p)
            (parts_by self.now.facts progress kind last progress.kept (piece_kind kind effect))) }
        ensures few { length out.new.items ≤ length out.old.items + 2 }
    {
        match kind_of(kind, effect) {
            Some(piece) => {
                emit_piece(out, self.progress.blank);
                emit_piece(
                    out,
                    Some(piece_there(self.facts, self.progress, piece, last)),
                );
            }
            None => emit_part(out, part_at(self.facts, self.progress, kind, last)),
        }
    }

    /// Reads a token, which ends before `place`. Before its last character, `last` bytes were kept.
    #[inline(always)]
    fn token(
        &mut self,
        kind: TokenKind,
        effect: TagEffect,
        place: Place,
        last: usize,
        out: &mut Room<TextEvent>,
    )
        requires { Fits out.old 3 }
        ensures stage { self.new ≡ token_stage self.old kind effect place }
        ensures out { out.new
            ≡ extended_by out.old
            (events_of_token self.old.facts self.old.progress kind effect last) }
        ensures few { length out.new.items ≤ length out.old.items + 3 }
    {
        self.emit_parts(kind, effect, last, out);
        let code = code_at(self.facts, kind, effect);
        emit_code(out, self.progress.place, code);
        self.state = TokenState::Plain;
        self.progress.pass_token(self.facts, kind, effect, place);
        self.facts.pass(kind, effect);
    }

    /// Reads the token, if any, that ends before the character `c`.
    fn settle(&mut self, c: char, out: &mut Room<TextEvent>)
        requires { Fits out.old 3 }
        ensures stage { self.new ≡ settle_stage self.old c }
        ensures out { out.new ≡ extended_by out.old (events_of_settling self.old c) }
        ensures few { length out.new.items ≤ length out.old.items + 3 }
    {
        if let Some(kind) = settled_kind(self.state, c) {
            self.token(
                kind,
                TagEffect::Other,
                self.progress.next,
                self.progress.start,
                out,
            );
        }
    }

    /// Reads the character `c`, which is part of the current token or begins one.
    fn read(&mut self, c: char, out: &mut Room<TextEvent>)
        requires { Fits out.old 5 }
        ensures stage { self.new ≡ read_stage self.old c }
        ensures out { out.new ≡ extended_by out.old (events_of_reading self.old c) }
        ensures few { length out.new.items ≤ length out.old.items + 5 }
    {
        let kept = keep(self.facts, self.state, c);
        let last = self.progress.kept;
        let early = early_at(self.facts, self.state, c);
        emit_code(out, self.progress.place, early);
        emit_char(out, self.progress.next, kept);
        self.progress.pass(c, kept);
        match next_step(self.state, c) {
            Step::Stays(state) => self.state = state,
            Step::Ends { kind, effect } => {
                self.token(kind, effect, self.progress.next, last, out);
            }
        }
    }

    /// Reads the character, which is a letter between tokens, as `read` does, without its tests:
    /// long words take 5 % fewer instructions by it, and real scores 2 %.
    fn letter(&mut self, c: char, out: &mut Room<TextEvent>)
        requires fits { Fits out.old 5 }
        requires between { self.old.state ≡ TokenState.Plain }
        requires letter { IsLetterBetween c }
        ensures stage { self.new ≡ read_stage self.old c }
        ensures out { out.new ≡ extended_by out.old (events_of_reading self.old c) }
        ensures few { length out.new.items ≤ length out.old.items + 5 }
    {
        let last = self.progress.kept;
        emit_char(out, self.progress.next, Some(c));
        emit_piece(out, self.progress.blank);
        self.progress.pass(c, Some(c));
        let piece = piece_there(self.facts, self.progress, PieceKind::Char, last);
        emit_piece(out, Some(piece));
        let place = self.progress.next;
        self.progress
            .pass_token(self.facts, TokenKind::Letter, TagEffect::Other, place);
        self.facts.pass(TokenKind::Letter, TagEffect::Other);
    }

    /// Ends the text with the end `how`.
    fn end(&mut self, how: TextEnd, out: &mut Room<TextEvent>)
        requires { Fits out.old 4 }
        ensures stage { self.new ≡ end_stage self.old }
        ensures out { out.new
            ≡ extended_by out.old (events_of_end self.old.facts self.old.progress how) }
        ensures few { length out.new.items ≤ length out.old.items + 4 }
    {
        let place = self.progress.next;
        if !is_cut(how) {
            emit_code(out, place, style_code(self.facts.styles));
            emit_code(out, place, centre_code(self.facts));
        }
        emit_part(out, centre(self.progress).map(TextPart::Centre));
        out.push(TextEvent::Ended(how));
        self.ended = true;
    }

    /// Reads the character `c`, after the token, if any, that ends before it. A `(` between tokens
    /// ends the text.
    fn settle_and_read(&mut self, c: char, out: &mut Room<TextEvent>)
        requires fits { Fits out.old 8 }
        requires open { self.old.ended ≡ false }
        ensures stage { self.new ≡ push_stage self.old c }
        ensures out { out.new ≡ extended_by out.old (events_of_push self.old c) }
        ensures few { length out.new.items ≤ length out.old.items + 8 }
    {
        self.settle(c, out);
        if c == '(' && is_plain(self.state) {
            self.end(TextEnd::Notes, out);
        } else {
            self.read(c, out);
        }
    }

    /// Takes the character `c`. After the end it changes nothing.
    pub(crate) fn take(&mut self, c: char, out: &mut Room<TextEvent>)
        requires { Fits out.old 8 }
        ensures stage { self.new ≡ push_stage self.old c }
        ensures out { out.new ≡ extended_by out.old (events_of_push self.old c) }
        ensures few { length out.new.items ≤ length out.old.items + 8 }
    {
        if self.ended {
            return;
        }
        match self.state {
            TokenState::Plain if is_plain_letter(c) => self.letter(c, out),
            _ => self.settle_and_read(c, out),
        }
    }

    /// Returns whether it is in a raw part, with no character of the ending read.
    pub(crate) fn is_in_raw(&self) -> bool
        ensures { result ≡ is_in_raw self.now }
    {
        !self.ended && is_unmatched(self.state)
    }

    /// Takes the characters of `text` in a raw part. None of them begins the ending, so that each
    /// is kept, and nothing more is emitted.
    pub(crate) fn pass(&mut self, text: &str)
        requires raw { is_in_raw self.old ≡ true }
        requires no_ending { NonePass (λ c. c == 60) (chars text.now) }
        ensures { self.new ≡ stage_past self.old (chars text.now) }
    {
        for c in text.chars() {
            self.progress.pass(c, Some(c));
        }
    }

    /// Returns whether the text has ended.
    pub(crate) fn is_done(&self) -> bool
        ensures { result ≡ self.now.ended }
    {
        self.ended
    }

    /// Ends the input.
    pub(crate) fn stop(&mut self, out: &mut Room<TextEvent>)
        requires { Fits out.old 8 }
        ensures stage { self.new ≡ finish_stage self.old }
        ensures out { out.new ≡ extended_by out.old (events_of_finish self.old) }
        ensures few { length out.new.items ≤ length out.old.items + 8 }
    {
        if !self.ended {
            let from = self.progress.place;
            match kind_at_end(self.state) {
                Some(kind) => {
                    self.token(
                        kind,
                        TagEffect::Other,
                        self.progress.next,
                        self.progress.start,
                        out,
                    );
                    self.end(end_after(kind, from), out);
                }
                None => self.end(TextEnd::Finished, out),
            }
        }
    }
}

/// Returns the end of a text whose last token is of kind `kind`, begins at `from`, and ends with
/// the input.
fn end_after(kind: TokenKind, from: Place) -> TextEnd
    ensures { result ≡ end_by kind from }
{
    match kind {
        TokenKind::OpenTag | TokenKind::OpenTranslation => TextEnd::Cut(from),
        _ => TextEnd::Finished,
    }
}

impl Stage for TextStage {
    type Input = Char;

    type Output = TextEvent;

    ghost use Rattle.std.specs.List.{list_any};
    ghost use Rattle.std.specs.Prelude.{◌+◌, ◌≤◌, ◌||◌, drop, length};
    ghost use Rattle.gabc_places.specs.BoundedList.{Fits};
    ghost use Rattle.gabc_places.specs.Place.{saturating_next_place};
    ghost use Rattle.gabc_places.specs.StageLaw.{Pushes, Finishes, EmitsNothing, StopsAtEnd};
    ghost use Rattle.gabc_text.specs.BuiltText.{kept_in};
    ghost use Rattle.gabc_text.specs.witness.StageReports.{has_ended, next_of};
    ghost use Rattle.gabc_text.specs.witness.Steps.{Steps};
    ghost use Rattle.gabc_text.specs.StageReports.{EndedInPlace};
    ghost use Rattle.gabc_text.specs.PiecesOwed.{pieces_in, PiecesArePaid};
    ghost use Rattle.gabc_text.specs.witness.PiecesOwed.{pieces_owed};

    ghost rest = { λ s cs. events_left s (codes_of cs) };

    ghost most_of = { λ _. 8 };

    ghost is_end = { is_end };

    fn most(&self) -> usize {
        8
    }

    fn push(&mut self, input: Char, out: &mut Room<TextEvent>)
        requires { Fits out.old 8 }
        ensures events { Pushes (λ cs. events_left self.old (codes_of cs))
            (λ cs. events_left self.new (codes_of cs)) input 8 out.old out.new }
        ensures end { StopsAtEnd is_end (λ cs. events_left self.new (codes_of cs)) out.old out.new }
        ensures pieces { PiecesArePaid self.old
            (drop (length out.old.items) out.new.items) self.new }
        ensures steps { Steps self.old input (drop (length out.old.items) out.new.items) self.new }
        ensures ends { let events = drop (length out.old.items) out.new.items in
            has_ended self.new ≡ (has_ended self.old || list_any is_end events) }
        ensures next { has_ended self.new ≡ false →
            next_of self.new ≡ saturating_next_place (next_of self.old) input.c }
        ensures stays { has_ended self.old ≡ true → self.new ≡ self.old }
        ensures ended { has_ended self.old ≡ false → has_ended self.new ≡ true →
            EndedInPlace self.old self.new }
    {
        self.take(input.c, out);
    }

    fn finish(&mut self, out: &mut Room<TextEvent>)
        requires { Fits out.old 8 }
        ensures ends { Finishes (λ cs. events_left self.old (codes_of cs)) 8 out.old out.new }
        ensures end { StopsAtEnd is_end (λ cs. events_left self.new (codes_of cs)) out.old out.new }
        ensures over { EmitsNothing (λ cs. events_left self.new (codes_of cs)) }
        ensures done { has_ended self.new ≡ true }
        ensures stays { has_ended self.old ≡ true → self.new ≡ self.old }
        ensures ended { has_ended self.old ≡ false → EndedInPlace self.old self.new }
        ensures pieces { let events = drop (length out.old.items) out.new.items in
            pieces_in events ≤ pieces_owed self.old + length (kept_in events) }
    {
        self.stop(out);
    }
}
