//! The conditions that the fields of a saved state have to meet by themselves.

ghost use Rattle.std.specs.Prelude.{◌≡◌, ◌↔◌, ◌≤◌, length, IsTrue, IfSome};
ghost use Rattle.std.specs.List.{list_all};
ghost use Rattle.std.specs.Str.{chars};
ghost use Rattle.gabc_neumes.specs.InForce.{nothing_in_force};
ghost use Rattle.gregorio_state.specs.Fields.{score_of, phase_of, fields_of};
ghost use Rattle.gabc_headers.specs.HeldText.{IsWithinHeaders};
ghost use Rattle.gabc_places.specs.PlacesInOrder.{IsEarlier, LiesBefore, AreInOrder};
ghost use Rattle.gabc_places.specs.TextOfAnInput.{IsText};
ghost use Rattle.gregorio_state.specs.Conditions.{BeginsWithLf, AreCounts, IsAtOutset, AreBeforeHeld, IsHeldWithin, AreOpeners, MayBeInComment, AreScoreFields, AreHeaderFields, ArePhaseFields, AreStateFields};
ghost use Rattle.gregorio_state.specs.machine.Tests.{is_plain, is_none};

use crate::fields::{Phase, ScoreFields, StateFields};
use gabc_neumes::{Alter, Clef};
use gabc_places::{Decoder, Place};
use gregorio_jobs::Format;

/// Returns whether `text` has no CR and no U+FEFF.
fn is_plain(text: &str) -> bool
    ensures { result ≡ list_all is_plain (chars text.now) }
{
    text.chars().all(|c| c != '\r' && c != '\u{FEFF}')
}

/// Returns whether `text` may be a text of an input: it has no CR and no U+FEFF.
fn is_text(text: &str) -> bool
    ensures { IsTrue result ↔ IsText text.now }
{
    is_plain(text)
}

/// Returns whether `text` has at most `limit` bytes, or one byte more, a `%` that begins a line.
fn is_within_headers(limit: u32, text: &str) -> bool
    requires { 64 ≤ limit }
    ensures { IsTrue result ↔ IsWithinHeaders limit text.now }
{
    let limit = limit as usize;
    text.len() <= limit || matches!(&text.as_bytes()[limit - 1..], [b'\n', b'%'])
}

/// Returns whether `place` comes before `other`.
fn is_earlier(place: Place, other: Place) -> bool
    ensures { IsTrue result ↔ IsEarlier place other }
{
    place.line < other.line || (place.line == other.line && place.column < other.column)
}

/// Returns whether `opener` is a place of a text before `next`.
fn lies_before(next: Place, opener: Place) -> bool
    ensures { IsTrue result ↔ LiesBefore next opener }
{
    1 <= opener.line && 1 <= opener.column && is_earlier(opener, next)
}

/// Returns whether `inner` comes after `notes`, if both are there.
fn are_in_order(notes: Option<Place>, inner: Option<Place>) -> bool
    ensures { IsTrue result ↔ AreInOrder notes inner }
{
    match (notes, inner) {
        (Some(notes), Some(inner)) => is_earlier(notes, inner),
        _ => true,
    }
}

/// Returns whether an LF is the first character of `text`.
fn begins_with_lf(text: &str) -> bool
    ensures { IsTrue result ↔ BeginsWithLf text.now }
{
    match text.as_bytes() {
        [b'\n', ..] => true,
        _ => false,
    }
}

/// Returns whether each of `alters` is `Alter::None`.
fn each_is_none(alters: &[Alter; 15]) -> bool
    ensures { result ≡ list_all is_none alters.now }
{
    alters.iter().all(|alter| matches!(alter, Alter::None))
}

/// Returns whether none of `alters` is in force.
fn are_none(alters: &[Alter; 15]) -> bool
    ensures { IsTrue result ↔ alters.now ≡ nothing_in_force.alters }
{
    each_is_none(alters)
}

/// Returns whether the line of `clef` is one of 1 to 5.
fn is_on_a_line(clef: Option<Clef>) -> bool
    ensures { IsTrue result ↔ IfSome clef (λ c. (1 ≤ c.line) × (c.line ≤ 5)) }
{
    match clef {
        None => true,
        Some(clef) => 1 <= clef.line && clef.line <= 5,
    }
}

impl ScoreFields<'_> {
    /// Returns whether the counts are possible in the state `state`.
    fn are_counts_of(&self, state: &StateFields<'_>) -> bool
        ensures { IsTrue result ↔ AreCounts (fields_of state.now) (score_of self.now) }
    {
        self.nabc_lines <= 4
            && self.macros < 1024
            && self.syllables <= state.taken
            && 2 + self.held.len() <= self.canonical as usize
            && self.canonical < state.limits.input
    }

    /// Returns whether no clef and no alteration is in force.
    fn has_nothing_in_force(&self) -> bool
        ensures { IsTrue result ↔ (score_of self.now).in_force ≡ nothing_in_force }
    {
        self.clef.is_none() && are_none(&self.alters)
    }

    /// Returns whether nothing comes before the pending syllable: no span is open, no note or clef
    /// has come, and nothing is in force.
    fn is_at_outset(&self) -> bool
        ensures { IsTrue result ↔ IsAtOutset (score_of self.now) }
    {
        !self.in_eu && !self.in_nlba && !self.sounded && self.has_nothing_in_force()
    }

    /// Returns whether the fields of the context of the pending syllable are possible in a run that
    /// writes `format`.
    fn is_before_held(&self, format: Format) -> bool
        ensures { IsTrue result ↔ AreBeforeHeld format (score_of self.now) }
    {
        let tracked = match format {
            Format::Gabc => self.has_nothing_in_force(),
            Format::Dump => true,
        };
        is_on_a_line(self.clef)
            && (self.sounded || self.clef.is_none())
            && (1 < self.syllables || self.is_at_outset())
            && tracked
    }

    /// Returns whether the pending text is possible, if a syllable has at most `limit` bytes.
    fn is_held_within(&self, limit: u32) -> bool
        ensures { IsTrue result ↔ IsHeldWithin limit (score_of self.now) }
    {
        is_text(self.held)
            && self.held.len() <= limit as usize
            && self.held.is_empty() == (self.syllables == 0)
            && (self.syllables != 1 || begins_with_lf(self.held))
    }

    /// Returns whether the openers are possible, if the next character is at `next`.
    fn are_openers(&self, next: Place) -> bool
        ensures { IsTrue result ↔ AreOpeners next (score_of self.now) }
    {
        is_opener(next, self.notes_opener)
            && is_opener(next, self.inner_opener)
            && are_in_order(self.notes_opener, self.inner_opener)
    }

    /// Returns whether `in_comment` is possible. `after_cr` says whether the last character is a
    /// CR.
    fn may_be_in_comment(&self, after_cr: bool) -> bool
        ensures { IsTrue result ↔ MayBeInComment after_cr (score_of self.now) }
    {
        !self.in_comment || (!after_cr && self.inner_opener.is_none())
    }

    /// Returns whether the fields are possible in the state `state`.
    fn is_possible(&self, state: &StateFields<'_>) -> bool
        ensures { IsTrue result ↔ AreScoreFields (fields_of state.now) (score_of self.now) }
    {
        let limit = state.limits.syllable;
        self.are_counts_of(state)
            && self.is_before_held(state.format)
            && self.is_held_within(limit)
            && self.are_openers(state.place)
            && self.may_be_in_comment(state.after_cr)
            && is_text(self.kept)
            && self.kept.len() <= limit as usize
    }
}

/// Returns whether `opener`, if there is one, is a place of a text before `next`.
fn is_opener(next: Place, opener: Option<Place>) -> bool
    ensures { IsTrue result ↔ IfSome opener (LiesBefore next) }
{
    match opener {
        None => true,
        Some(opener) => lies_before(next, opener),
    }
}

impl StateFields<'_> {
    /// Returns whether the text `headers` is possible in this state.
    fn has_headers(&self, headers: &str) -> bool
        ensures { IsTrue result ↔ AreHeaderFields (fields_of self.now) headers.now }
    {
        is_text(headers) && is_within_headers(self.limits.header, headers)
    }

    /// Returns whether the phase, with its fields, is possible in this state.
    fn has_phase(&self) -> bool
        ensures { IsTrue result
            ↔ ArePhaseFields (fields_of self.now) (phase_of self.now.phase) }
    {
        match &self.phase {
            Phase::Headers(text) => self.has_headers(text),
            Phase::Score(fields) => fields.is_possible(self),
        }
    }

    /// Returns whether the fields meet those conditions of a saved state that need no text to be
    /// read.
    pub fn is_possible(&self) -> bool
        ensures { IsTrue result ↔ AreStateFields (fields_of self.now) }
    {
        let decoder = Decoder::resume(
            self.limits,
            self.taken,
            self.place,
            self.pending,
            self.after_cr,
        );
        decoder.is_some() && self.has_phase()
    }
}
