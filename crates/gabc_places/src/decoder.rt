//! A stage from bytes to characters.

ghost use Rattle.std.specs.Prelude.{◌≡◌, ◌↔◌, ℕ, ◌+◌, ◌-◌, ◌<◌, ◌≤◌, ◌^◌, List, [], ◌∷◌, ◌++◌, length, take, map, true, false, Result, Ok, IfSome, IsSome, IsTrue, option_to_list};
ghost use Rattle.std.specs.List.{All};
ghost use Rattle.gabc_places.specs.StageLaw.{concat_of, EmitsNothing};
ghost use Rattle.gabc_places.specs.Decoder.{known_of, known_at_end};
ghost use Rattle.gabc_places.specs.DecoderMachine.{fresh_decoder, is_fault_item};
ghost use Rattle.gabc_places.specs.witness.DecoderEvents.{stop_with, take_character as taken_character, take_byte, events_left};
ghost use Rattle.gabc_places.specs.DecoderMachine.{IsPartial, IsReached, BeginsLine};
ghost use Rattle.gabc_places.specs.DecoderReports.{MayBeReported, MovesOn, MovesThrough, is_after_cr, resumed};
ghost use Rattle.gabc_places.specs.machine.Decoder.{take_part as taken_part};
ghost use Rattle.gabc_places.specs.Skip.{most_skipped as most_skipped_by, text_events};
ghost use Rattle.std.specs.Str.{chars};
ghost use Rattle.gabc_places.specs.Place.{place_past, placed_characters_from};
ghost use Rattle.gabc_places.specs.TextOfAnInput.{IsPlain};
ghost use Rattle.gabc_places.specs.Text.{is_left_out as left_out_after, read_as as read};

use crate::code::{Code, Fault};
use crate::decode::{is_partial, prefix_and_tail};
use crate::decoded::Tail;
use crate::limits::Limits;
use crate::place::{Char, Place};
use crate::{Room, Stage};
use arrayvec::ArrayVec;
use std::marker::Model;

/// Reads an input's bytes one at a time: emits each character of the text with its place, and the
/// fault that stops the text. It does not allocate.
///
/// Together these are the text and the fault of `text_of`. A character is emitted with its last
/// byte, and F7 with the first byte past the limit. A source that fails is not ended: then an
/// unfinished character is no fault.
#[derive(Drop)]
pub struct Decoder {
    limit: u32,
    taken: u32,
    place: Place,
    pending: ArrayVec<u8, 4>,
    previous: char,
    ended: bool,
}

impl Model for Decoder {
    ghost use Rattle.gabc_places.specs.DecoderMachine.{DecoderState, IsDecoder};

    ghost Value = { DecoderState };

    ghost view = { λ d. record {
      limit = d.limit;
      taken = d.taken;
      place = d.place;
      pending = d.pending.items;
      previous = d.previous;
      ended = d.ended;
    } };

    ghost invariant = { λ d. IsDecoder (record {
      limit = d.limit;
      taken = d.taken;
      place = d.place;
      pending = d.pending.items;
      previous = d.previous;
      ended = d.ended;
    }) };
}

/// Returns whether `c` is left out after `previous`: an LF directly after a CR, and each U+FEFF.
fn is_left_out(previous: char, c: char) -> bool
    ensures { result ≡ left_out_after (previous, c) }
{
    (previous == '\r' && c == '\n') || c == '\u{FEFF}'
}

/// Returns `c`, or an LF for a CR.
fn read_as(c: char) -> char
    ensures { result ≡ read c }
{
    if c == '\r' { '\n' } else { c }
}

/// Returns whether the next character can be at `place` after `taken` bytes, of which the last
/// `pending` are a part of it.
fn is_reached(place: Place, pending: usize, taken: u32) -> bool
    requires { pending < 2 ^ 32 }
    ensures { IsTrue result ↔ IsReached place pending taken }
{
    let most = taken as u64 + 1;
    1 <= place.line
        && place.line <= most
        && 1 <= place.column
        && place.column <= most
        && place.line + place.column + pending as u64 <= most + 1
}

/// Returns whether a line other than the first begins at `place`.
fn begins_line(place: Place) -> bool
    ensures { IsTrue result ↔ BeginsLine place }
{
    place.column == 1 && 2 <= place.line
}

/// Returns whether a decoder under `limit` may report these numbers, bytes and flag.
fn may_be_told(limit: u32, taken: u32, place: Place, pending: &[u8], after_cr: bool) -> bool
    ensures { IsTrue result ↔ MayBeReported limit taken place pending.now after_cr }
{
    if !is_partial(pending) {
        return false;
    }
    let after = !after_cr || (begins_line(place) && pending.is_empty());
    taken <= limit && after && is_reached(place, pending.len(), taken)
}

impl Decoder {
    /// Returns a decoder before the first byte of an input, which reads at most `limits.input`
    /// bytes.
    pub fn new(limits: Limits) -> Decoder
        ensures fresh { result ≡ fresh_decoder limits.input }
        ensures known { (bytes more : List ℕ) →
            concat_of (take (length bytes) (events_left result (bytes ++ more)))
            ≡ known_of limits bytes }
        ensures at_end { (bytes : List ℕ) → concat_of (events_left result bytes)
            ≡ known_at_end limits bytes }
    {
        Decoder {
            limit: limits.input,
            taken: 0,
            place: Place::START,
            pending: ArrayVec::new(),
            previous: '\0',
            ended: false,
        }
    }

    /// Returns a decoder that has taken `taken` bytes under `limits`. The next character is at
    /// `place`, `pending` are the bytes of it that have come, and `after_cr` says whether a CR is
    /// directly before the next byte. Returns `None` if that cannot be: more bytes than the limit,
    /// a place that these bytes do not reach, bytes that are not the beginning of one character, a
    /// CR with bytes pending or not at the end of a line.
    pub fn resume(
        limits: Limits,
        taken: u32,
        place: Place,
        pending: &[u8],
        after_cr: bool,
    ) -> Option<Decoder>
        ensures some { IsSome result ↔
            MayBeReported limits.input taken place pending.now after_cr }
        ensures made { IfSome result (λ decoder. decoder
            ≡ resumed limits.input taken place pending.now after_cr) }
        ensures cr { IfSome result (λ decoder. is_after_cr decoder ≡ after_cr) }
    {
        if !may_be_told(limits.input, taken, place, pending, after_cr) {
            return None;
        }
        let mut kept = ArrayVec::new();
        let Ok(()) = kept.try_extend_from_slice(pending) else {
            unreachable!()
        };
        Some(Decoder {
            limit: limits.input,
            taken,
            place,
            pending: kept,
            previous: if after_cr { '\r' } else { '\0' },
            ended: false,
        })
    }

    /// Takes `byte`, and returns the character that is whole with it, or the fault known by it.
    /// After a fault and after the end it returns nothing more, and the decoder stays as it is. The
    /// character is a scalar value, no CR and no U+FEFF.
    pub fn take(&mut self, byte: u8) -> Option<Result<Char, Fault>>
        ensures item { (bytes : List ℕ) → events_left self.old (byte ∷ bytes)
            ≡ option_to_list result ∷ events_left self.new bytes }
        ensures end { IfSome result (λ item. is_fault_item item ≡ true →
            EmitsNothing (events_left self.new)) }
        ensures place { IfSome result (λ item. is_fault_item item ≡ true →
            self.new.place ≡ self.old.place) }
        ensures moves { MovesOn self.old (option_to_list result) self.new }
        ensures state { self.new ≡ (take_byte byte self.old).state }
        ensures stays { self.old.ended ≡ true → self.new ≡ self.old }
    {
        if self.ended {
            return None;
        }
        if self.taken == self.limit {
            return self.stop(Code::F7);
        }
        self.taken += 1;
        if byte < 128 && self.pending.is_empty() {
            return self.take_character(char::from(byte));
        }
        self.take_part(byte)
    }

    /// Ends the input, and returns the fault of a character that is not whole, if there is one.
    /// From then on the decoder returns nothing; else it stays as it is.
    pub fn end(&mut self) -> Option<Result<Char, Fault>>
        ensures item { events_left self.old [] ≡ option_to_list result ∷ [] }
        ensures over { EmitsNothing (events_left self.new) }
        ensures rest { self.new ≡ record self.old { ended = true } }
    {
        if !self.ended && !self.pending.is_empty() {
            return self.stop(Code::F1);
        }
        self.ended = true;
        None
    }

    /// Returns the place of the next character.
    pub fn place(&self) -> Place
        ensures place { result ≡ self.now.place }
        ensures reached { IsReached result (length self.now.pending) self.now.taken }
    {
        self.place
    }

    /// Returns the number of bytes that it has taken.
    pub fn taken(&self) -> u32
        ensures taken { result ≡ self.now.taken }
        ensures within { result ≤ self.now.limit }
    {
        self.taken
    }

    /// Returns the bytes of a character that is not whole yet: at most three.
    pub fn pending(&self) -> &[u8]
        ensures pending { result.now ≡ self.now.pending }
        ensures partial { IsPartial result.now }
    {
        self.pending.as_slice()
    }

    /// Returns whether the last character is a CR directly before the next byte. An LF would be
    /// left out there.
    pub fn after_cr(&self) -> bool
        ensures cr { result ≡ is_after_cr self.now }
        ensures begins { result ≡ true → BeginsLine self.now.place }
    {
        self.pending.is_empty() && self.previous == '\r'
    }

    /// Returns the number of bytes that `skip_text` may take: as many as are left to the limit, or
    /// 0 if the decoder has stopped or a character is not whole. A column counted on for as many
    /// characters fits a `u64`.
    pub fn most_skipped(&self) -> usize
        ensures most { result ≡ most_skipped_by self.now }
        ensures column { self.now.place.column + result < 2 ^ 64 }
    {
        let left = (self.limit - self.taken) as usize;
        if !self.ended && self.pending.is_empty() {
            left
        } else {
            0
        }
    }

    /// Takes `text` at once, as `take` takes its bytes one by one. The events for them are known
    /// without it: each character with its last byte, and nothing with each other byte. `text` must
    /// have at most `most_skipped` bytes, no CR and no U+FEFF, and no CR may be directly before it.
    /// `next` is the place after it, which the caller has counted.
    pub fn skip_text(&mut self, text: &str, next: Place)
        requires few { length text.now ≤ most_skipped_by self.old }
        requires plain { All IsPlain (chars text.now) }
        requires after_cr { is_after_cr self.old ≡ false }
        requires next { next ≡ place_past self.old.place (chars text.now) }
        ensures joined { (more : List ℕ) → events_left self.old (text.now ++ more)
            ≡ text_events self.old.place (chars text.now) ++ events_left self.new more }
        ensures one_each { length (text_events self.old.place (chars text.now)) ≡ length text.now }
        ensures all { concat_of (text_events self.old.place (chars text.now))
            ≡ map (λ c. Ok c) (placed_characters_from self.old.place (chars text.now)) }
        ensures moves { MovesThrough self.old (text_events self.old.place (chars text.now)) self.new }
        ensures limit { self.new.limit ≡ self.old.limit }
        ensures taken { self.new.taken ≡ self.old.taken + length text.now }
        ensures place { self.new.place ≡ next }
        ensures reached { IsReached next (length self.new.pending) self.new.taken }
        ensures pending { self.new.pending ≡ self.old.pending }
        ensures ended { self.new.ended ≡ self.old.ended }
        ensures none { text.now ≡ [] → self.new ≡ self.old }
        ensures cr { is_after_cr self.new ≡ false }
    {
        if !text.is_empty() {
            self.taken += text.len() as u32;
            self.place = next;
            self.previous = '\0';
        }
    }

    /// Stops, and returns the fault `code` at the place of the next character.
    fn stop(&mut self, code: Code) -> Option<Result<Char, Fault>>
        ensures state { self.new ≡ (stop_with code self.old).state }
        ensures events { option_to_list result ≡ (stop_with code self.old).events }
    {
        self.ended = true;
        Some(Err(Fault {
            place: self.place,
            code,
        }))
    }

    /// Takes the whole character `c`, and returns it unless it is left out.
    fn take_character(&mut self, c: char) -> Option<Result<Char, Fault>>
        requires counted { self.old.place.line + self.old.place.column
            + length self.old.pending ≤ self.old.taken + 1 }
        ensures state { self.new ≡ (taken_character c self.old).state }
        ensures events { option_to_list result ≡ (taken_character c self.old).events }
    {
        let left_out = is_left_out(self.previous, c);
        self.previous = c;
        if left_out {
            return None;
        }
        let c = read_as(c);
        let place = self.place;
        self.place = place.after(c);
        Some(Ok(Char { c, place }))
    }

    /// Takes `byte`, which is counted already, as a part of a longer character.
    fn take_part(&mut self, byte: u8) -> Option<Result<Char, Fault>>
        requires counted { self.old.place.line + self.old.place.column
            + length self.old.pending ≤ self.old.taken + 1 }
        ensures state { self.new ≡ (taken_part byte self.old).state }
        ensures events { option_to_list result ≡ (taken_part byte self.old).events }
    {
        self.pending.push(byte);
        let (text, tail) = prefix_and_tail(self.pending.as_slice());
        match (text.chars().next(), tail) {
            (Some(c), _) => {
                self.pending.clear();
                self.take_character(c)
            }
            (None, Tail::Wrong) => {
                self.pending.clear();
                self.stop(Code::F1)
            }
            (None, Tail::Part) => None,
            (None, Tail::Nothing) => None,
        }
    }
}

impl Stage for Decoder {
    type Input = u8;

    type Output = Result<Char, Fault>;

    ghost rest = { events_left };

    ghost most_of = { λ _. 1 };

    ghost is_end = { is_fault_item };

    fn most(&self) -> usize {
        1
    }

    fn push(&mut self, input: u8, out: &mut Room<Result<Char, Fault>>) {
        if let Some(item) = self.take(input) {
            out.push(item);
        }
    }

    fn finish(&mut self, out: &mut Room<Result<Char, Fault>>) {
        if let Some(item) = self.end() {
            out.push(item);
        }
    }
}
