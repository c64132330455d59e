//! Finds the bytes of an input at which places are.

ghost use Rattle.std.specs.Prelude.{◌≡◌, ◌<◌, take, length, None, IfSome};
ghost use Rattle.gabc_places.specs.Text.{utf8_prefix_of};
ghost use Rattle.gabc_tree.specs.InputPlaces.{byte_in};
ghost use Rattle.gabc_tree.specs.machine.Walk.{IsWithin, GoesPast, IsFresh, byte_by, here_past};

use crate::not_kept::{is_earlier, is_silent_after, read_as};
use crate::tree::front_within;
use gabc_places::{Limits, Place};
use std::marker::Model;

/// A walk over a text: it is before `rest`, at the byte `byte` and at the place `here`, after the
/// character `previous`.
#[derive(Clone, Copy, Debug)]
struct Walk<'a> {
    rest: &'a str,
    byte: u32,
    previous: char,
    here: Place,
}

/// Returns the place after `c`, whose place is `here`: the same if `is_left_out`, since it is not
/// shown.
fn place_past(here: Place, c: char, is_left_out: bool) -> Place
    ensures { result ≡ here_past here c is_left_out }
{
    if is_left_out {
        here
    } else {
        here.saturating_after(read_as(c))
    }
}

impl<'a> Walk<'a> {
    /// Returns a walk at the beginning of `text`.
    fn begun(text: &'a str) -> Walk<'a>
        ensures { IsFresh text.now result }
    {
        Walk {
            rest: text,
            byte: 0,
            previous: '\0',
            here: Place::START,
        }
    }

    /// Returns the walk past the next character, if that is before `place` or is not shown.
    fn past(&self, place: Place) -> Option<Walk<'a>>
        requires { IsWithin self.now }
        ensures past { IfSome result (λ next. GoesPast self.now next place) }
        ensures within { IfSome result IsWithin }
        ensures shorter { IfSome result (λ next.
            length next.rest.now < length self.now.rest.now) }
        ensures there { result ≡ None → byte_by self.now place ≡ self.now.byte }
    {
        let c = self.rest.chars().next()?;
        let is_left_out = is_silent_after(self.previous, c);
        if !is_left_out && !is_earlier(self.here, place) {
            return None;
        }
        Some(Walk {
            rest: &self.rest[c.len_utf8()..],
            byte: self.byte + c.len_utf8() as u32,
            previous: c,
            here: place_past(self.here, c, is_left_out),
        })
    }

    /// Returns the walk at the first character that is shown and is not before `place`, or at the
    /// end.
    fn to(&self, place: Place) -> Walk<'a>
        requires { IsWithin self.now }
        ensures past { GoesPast self.now result place }
        ensures within { IsWithin result }
        ensures there { byte_by self.now place ≡ result.byte }
    {
        let mut walk = *self;
        while let Some(next) = walk.past(place) {
            walk = next;
        }
        walk
    }
}

/// A reader of the bytes at which places of an input are. It continues from the place that it found
/// last, so that places in order are found in one pass over the input.
#[derive(Debug, Drop)]
pub struct PlaceReader<'a> {
    text: &'a str,
    walk: Walk<'a>,
}

impl<'a> Model for PlaceReader<'a> {
    ghost use Rattle.std.specs.Prelude.{ℕ, List};
    ghost use Rattle.std.specs.Str.{chars};
    ghost use Rattle.gabc_tree.specs.machine.Walk.{IsOn};

    ghost Value = { List ℕ };

    ghost view = { λ r. chars r.text.now };

    ghost invariant = { λ r. IsOn r.text.now r.walk };
}

impl<'a> PlaceReader<'a> {
    /// Returns a reader of the places of `input`, of which it reads no more bytes than `limits`
    /// allow, and none from the first on that begins no character.
    pub fn new(input: &'a [u8], limits: Limits) -> PlaceReader<'a>
        ensures { result ≡ utf8_prefix_of (take limits.input input.now) }
    {
        let text = front_within(input, limits);
        PlaceReader {
            text,
            walk: Walk::begun(text),
        }
    }

    /// Returns the byte of the input, from 0, at `place`: that of the first character that is shown
    /// and is not before it, or else the end of what is read.
    pub fn byte_of(&mut self, place: Place) -> u32
        ensures byte { result ≡ byte_in self.old place }
        ensures same { self.new ≡ self.old }
    {
        if is_earlier(place, self.walk.here) {
            self.walk = Walk::begun(self.text);
        }
        self.walk = self.walk.to(place);
        self.walk.byte
    }
}
