//! The pending headers, which a stage reads again.

ghost use Rattle.std.specs.Prelude.{◌≡◌, ◌↔◌, ◌≤◌, ◌<◌, ◌^◌, length, true, IsTrue, Ok};
ghost use Rattle.std.specs.List.{list_any};
ghost use Rattle.std.specs.Str.{chars};
ghost use Rattle.gabc_places.specs.Place.{place_after};
ghost use Rattle.gabc_headers.specs.HeldText.{holding};
ghost use Rattle.gabc_headers.specs.witness.HeadEvents.{events_of_input, fresh_stage, stage_after};
ghost use Rattle.gregorio.specs.Saved.{GivesHeaders};
ghost use Rattle.gregorio.specs.machine.HeldHeaders.{IsPushed, after_mark, is_error_event as error_event};

use crate::findings::is_error;
use gabc_headers::{HeadEvent, HeaderStage};
use gabc_places::{Char, Place, Room, Stage};

/// The place after a text of headers, and whether it has errors.
#[derive(Clone, Copy, PartialEq, Eq)]
pub(crate) struct HeldHeaders {
    /// The place of the character after the text.
    pub(crate) place: Place,
    /// Whether an error is found in the text.
    pub(crate) has_error: bool,
}

/// Returns whether `event` is an error.
fn is_error_event(event: HeadEvent) -> bool
    ensures { result ≡ error_event event }
{
    match event {
        HeadEvent::Found(finding) => is_error(finding),
        _ => false,
    }
}

/// Returns whether an error is among `events`.
fn has_error(events: &[HeadEvent]) -> bool
    ensures { result ≡ list_any error_event events.now }
{
    events.iter().any(|event| is_error_event(*event))
}

/// Pushes `x` into `heads`, and returns whether an error is found with it. `events` has room for
/// the events of a character.
fn push_character(heads: &mut HeaderStage, x: Char, events: &mut Room<HeadEvent>) -> bool
    requires { 2 ≤ events.old.limit }
    ensures room { events.new.limit ≡ events.old.limit }
    ensures state { heads.new ≡ stage_after heads.old (Ok x) }
    ensures error { result ≡ list_any error_event
        (events_of_input heads.old.limits heads.old.progress (Ok x)) }
{
    events.clear();
    heads.push(Ok(x), events);
    has_error(events.slice())
}

/// Pushes the characters of `text` into `heads`, which is before the first one. Returns the place
/// after them, and whether an error is found. `events` has room for the events of a character.
fn push_text(heads: &mut HeaderStage, text: &str, events: &mut Room<HeadEvent>) -> HeldHeaders
    requires fresh { heads.old ≡ fresh_stage heads.old.limits heads.old.hasher }
    requires short { length text.now < 2 ^ 63 }
    requires room { 2 ≤ events.old.limit }
    ensures place { result.place ≡ place_after (chars text.now) }
    ensures pushed { IsPushed heads.old.limits heads.old.hasher (chars text.now) heads.new
        result.has_error }
{
    gabc_headers::stage_laws::a_held_text_grows();
    let mut given = HeldHeaders {
        place: Place::START,
        has_error: false,
    };
    for c in text.chars() {
        let place = given.place;
        let found = push_character(heads, Char { c, place }, events);
        given = HeldHeaders {
            place: place.after(c),
            has_error: given.has_error | found,
        };
    }
    given
}

/// Reads `text` with `heads`, which is before its first character. Returns whether the headers go
/// on after it, and the place after it and its errors are those of `told`. `events` has room for
/// the events of a character.
pub(crate) fn holds_text(
    heads: &mut HeaderStage,
    text: &str,
    told: HeldHeaders,
    events: &mut Room<HeadEvent>,
) -> bool
    requires fresh { heads.old ≡ fresh_stage heads.old.limits heads.old.hasher }
    requires short { length text.now < 2 ^ 63 }
    requires room { 2 ≤ events.old.limit }
    ensures gives { IsTrue result
        ↔ GivesHeaders heads.old.limits (chars text.now) told.place told.has_error }
    ensures holds { result ≡ true →
        heads.new ≡ holding heads.old.limits heads.old.hasher (chars text.now) }
{
    gabc_headers::stage_laws::a_held_text_is_held_again();
    let given = push_text(heads, text, events);
    if heads.text().is_none() {
        return false;
    }
    given == told
}

/// Reads the line `%%` with `heads`, which is before the first character of a text. `events` has
/// room for the events of a character.
pub(crate) fn read_mark(heads: &mut HeaderStage, events: &mut Room<HeadEvent>)
    requires fresh { heads.old ≡ fresh_stage heads.old.limits heads.old.hasher }
    requires room { 2 ≤ events.old.limit }
    ensures { heads.new ≡ after_mark heads.old.limits heads.old.hasher }
{
    let _ = push_text(heads, "%%", events);
}
