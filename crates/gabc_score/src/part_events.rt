//! The events of a text or a snippet as those of a body.

ghost use Rattle.std.specs.Prelude.{◌≡◌, [], ◌∷◌, map, length};
ghost use Rattle.gabc_places.specs.BoundedList.{Fits, extended_by};
ghost use Rattle.gabc_body.specs.Events.{innermost as with_innermost, note_event as event_of_notes};
ghost use Rattle.gabc_body.specs.declared.events.BodyEvent.TheVariants.{Text as of_text};
ghost use Rattle.gabc_score.specs.machine.HoldsEvents.{CanHold, HoldsEvents};

use crate::slot_pair::SlotPair;
use gabc_body::BodyEvent;
use gabc_notes::{NoteEnd, NoteEvent};
use gabc_places::{Finding, Place, Room};
use gabc_text::TextEvent;

/// Returns the end of a snippet whose `(` is at `opened`: if it is cut, with the place of its
/// innermost open bracket.
fn innermost(opened: Place, how: NoteEnd) -> NoteEnd
    ensures { result ≡ with_innermost opened how }
{
    match how {
        NoteEnd::Cut(place) if place.line == 0 => NoteEnd::Cut(opened),
        how => how,
    }
}

/// Returns the event `out` of a snippet of `line` as one of a body, with the place of its innermost
/// open bracket if it is cut; the `(` is at `opened`.
pub(crate) fn note_event(line: u8, opened: Place, out: NoteEvent) -> BodyEvent
    ensures { result ≡ event_of_notes line opened out }
{
    let out = match out {
        NoteEvent::Ended { how, kept } => NoteEvent::Ended {
            how: innermost(opened, how),
            kept,
        },
        out => out,
    };
    BodyEvent::Notes { line, out }
}

/// Emits the events of a text as those of a body.
pub(crate) fn emit_text(events: &[TextEvent], out: &mut Room<BodyEvent>)
    requires { Fits out.old (length events.now) }
    ensures { out.new ≡ extended_by out.old (map (λ o. of_text o) events.now) }
{
    for item in events {
        out.push(BodyEvent::Text(*item));
    }
}

/// Emits the events of a snippet of `line`, whose `(` is at `opened`, as those of a body.
pub(crate) fn emit_notes(line: u8, opened: Place, events: &[NoteEvent], out: &mut Room<BodyEvent>)
    requires { Fits out.old (length events.now) }
    ensures { out.new ≡ extended_by out.old (map (event_of_notes line opened) events.now) }
{
    for item in events {
        out.push(note_event(line, opened, *item));
    }
}

/// Adds an event of a text to what was gathered, and its finding to `found`.
#[inline(always)]
fn hold_in_text(event: TextEvent, pair: &mut SlotPair, found: &mut Room<Finding>)
    requires { CanHold (of_text event ∷ []) pair.old found.old }
    ensures { HoldsEvents (of_text event ∷ []) pair.old found.old pair.new found.new }
{
    match event {
        TextEvent::Found(finding) => found.push(finding),
        TextEvent::Kept(_) | TextEvent::Part(_) | TextEvent::Ended(_) => pair.add_text(event),
    }
}

/// Adds an event of a snippet of `line`, whose `(` is at `opened`, to what was gathered, and its
/// finding to `found`.
#[inline(always)]
fn hold_in_notes(
    line: u8,
    opened: Place,
    event: NoteEvent,
    pair: &mut SlotPair,
    found: &mut Room<Finding>,
)
    requires { CanHold (event_of_notes line opened event ∷ []) pair.old found.old }
    ensures { HoldsEvents (event_of_notes line opened event ∷ []) pair.old found.old
        pair.new found.new }
{
    match event {
        NoteEvent::Found(finding) => found.push(finding),
        NoteEvent::Kept(_) => pair.add_note(line, event),
        NoteEvent::Ended { how, kept } => {
            let how = innermost(opened, how);
            pair.add_note(line, NoteEvent::Ended { how, kept })
        }
    }
}

/// Adds the events of a text to what was gathered, and their findings to `found`.
#[inline(always)]
pub(crate) fn hold_text(events: &[TextEvent], pair: &mut SlotPair, found: &mut Room<Finding>)
    requires { CanHold (map (λ o. of_text o) events.now) pair.old found.old }
    ensures { HoldsEvents (map (λ o. of_text o) events.now) pair.old found.old pair.new found.new }
{
    for event in events {
        hold_in_text(*event, pair, found);
    }
}

/// Adds the events of a snippet of `line`, whose `(` is at `opened`, to what was gathered, and
/// their findings to `found`.
#[inline(always)]
pub(crate) fn hold_notes(
    line: u8,
    opened: Place,
    events: &[NoteEvent],
    pair: &mut SlotPair,
    found: &mut Room<Finding>,
)
    requires { CanHold (map (event_of_notes line opened) events.now) pair.old found.old }
    ensures { HoldsEvents (map (event_of_notes line opened) events.now) pair.old found.old
        pair.new found.new }
{
    for event in events {
        hold_in_notes(line, opened, *event, pair, found);
    }
}
