//! Whether a part ends with its last events.

ghost use Rattle.std.specs.Prelude.{◌≡◌};
ghost use Rattle.std.specs.List.{list_any};
ghost use Rattle.gabc_body.specs.Events.{is_text_end as text_end, is_next as note_next, is_close as note_close};
ghost use Rattle.gabc_score.specs.machine.PartPushes.{EndsLast};

use gabc_notes::{NoteEnd, NoteEvent};
use gabc_text::{TextEnd, TextEvent};

/// Returns whether a text ended at its `(`.
fn is_text_end(out: TextEvent) -> bool
    ensures { result ≡ text_end out }
{
    match out {
        TextEvent::Ended(TextEnd::Notes) => true,
        _ => false,
    }
}

/// Returns whether a snippet ended at its `|`.
fn is_next(out: NoteEvent) -> bool
    ensures { result ≡ note_next out }
{
    match out {
        NoteEvent::Ended {
            how: NoteEnd::Next,
            kept: _,
        } => true,
        _ => false,
    }
}

/// Returns whether a snippet ended at its `)`.
fn is_close(out: NoteEvent) -> bool
    ensures { result ≡ note_close out }
{
    match out {
        NoteEvent::Ended {
            how: NoteEnd::Close,
            kept: _,
        } => true,
        _ => false,
    }
}

/// Returns whether a text ended at its `(` with `events`: its end is the last of them.
pub(crate) fn ends_text(events: &[TextEvent]) -> bool
    requires { EndsLast text_end events.now }
    ensures { result ≡ list_any text_end events.now }
{
    match events.last() {
        Some(out) => is_text_end(*out),
        None => false,
    }
}

/// Returns whether a snippet ended at a `|` with `events`: its end is the last of them.
pub(crate) fn ends_at_next(events: &[NoteEvent]) -> bool
    requires { EndsLast note_next events.now }
    ensures { result ≡ list_any note_next events.now }
{
    match events.last() {
        Some(out) => is_next(*out),
        None => false,
    }
}

/// Returns whether a snippet ended at its `)` with `events`: its end is the last of them.
pub(crate) fn ends_at_close(events: &[NoteEvent]) -> bool
    requires { EndsLast note_close events.now }
    ensures { result ≡ list_any note_close events.now }
{
    match events.last() {
        Some(out) => is_close(*out),
        None => false,
    }
}
