//! How a part of a body takes a character, or the end of the input.

ghost use Rattle.std.specs.Prelude.{◌≡◌, ◌≤◌};
ghost use Rattle.gabc_text.specs.witness.Steps as text;
ghost use Rattle.gabc_notes.specs.witness.Keeps as gabc;
ghost use Rattle.gabc_nabc.specs.witness.Keeps as nabc;
ghost use Rattle.gabc_body.specs.Events.{is_text_end as text_end, is_next as note_next};
ghost use Rattle.gabc_score.specs.machine.PartPushes.{EmitsLast, EndsLast};
ghost use Rattle.gabc_score.specs.machine.PartSteps.{TextBounds, NoteBounds};

use gabc_nabc::NabcStage;
use gabc_notes::{NoteEvent, NoteStage};
use gabc_places::{Char, Room, Stage};
use gabc_text::{TextEvent, TextStage};

/// Pushes the character `x` to a text, and leaves in `events` what the text emits at it.
pub(crate) fn push_text(stage: &mut TextStage, x: Char, events: &mut Room<TextEvent>)
    requires events { 8 ≤ events.old.limit }
    ensures once { EndsLast text_end events.new.items }
    ensures events { events.new.limit ≡ events.old.limit }
    ensures steps { text.Steps stage.old x events.new.items stage.new }
    ensures bounds { TextBounds stage.old events.new.items stage.new }
{
    events.clear();
    stage.push(x, events);
}

/// Pushes the character `x` to a snippet of GABC, and leaves in `events` what the snippet emits at
/// it.
pub(crate) fn push_gabc(stage: &mut NoteStage, x: Char, events: &mut Room<NoteEvent>)
    requires events { 3 ≤ events.old.limit }
    ensures next_once { EndsLast note_next events.new.items }
    ensures events { events.new.limit ≡ events.old.limit }
    ensures steps { gabc.Steps stage.old x events.new.items stage.new }
    ensures bounds { NoteBounds events.new.items }
{
    events.clear();
    stage.push(x, events);
}

/// Pushes the character `x` to a snippet of NABC, and leaves in `events` what the snippet emits at
/// it.
pub(crate) fn push_nabc(stage: &mut NabcStage, x: Char, events: &mut Room<NoteEvent>)
    requires events { 3 ≤ events.old.limit }
    ensures next_once { EndsLast note_next events.new.items }
    ensures events { events.new.limit ≡ events.old.limit }
    ensures steps { nabc.Steps stage.old x events.new.items stage.new }
    ensures bounds { NoteBounds events.new.items }
{
    events.clear();
    stage.push(x, events);
}

/// Ends a text or a snippet, and leaves its last events in `events`.
pub(crate) fn finish_part<S: Stage<Input = Char>>(stage: &mut S, events: &mut Room<S::Output>)
    requires { S.most_of stage.old ≤ events.old.limit }
    ensures events { events.new.limit ≡ events.old.limit }
    ensures finishes { EmitsLast (S.rest stage.old) (S.most_of stage.old) events.new.items }
{
    events.clear();
    stage.finish(events);
}
