//! Rows of stages of a text and of snippets that are cut before each character and at the end, and
//! restored from the text that they kept and from what they report.

use crate::call::Call;
use crate::printed::Printed;
use gabc_nabc::NabcStage;
use gabc_notes::{NoteEvent, NoteStage};
use gabc_places::{Char, Place, Room, Stage};
use gabc_text::{TextEvent, TextStage};
use std::alloc::{AllocError, Global};
use std::fmt::Debug;

/// An event of a stage.
trait StageEvent: Copy + Debug {
    /// Returns the character that is kept, if the event is one.
    fn kept(self) -> Option<char>;

    /// Returns whether the event is the end.
    fn is_last(self) -> bool;
}

impl StageEvent for TextEvent {
    fn kept(self) -> Option<char> {
        match self {
            TextEvent::Kept(x) => Some(x.c),
            _ => None,
        }
    }

    fn is_last(self) -> bool {
        matches!(self, TextEvent::Ended(_))
    }
}

impl StageEvent for NoteEvent {
    fn kept(self) -> Option<char> {
        match self {
            NoteEvent::Kept(x) => Some(x.c),
            _ => None,
        }
    }

    fn is_last(self) -> bool {
        matches!(self, NoteEvent::Ended { .. })
    }
}

/// Pushes `x`, and appends the characters that are kept to `kept`. Returns whether the text goes
/// on.
fn keep<S: Stage<Input = Char>>(
    alloc: Global,
    stage: &mut S,
    x: Char,
    kept: &mut String,
) -> Result<bool, AllocError>
where
    S::Output: StageEvent,
{
    let mut out = Room::with_limit(alloc, stage.most())?;
    stage.push(x, &mut out);
    let mut goes_on = true;
    for event in out.slice() {
        if let Some(c) = event.kept() {
            kept.push(c)?;
        }
        goes_on = goes_on && !event.is_last();
    }
    Ok(goes_on)
}

/// Returns the character `c` at this `column` of line 1.
fn char_at(c: char, column: usize) -> Char {
    Char {
        c,
        place: Place {
            line: 1,
            column: column as u64,
        },
    }
}

/// Pushes the first `cut` characters of `text`, and appends those that are kept to `kept`. Returns
/// whether the text goes on after them.
fn keep_front<S: Stage<Input = Char>>(
    alloc: Global,
    stage: &mut S,
    text: &str,
    cut: usize,
    kept: &mut String,
) -> Result<bool, AllocError>
where
    S::Output: StageEvent,
{
    for (column, c) in text.chars().take(cut).enumerate() {
        if !keep(alloc, stage, char_at(c, column), kept)? {
            return Ok(false);
        }
    }
    Ok(true)
}

/// Pushes `x`, and prints the events.
fn emit<S: Stage<Input = Char>>(
    alloc: Global,
    stage: &mut S,
    x: Char,
    out: &mut Printed,
) -> Result<(), AllocError>
where
    S::Output: StageEvent,
{
    let mut room = Room::with_limit(alloc, stage.most())?;
    stage.push(x, &mut room);
    out.show_debug(&room.slice());
    Ok(())
}

/// Pushes the characters of `text` from the one at `cut` on, and ends them. Prints the events.
fn emit_rest<S: Stage<Input = Char>>(
    alloc: Global,
    stage: &mut S,
    text: &str,
    cut: usize,
    out: &mut Printed,
) -> Result<(), AllocError>
where
    S::Output: StageEvent,
{
    for (column, c) in text.chars().skip(cut).enumerate() {
        emit(alloc, stage, char_at(c, column), out)?;
    }
    let mut room = Room::with_limit(alloc, stage.most())?;
    stage.finish(&mut room);
    out.show_debug(&room.slice());
    Ok(())
}

/// Returns whether two stages emit the same of the characters of `text` from the one at `cut` on,
/// and of their end.
fn agree<S: Stage<Input = Char>>(
    alloc: Global,
    one: &mut S,
    other: &mut S,
    text: &str,
    cut: usize,
) -> Result<bool, AllocError>
where
    S::Output: StageEvent,
{
    let mut wanted = Printed::new(alloc);
    emit_rest(alloc, one, text, cut, &mut wanted)?;
    let mut printed = Printed::new(alloc);
    emit_rest(alloc, other, text, cut, &mut printed)?;
    Ok(printed.is(wanted.text().as_bytes()))
}

/// Pushes a kept text to `stage`, all at one place, and a `%` if a comment is open.
fn set_down<S: Stage<Input = Char>>(
    alloc: Global,
    stage: &mut S,
    kept: &str,
    in_comment: bool,
) -> Result<(), AllocError>
where
    S::Output: StageEvent,
{
    let place = Place::START;
    let mut passed = String::new(alloc);
    for c in kept.chars() {
        keep(alloc, stage, Char { c, place }, &mut passed)?;
    }
    if in_comment {
        keep(alloc, stage, Char { c: '%', place }, &mut passed)?;
    }
    Ok(())
}

/// Returns whether a stage of a text that is cut at `cut` and restored emits the same of the rest;
/// true if the text has ended there.
fn text_goes_on(alloc: Global, text: &str, cut: usize) -> Result<bool, AllocError> {
    let mut kept = String::new(alloc);
    let mut stage = TextStage::new(Place { line: 3, column: 7 });
    if !keep_front(alloc, &mut stage, text, cut, &mut kept)? {
        return Ok(true);
    }
    let mut again = TextStage::new(Place::START);
    set_down(alloc, &mut again, kept.as_str(), stage.in_comment())?;
    if let Some(place) = stage.opener() {
        again.open_at(place);
    }
    again.go_to(stage.next());
    agree(alloc, &mut stage, &mut again, text, cut)
}

/// Returns the same for a stage of notes.
fn notes_go_on(alloc: Global, text: &str, cut: usize) -> Result<bool, AllocError> {
    let mut kept = String::new(alloc);
    let mut stage = NoteStage::new(true, 2);
    if !keep_front(alloc, &mut stage, text, cut, &mut kept)? {
        return Ok(true);
    }
    let mut again = NoteStage::new(true, 2);
    set_down(alloc, &mut again, kept.as_str(), stage.in_comment())?;
    if let Some(place) = stage.opener() {
        again.open_at(place);
    }
    agree(alloc, &mut stage, &mut again, text, cut)
}

/// Returns the same for a stage of NABC.
fn nabc_goes_on(alloc: Global, text: &str, cut: usize) -> Result<bool, AllocError> {
    let mut kept = String::new(alloc);
    let mut stage = NabcStage::new();
    if !keep_front(alloc, &mut stage, text, cut, &mut kept)? {
        return Ok(true);
    }
    let mut again = NabcStage::new();
    set_down(alloc, &mut again, kept.as_str(), stage.in_comment())?;
    agree(alloc, &mut stage, &mut again, text, cut)
}

/// Prints that the stage of a call goes on alike wherever the text is cut, or the first cut at
/// which it does not.
pub(crate) fn answer(alloc: Global, call: Call, out: &mut Printed) -> Result<(), AllocError> {
    for cut in 0..=call.text.chars().count() {
        let goes_on = match call.name {
            "text_cut" => text_goes_on(alloc, call.text, cut)?,
            "notes_cut" => notes_go_on(alloc, call.text, cut)?,
            "nabc_cut" => nabc_goes_on(alloc, call.text, cut)?,
            _ => false,
        };
        if !goes_on {
            out.put("not at ");
            out.show(&cut);
            return Ok(());
        }
    }
    out.put("goes on");
    Ok(())
}
