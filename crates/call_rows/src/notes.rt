//! Rows of snippets of notes.

use crate::call::Call;
use crate::driven::driven;
use crate::printed::Printed;
use crate::restored;
use crate::show::{show_findings, show_note_event, show_snippet_how, show_span, show_spelled};
use crate::texts::show_chars;
use gabc_notes::{
    Item, ItemKind, NoteEvent, NoteStage, SnippetRead, height_of, is_snippet, items_in, items_into,
    items_whole, kept_chars, note_of, regular_notes, snippet_whole,
};
use gabc_places::{Place, Room, Span, Stage, outputs_of};
use std::alloc::{AllocError, Global};

/// Prints the number of the items of a snippet, and the items.
fn show_items(kept: &str, items: &[Item], out: &mut Printed) {
    out.show(&items.len());
    for item in items {
        out.put("\t");
        out.show_debug(&item.kind);
        out.put(" ");
        show_spelled(kept, item.span, out);
    }
}

/// Prints the number of the items and the items, which both calls have to return alike; or that the
/// text is no snippet.
fn answer_items(alloc: Global, input: &str, out: &mut Printed) -> Result<(), AllocError> {
    if !is_snippet(input) {
        out.put("no snippet");
        return Ok(());
    }
    let items = items_whole(alloc, input)?;
    let mut room = Room::with_limit(alloc, input.len())?;
    items_into(input, &mut room);
    if room.slice() != items.as_slice() {
        out.put("the calls differ");
        return Ok(());
    }
    show_items(input, items.as_slice(), out);
    Ok(())
}

/// Prints the note of an item of this kind that is the whole text: its height, shape, whether it is
/// initio debilis, and its span.
fn answer_note(kind: ItemKind, input: &str, out: &mut Printed) {
    let span = Span {
        from: 0,
        to: input.len(),
    };
    let Some(note) = note_of(input, Item { kind, span }) else {
        return out.put("none");
    };
    let debilis = if note.debilis {
        "initio debilis"
    } else {
        "none"
    };
    out.show(&note.height);
    out.put("\t");
    out.show_debug(&note.shape);
    out.put("\t");
    out.put(debilis);
    out.put("\t");
    show_span(note.span, out);
}

/// Prints the kept text, the end and the findings of a snippet.
pub(crate) fn show_snippet(read: &SnippetRead, out: &mut Printed) {
    out.put(read.kept.as_str());
    out.put("\t");
    show_snippet_how(read.how, out);
    out.put("\t");
    show_findings(read.findings.as_slice(), out);
}

/// Prints the kept text, the end and the findings of a snippet.
fn answer_snippet(
    alloc: Global,
    split: bool,
    macros: u16,
    input: &str,
    out: &mut Printed,
) -> Result<(), AllocError> {
    let read = snippet_whole(alloc, input, Place::START, split, macros)?;
    show_snippet(&read, out);
    Ok(())
}

/// Prints `most`, the most events that a stage emits at once, and these `events`.
pub(crate) fn show_events(most: usize, events: &[NoteEvent], out: &mut Printed) {
    out.show(&most);
    for event in events {
        out.put("\t");
        show_note_event(*event, out);
    }
}

/// Prints the most events that a stage emits at once, and those that it emits of the snippet.
fn answer_events(
    alloc: Global,
    split: bool,
    macros: u16,
    input: &str,
    out: &mut Printed,
) -> Result<(), AllocError> {
    let mut stage = NoteStage::new(split, macros);
    let events = outputs_of(alloc, &mut stage, input, Place::START)?;
    let again = driven(alloc, &mut NoteStage::new(split, macros), input)?;
    if again.slice() != events.as_slice() {
        out.put("the calls differ");
        return Ok(());
    }
    show_events(stage.most(), events.as_slice(), out);
    Ok(())
}

/// Prints the items with which a text begins. Read one by one, ahead and whole they have to be the
/// same.
fn answer_items_in(alloc: Global, input: &str, out: &mut Printed) -> Result<(), AllocError> {
    let whole = items_whole(alloc, input)?;
    show_items(input, whole.as_slice(), out);
    let items = items_in(input);
    let ahead = items.ahead().count();
    let mut count = 0usize;
    for item in items {
        if whole.as_slice().get(count) != Some(&item) {
            out.refuse();
        }
        count = count.saturating_add(1);
    }
    if count != whole.len() || ahead != whole.len() {
        out.refuse();
    }
    Ok(())
}

/// Prints the characters that are kept of a snippet, with their places.
fn answer_kept(
    alloc: Global,
    split: bool,
    macros: u16,
    input: &str,
    out: &mut Printed,
) -> Result<(), AllocError> {
    let kept = kept_chars(alloc, input, Place::START, split, macros)?;
    show_chars(kept.as_slice(), out);
    Ok(())
}

/// Prints the height of the note of this letter.
fn answer_height(letter: &str, out: &mut Printed) {
    match letter.as_bytes().first() {
        Some(byte) => out.show(&height_of(*byte)),
        None => out.put("none"),
    }
}

/// Prints the answer of a call on a snippet.
pub(crate) fn answer(alloc: Global, call: Call, out: &mut Printed) -> Result<(), AllocError> {
    let split = call.first == "split";
    let macros = call.second.parse::<u16>().unwrap_or(0);
    match call.name {
        "items" => return answer_items(alloc, call.text, out),
        "items_in" => return answer_items_in(alloc, call.text, out),
        "kept_chars" => return answer_kept(alloc, split, macros, call.text, out),
        "snippet" => return answer_snippet(alloc, split, macros, call.text, out),
        "note_events" => return answer_events(alloc, split, macros, call.text, out),
        "notes_cut" => return restored::answer(alloc, call, out),
        "regular_notes" => out.show(&regular_notes(call.text)),
        "height_of" => answer_height(call.text, out),
        "note_of" if call.first == "Custos" => answer_note(ItemKind::Custos, call.text, out),
        "note_of" => answer_note(ItemKind::Note, call.text, out),
        _ => out.refuse(),
    }
    Ok(())
}
