//! Rows of texts of syllables.

use crate::call::{Call, place_of};
use crate::driven::driven;
use crate::printed::Printed;
use crate::restored;
use crate::show::{
    show_bytes, show_char, show_findings, show_how, show_piece, show_span, show_text_event,
    show_token,
};
use gabc_places::{Char, Finding, Place, Room, Span, Stage, outputs_of};
use gabc_text::{
    TextEnding, TextEvent, TextStage, TextView, kept_chars, regular_text, text_len, text_whole,
    tokens_in, write_text,
};
use std::alloc::{AllocError, Global};

/// Prints the kept text and the canonical text of a view.
fn show_texts(
    alloc: Global,
    view: &TextView,
    kept: &str,
    out: &mut Printed,
) -> Result<(), AllocError> {
    let len = text_len(view, kept);
    if len == usize::MAX {
        return Err(AllocError);
    }
    let mut room = Room::with_limit(alloc, len)?;
    write_text(view, kept, &mut room);
    out.put(kept);
    out.put("\t");
    show_bytes(room.slice(), out);
    Ok(())
}

/// Prints the kept text and the canonical text.
fn answer_text(alloc: Global, input: &str, out: &mut Printed) -> Result<(), AllocError> {
    let read = text_whole(alloc, input, Place::START)?;
    show_texts(alloc, &read.view, read.kept.as_str(), out)
}

/// Prints the ending of a text, and the findings.
fn show_end(how: TextEnding, findings: &[Finding], out: &mut Printed) {
    show_how(how, out);
    out.put("\t");
    show_findings(findings, out);
}

/// Prints the ending of the text `input`, and the findings.
fn answer_end(alloc: Global, input: &str, out: &mut Printed) -> Result<(), AllocError> {
    let read = text_whole(alloc, input, Place::START)?;
    show_end(read.how, read.findings.as_slice(), out);
    Ok(())
}

/// Prints a span by its name, or that there is none.
fn show_part(name: &str, span: Option<Span>, out: &mut Printed) {
    match span {
        Some(span) => {
            out.put(name);
            out.put(" ");
            show_span(span, out);
        }
        None => {
            out.put("no ");
            out.put(name);
        }
    }
}

/// Prints whether a text begins a word, the centre, the translation and the pieces.
fn show_view(view: &TextView, out: &mut Printed) {
    out.put(if view.word_start {
        "word\t"
    } else {
        "no word\t"
    });
    show_part("centre", view.centre, out);
    out.put("\t");
    show_part("translation", view.translation, out);
    for piece in view.pieces.as_slice() {
        out.put("\t");
        show_piece(*piece, out);
    }
}

/// Prints the view of the text.
fn answer_pieces(alloc: Global, input: &str, out: &mut Printed) -> Result<(), AllocError> {
    let read = text_whole(alloc, input, Place::START)?;
    show_view(&read.view, out);
    Ok(())
}

/// Prints the tokens of a text, read one by one.
fn answer_tokens(text: &str, out: &mut Printed) {
    for token in tokens_in(text) {
        if token.span.from > 0 {
            out.tab();
        }
        show_token(token, out);
    }
}

/// Prints `most`, the most events that a stage emits at once, and these `events`.
fn show_events(most: usize, events: &[TextEvent], out: &mut Printed) {
    out.show(&most);
    for event in events {
        out.put("\t");
        show_text_event(*event, out);
    }
}

/// Prints the most events that a stage emits at once, and those that it emits of the text.
fn answer_events(alloc: Global, input: &str, out: &mut Printed) -> Result<(), AllocError> {
    let mut stage = TextStage::new(Place::START);
    let events = outputs_of(alloc, &mut stage, input, Place::START)?;
    let again = driven(alloc, &mut TextStage::new(Place::START), input)?;
    if again.slice() != events.as_slice() {
        out.put("the calls differ");
        return Ok(());
    }
    show_events(stage.most(), events.as_slice(), out);
    Ok(())
}

/// Prints characters, with their places.
pub(crate) fn show_chars(chars: &[Char], out: &mut Printed) {
    for (index, x) in chars.iter().enumerate() {
        out.put(if index == 0 { "" } else { "\t" });
        show_char(*x, out);
    }
}

/// Prints the characters that are kept, with their places.
fn answer_kept_chars(alloc: Global, input: &str, out: &mut Printed) -> Result<(), AllocError> {
    let kept = kept_chars(alloc, input, Place::START)?;
    show_chars(kept.as_slice(), out);
    Ok(())
}

/// Prints the place of the opener, or that there is none.
fn show_opener(stage: &TextStage, out: &mut Printed) {
    match stage.opener() {
        Some(place) => out.show(&place),
        None => out.put("none"),
    }
}

/// Prints the place of the opener that a stage whose text begins at `first` reports after its first
/// character; then, once it is moved to `second`, the same again, the place of the next character,
/// and whether a comment is open.
fn answer_report(
    alloc: Global,
    first: Place,
    second: Place,
    text: &str,
    out: &mut Printed,
) -> Result<(), AllocError> {
    let mut stage = TextStage::new(first);
    let mut room = Room::with_limit(alloc, stage.most())?;
    if let Some(c) = text.chars().next() {
        stage.push(Char { c, place: first }, &mut room);
    }
    show_opener(&stage, out);
    stage.go_to(second);
    out.tab();
    show_opener(&stage, out);
    out.tab();
    out.show(&stage.next());
    out.tab();
    out.show_bool(stage.in_comment());
    Ok(())
}

/// Prints the answer of a call.
pub(crate) fn answer(alloc: Global, call: Call, out: &mut Printed) -> Result<(), AllocError> {
    match (call.name, place_of(call.first), place_of(call.second)) {
        ("text", _, _) => answer_text(alloc, call.text, out),
        ("text_end", _, _) => answer_end(alloc, call.text, out),
        ("text_pieces", _, _) => answer_pieces(alloc, call.text, out),
        ("text_events", _, _) => answer_events(alloc, call.text, out),
        ("tokens", _, _) => {
            answer_tokens(call.text, out);
            Ok(())
        }
        ("kept_chars", _, _) => answer_kept_chars(alloc, call.text, out),
        ("text_report", Some(first), Some(second)) => {
            answer_report(alloc, first, second, call.text, out)
        }
        ("regular_text", _, _) => {
            out.show(&regular_text(call.bytes));
            Ok(())
        }
        _ => restored::answer(alloc, call, out),
    }
}
