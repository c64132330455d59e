//! Rows of scores.

use crate::call::{Call, limits_of, place_of, span_of};
use crate::printed::Printed;
use crate::show::{show_bytes, show_fault, show_findings, show_note_event, show_text_event};
use gabc_places::{Code, Fault, Limits, Memory, Place, Span, Stage, Text, outputs_of};
use gabc_score::{BodyEvent, BodyStage, InputEnding, Position, Score, Syllable, score_whole};
use std::alloc::{AllocError, Global};

/// Prints the fault, the findings, the number of syllables, and of each the number of bytes of its
/// canonical text, its position and its kept text.
fn show_score(score: &Score, out: &mut Printed) {
    show_fault(score.fault, out);
    out.put("\t");
    show_findings(score.findings.as_slice(), out);
    out.put("\t");
    out.show(&score.syllables.len());
    for syllable in score.syllables.as_slice() {
        out.put("\t");
        out.show(&syllable.canonical_len());
        out.put(" ");
        out.show_debug(&syllable.position);
        out.put(" ");
        out.put(syllable.kept.as_str());
    }
}

/// Prints the fault and the number of syllables.
fn show_stop(score: &Score, out: &mut Printed) {
    show_fault(score.fault, out);
    out.put("\t");
    out.show(&score.syllables.len());
}

/// Prints the fault, the number of findings and the number of syllables.
fn show_counts(score: &Score, out: &mut Printed) {
    show_fault(score.fault, out);
    out.put("\t");
    out.show(&score.findings.len());
    out.put("\t");
    out.show(&score.syllables.len());
}

/// Prints whether a syllable starts a word, and its snippets: `LINE TEXT`.
fn show_snippets(syllable: &Syllable, out: &mut Printed) {
    let starts = syllable.starts_word();
    out.put(if starts { "starts a word" } else { "goes on" });
    for snippet in syllable.snippets.as_slice() {
        out.put("\t");
        out.show(&snippet.line);
        out.put(" ");
        show_bytes(syllable.slice(snippet.span), out);
    }
}

/// Prints the snippets of each syllable.
fn show_all_snippets(score: &Score, out: &mut Printed) {
    for (index, syllable) in score.syllables.as_slice().iter().enumerate() {
        out.put(if index == 0 { "" } else { "\t" });
        show_snippets(syllable, out);
    }
}

/// Prints the number of syllables, and of each the spans that are open.
fn show_spans(score: &Score, out: &mut Printed) {
    out.show(&score.syllables.len());
    for syllable in score.syllables.as_slice() {
        out.put(match (syllable.eu, syllable.nlba) {
            (true, true) => "\teu nlba",
            (true, false) => "\teu",
            (false, true) => "\tnlba",
            (false, false) => "\tnone",
        });
    }
}

/// Prints the texts of the first syllable at a span.
fn show_text_at(score: &Score, span: Span, out: &mut Printed) {
    match score.syllables.as_slice().first() {
        Some(syllable) => out.put(syllable.text_at(span)),
        None => out.put("no syllable"),
    }
}

/// Prints the answer of a call on a score.
fn show_by(call: &str, score: &Score, out: &mut Printed) {
    match call {
        "score" => show_score(score, out),
        "stop" => show_stop(score, out),
        "counts" => show_counts(score, out),
        "snippets" => show_all_snippets(score, out),
        "spans" => show_spans(score, out),
        _ => out.refuse(),
    }
}

/// Prints whether a syllable at the position of this name starts a word.
fn answer_position(input: &str, out: &mut Printed) {
    let position = match input {
        "One" => Position::One,
        "Beginning" => Position::Beginning,
        "Middle" => Position::Middle,
        _ => Position::End,
    };
    out.put(if position.starts_word() { "yes" } else { "no" });
}

/// Prints an event of a body.
fn show_body_event(event: BodyEvent, out: &mut Printed) {
    match event {
        BodyEvent::Text(inner) => show_text_event(inner, out),
        BodyEvent::Notes { line, out: inner } => {
            out.show(&line);
            out.put(" ");
            show_note_event(inner, out);
        }
    }
}

/// Prints `most`, the most events that a stage emits at once, and these `events`.
fn show_events(most: usize, events: &[BodyEvent], out: &mut Printed) {
    out.show(&most);
    for event in events {
        out.put("\t");
        show_body_event(*event, out);
    }
}

/// Prints the most events that a stage emits at once, and those that it emits of the body.
fn answer_body(alloc: Global, input: &str, out: &mut Printed) -> Result<(), AllocError> {
    let memory = Memory::with_capacity(alloc, 0)?;
    let mut stage = BodyStage::new(&memory, 0, 0)?;
    let events = outputs_of(alloc, &mut stage, input, Place::START)?;
    show_events(stage.most(), events.as_slice(), out);
    Ok(())
}

/// Returns the code with this `name`, if it is one of the faults that rows hand in.
fn fault_code(name: &str) -> Option<Code> {
    match name {
        "F1" => Some(Code::F1),
        "F7" => Some(Code::F7),
        _ => None,
    }
}

/// Returns the ending of a column: `whole`, `broken`, or a fault as `CODE@LINE:COLUMN`.
fn ending_of(column: &str) -> Option<InputEnding> {
    match column {
        "whole" => return Some(InputEnding::Whole),
        "broken" => return Some(InputEnding::Broken),
        _ => {}
    }
    let (code, place) = column.split_once('@')?;
    Some(InputEnding::At(Fault {
        place: place_of(place)?,
        code: fault_code(code)?,
    }))
}

/// Prints the answer of a call on a score with these limits and this ending.
fn answer_score(
    alloc: Global,
    call: Call,
    limits: Limits,
    ending: InputEnding,
    out: &mut Printed,
) -> Result<(), AllocError> {
    let text = Text::from_str(alloc, call.text)?;
    let score = score_whole(alloc, &text, ending, limits)?;
    match span_of(call.first) {
        Some(span) => show_text_at(&score, span, out),
        None => show_by(call.name, &score, out),
    }
    drop(score);
    Ok(())
}

/// Prints the answer of a call.
pub(crate) fn answer(alloc: Global, call: Call, out: &mut Printed) -> Result<(), AllocError> {
    let limits = limits_of(call.first).unwrap_or(Limits::DEFAULT);
    match (call.name, ending_of(call.second)) {
        ("starts_word", _) => {
            answer_position(call.text, out);
            Ok(())
        }
        ("body_events", _) => answer_body(alloc, call.text, out),
        (_, Some(ending)) => answer_score(alloc, call, limits, ending, out),
        _ => {
            out.refuse();
            Ok(())
        }
    }
}
