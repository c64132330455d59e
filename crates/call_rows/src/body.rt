//! Rows of a stage over a score, one event at a time.

use crate::call::{Call, place_of};
use crate::printed::Printed;
use crate::show::show_bytes;
use gabc_headers::HeadEvent;
use gabc_places::{Char, Limits, Place, Room, Stage};
use gabc_score::{BorrowedSyllable, Openers, ScoreEvent, ScoreStage, canon_lent};
use std::alloc::{AllocError, Global};

/// Prints a borrowed syllable: the event, the kept text and the position.
fn show_syllable(stage: &ScoreStage, lent: BorrowedSyllable, out: &mut Printed) {
    let syllable = stage.syllable(lent);
    out.show_debug(&lent);
    out.put(" ");
    out.show_debug(&syllable.kept.as_str());
    out.put(" ");
    out.show_debug(&syllable.position);
}

/// Prints the events that were emitted with one input, each on a line.
fn show_given(stage: &ScoreStage, events: &[ScoreEvent], out: &mut Printed) {
    for event in events {
        match *event {
            ScoreEvent::Found(finding) => out.show(&finding),
            ScoreEvent::Stop(fault) => out.show(&fault),
            ScoreEvent::Syllable(lent) => show_syllable(stage, lent, out),
            ScoreEvent::End => out.put("end"),
        }
        out.put("\n");
    }
}

/// Prints `kept_from` of each borrowed syllable, and its canonical text.
fn show_lent(
    alloc: Global,
    stage: &ScoreStage,
    events: &[ScoreEvent],
    out: &mut Printed,
) -> Result<(), AllocError> {
    for event in events {
        if let ScoreEvent::Syllable(lent) = *event {
            let given = stage.lent(lent);
            let mut room = Room::with_limit(alloc, 64)?;
            canon_lent(given, &mut room);
            out.show_debug(&given.kept_from);
            out.put(" ");
            show_bytes(room.slice(), out);
            out.put("|");
        }
    }
    Ok(())
}

/// The way in which the events of a stage are printed.
#[derive(Clone, Copy, PartialEq, Eq)]
enum Shown {
    /// Not at all.
    Nothing,
    /// The events, on lines of which the first begins with `|`.
    Events,
    /// The borrowed syllables, with their canonical texts.
    Lent,
}

/// Pushes one input, and prints the events.
fn push(
    alloc: Global,
    stage: &mut ScoreStage,
    input: HeadEvent,
    shown: Shown,
    out: &mut Printed,
) -> Result<(), AllocError> {
    let mut room = Room::with_limit(alloc, 16)?;
    stage.push(input, &mut room);
    match shown {
        Shown::Nothing => Ok(()),
        Shown::Events => {
            out.put("|");
            show_given(stage, room.slice(), out);
            Ok(())
        }
        Shown::Lent => show_lent(alloc, stage, room.slice(), out),
    }
}

/// Pushes headers, and then a text from the place 2:1 on, and prints the events.
fn push_body(
    alloc: Global,
    stage: &mut ScoreStage,
    text: &str,
    shown: Shown,
    out: &mut Printed,
) -> Result<(), AllocError> {
    let heads = HeadEvent::Heads {
        nabc_lines: 1,
        macros: 0,
        canonical: 3,
    };
    push(alloc, stage, heads, shown, out)?;
    push_text(alloc, stage, text, Place { line: 2, column: 1 }, shown, out)
}

/// Pushes the characters of a text, of which the first is at `place`, and prints the events.
fn push_text(
    alloc: Global,
    stage: &mut ScoreStage,
    text: &str,
    mut place: Place,
    shown: Shown,
    out: &mut Printed,
) -> Result<(), AllocError> {
    for c in text.chars() {
        push(alloc, stage, HeadEvent::Body(Char { c, place }), shown, out)?;
        place = place.saturating_after(c);
    }
    Ok(())
}

/// Ends the inputs of a stage, and prints the events.
fn finish(alloc: Global, stage: &mut ScoreStage, out: &mut Printed) -> Result<(), AllocError> {
    let mut room = Room::with_limit(alloc, 16)?;
    stage.finish(&mut room);
    show_given(stage, room.slice(), out);
    Ok(())
}

/// Prints the kept text of the pending syllable, if there is one.
fn show_held(stage: &ScoreStage, out: &mut Printed) {
    if let Some(held) = stage.held() {
        out.put(" ");
        out.show_debug(&held.kept.as_str());
    }
}

/// Prints the places of the openers, and whether a comment is open.
fn show_open(stage: &ScoreStage, out: &mut Printed) {
    if let Some(openers) = stage.openers() {
        out.put(" ");
        out.show_debug(&openers.notes);
        out.put(" ");
        out.show_debug(&openers.inner);
    }
    if let Some(true) = stage.in_comment() {
        out.put(" %");
    }
}

/// Prints what a stage reports: the counts and the open spans before the pending syllable, or
/// before the one that is being read if none is pending; the kept texts of both; the places of the
/// openers; and whether a comment is open.
fn show_report(stage: &ScoreStage, out: &mut Printed) {
    match stage.before() {
        Some(before) => {
            out.show(&before.syllables);
            out.put(" ");
            out.show(&before.canonical);
            out.put(if before.spans.eu { " eu" } else { "" });
            out.put(if before.spans.nlba { " nlba" } else { "" });
            out.put(if before.sounded { " sounded" } else { "" });
        }
        None => out.put("nothing"),
    }
    show_held(stage, out);
    out.put(" ");
    out.show_debug(&stage.reading());
    show_open(stage, out);
}

/// Prints the place of the next character, or that there is none.
fn show_next(stage: &ScoreStage, out: &mut Printed) {
    match stage.next() {
        Some(place) => out.show(&place),
        None => out.put("none"),
    }
}

/// Prints the events that a fresh stage emits of a text, whose source has not failed if it is
/// `whole`.
fn answer_given(
    alloc: Global,
    stage: &mut ScoreStage,
    text: &str,
    whole: bool,
    out: &mut Printed,
) -> Result<(), AllocError> {
    push_body(alloc, stage, text, Shown::Events, out)?;
    if whole {
        push(alloc, stage, HeadEvent::End, Shown::Events, out)?;
    }
    finish(alloc, stage, out)
}

/// Prints the syllables that a fresh stage emits of a text, with their canonical texts.
fn answer_lent(
    alloc: Global,
    stage: &mut ScoreStage,
    text: &str,
    out: &mut Printed,
) -> Result<(), AllocError> {
    push_body(alloc, stage, text, Shown::Lent, out)?;
    push(alloc, stage, HeadEvent::End, Shown::Lent, out)
}

/// Prints what a fresh stage reports before and after its end, and the events of its end.
fn answer_ended(
    alloc: Global,
    stage: &mut ScoreStage,
    out: &mut Printed,
) -> Result<(), AllocError> {
    show_report(stage, out);
    finish(alloc, stage, out)?;
    out.tab();
    show_report(stage, out);
    Ok(())
}

/// Prints the next place of a fresh stage, and the one after a text once it is moved to `at`.
fn answer_moved(
    alloc: Global,
    stage: &mut ScoreStage,
    text: &str,
    at: Place,
    out: &mut Printed,
) -> Result<(), AllocError> {
    show_next(stage, out);
    push_body(alloc, stage, text, Shown::Nothing, out)?;
    stage.go_to(at);
    out.tab();
    show_next(stage, out);
    Ok(())
}

/// A text that stages read which have to go on alike.
const REST: &str = "\n</i>]|ta)c<b";

/// Prints what a stage reports, its next place, and the events that it emits of `REST` and the end.
fn show_rest(alloc: Global, stage: &mut ScoreStage, out: &mut Printed) -> Result<(), AllocError> {
    show_report(stage, out);
    show_next(stage, out);
    let place = stage.next().unwrap_or(Place::START);
    push_text(alloc, stage, REST, place, Shown::Events, out)?;
    push(alloc, stage, HeadEvent::End, Shown::Events, out)
}

/// Has `again` read the kept text that `one` reports of its syllable, and returns whether it does.
fn reads_again(one: &ScoreStage, again: &mut ScoreStage) -> bool {
    let (Some(openers), Some(next)) = (one.openers(), one.next()) else {
        return false;
    };
    again.read_again(one.reading(), openers, one.in_comment() == Some(true), next)
}

/// The text that a stage has read before it reads a kept text again.
const BEFORE: &str = "\na(f)";

/// Prints whether `again`, which reads the kept text that `one` reports after `text`, reports the
/// same and goes on alike.
fn answer_again(
    alloc: Global,
    one: &mut ScoreStage,
    again: &mut ScoreStage,
    text: &str,
    out: &mut Printed,
) -> Result<(), AllocError> {
    push_body(alloc, one, text, Shown::Nothing, out)?;
    push_body(alloc, again, BEFORE, Shown::Nothing, out)?;
    let reads = reads_again(one, again);
    let mut wanted = Printed::new(alloc);
    show_rest(alloc, one, &mut wanted)?;
    let mut printed = Printed::new(alloc);
    show_rest(alloc, again, &mut printed)?;
    out.show_bool(reads && printed.is(wanted.text().as_bytes()));
    Ok(())
}

/// Prints whether a stage reads a text again, and what it then reports.
fn answer_kept(
    alloc: Global,
    stage: &mut ScoreStage,
    text: &str,
    out: &mut Printed,
) -> Result<(), AllocError> {
    push_body(alloc, stage, BEFORE, Shown::Nothing, out)?;
    let openers = Openers {
        notes: None,
        inner: None,
    };
    out.show_bool(stage.read_again(text, openers, false, Place::START));
    out.tab();
    show_report(stage, out);
    Ok(())
}

/// Prints the answer of a call of fresh stages.
fn answer_by(
    alloc: Global,
    call: Call,
    one: &mut ScoreStage,
    other: &mut ScoreStage,
    out: &mut Printed,
) -> Result<(), AllocError> {
    match (call.name, place_of(call.first)) {
        ("given", _) => answer_given(alloc, one, call.text, call.first == "whole", out),
        ("lent", _) => answer_lent(alloc, one, call.text, out),
        ("report", _) => {
            push_body(alloc, one, call.text, Shown::Nothing, out)?;
            show_report(one, out);
            Ok(())
        }
        ("ended", _) => answer_ended(alloc, one, out),
        ("go_to", Some(at)) => answer_moved(alloc, one, call.text, at, out),
        ("goes_on_alike", _) => answer_again(alloc, one, other, call.text, out),
        ("read_again", _) => answer_kept(alloc, one, call.text, out),
        _ => {
            out.refuse();
            Ok(())
        }
    }
}

/// Prints the answer of a call.
pub(crate) fn answer(alloc: Global, call: Call, out: &mut Printed) -> Result<(), AllocError> {
    let mut one = ScoreStage::with_limits(alloc, Limits::DEFAULT)?;
    let mut other = ScoreStage::with_limits(alloc, Limits::DEFAULT)?;
    let answered = answer_by(alloc, call, &mut one, &mut other, out);
    drop(one);
    drop(other);
    answered
}
