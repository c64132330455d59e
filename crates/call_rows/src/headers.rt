//! Rows of headers: of whole texts and of a stage.

ghost use Rattle.std.specs.Prelude.{◌<◌, ◌≤◌, length};

use crate::books::{show_book, show_entries, show_entry, show_headers, show_value};
use crate::call::{Call, limits_of};
use crate::printed::Printed;
use gabc_headers::{
    HeadEvent, HeadFault, HeaderStage, Heads, headers_whole, stage_laws, wants_own_lines,
};
use gabc_places::{Char, Fault, Finding, Limits, Place, Room, Stage, Text};
use std::alloc::{AllocError, Global};

/// Prints ` PLACE CODE` of each finding.
fn show_findings(findings: &[Finding], out: &mut Printed) {
    for finding in findings {
        out.put(" ");
        out.show(&finding.place);
        out.put(" ");
        out.show(&finding.code);
    }
}

/// Prints the headers, the byte of the score and the findings.
fn show_heads(heads: &Heads, out: &mut Printed) {
    show_entries(&heads.book, out);
    out.put("@");
    out.show(&heads.body);
    show_findings(heads.findings.as_slice(), out);
}

/// Prints the fault, whether it lies at the end, and the findings.
fn show_stop(stopped: &HeadFault, out: &mut Printed) {
    let Fault { place, code } = stopped.fault;
    out.show(&place);
    out.put(" ");
    out.show(&code);
    out.put(if stopped.at_end { " at the end" } else { "" });
    show_findings(stopped.findings.as_slice(), out);
}

/// Prints the answer of a call on headers.
fn show_by(call: Call, heads: &Heads, out: &mut Printed) {
    match call.name {
        "headers" => show_heads(heads, out),
        "book" => show_book(&heads.book, out),
        "get" => show_value(heads.book.get(call.second), out),
        _ => out.refuse(),
    }
}

/// Prints the answer of a call on the headers of a text, or what stops them.
fn answer_whole(
    alloc: Global,
    call: Call,
    limits: Limits,
    out: &mut Printed,
) -> Result<(), AllocError> {
    let text = Text::from_str(alloc, call.text)?;
    let read = headers_whole(alloc, &text, limits)?;
    match &read {
        Ok(heads) => show_by(call, heads, out),
        Err(stopped) => show_stop(stopped, out),
    }
    drop(read);
    Ok(())
}

/// Prints an event: findings and faults as their messages, a character of the body as it is.
fn show_event(event: HeadEvent, out: &mut Printed) {
    match event {
        HeadEvent::Found(finding) => {
            out.show(&finding);
            out.put("|");
        }
        HeadEvent::Stop(fault) => out.show(&fault),
        HeadEvent::Heads {
            nabc_lines,
            macros,
            canonical,
        } => {
            out.put("heads ");
            out.show(&nabc_lines);
            out.put(" ");
            out.show(&macros);
            out.put(" ");
            out.show(&canonical);
            out.put("|");
        }
        HeadEvent::Body(c) => out.show(&c.c),
        HeadEvent::End => out.put("|end"),
    }
}

/// Prints the events that a fresh decoder and a fresh stage of headers emit of bytes.
fn answer_events(alloc: Global, bytes: &[u8], out: &mut Printed) -> Result<(), AllocError>
    requires { length bytes.now < 1000 }
{
    let mut inputs = Vec::new(alloc);
    inputs.extend_from_slice(bytes)?;
    let mut room = Room::with_limit(alloc, 4 * (bytes.len() + 1))?;
    stage_laws::a_fresh_stage_reads_bytes(alloc, Limits::DEFAULT, inputs, &mut room)?;
    for event in room.slice() {
        show_event(*event, out);
    }
    Ok(())
}

/// Pushes the characters of a text to a stage, and drops the events.
fn push_all(stage: &mut HeaderStage, text: &str, room: &mut Room<HeadEvent>)
    requires { 2 ≤ room.old.limit }
    ensures { 2 ≤ room.new.limit }
{
    for c in text.chars() {
        room.clear();
        let place = Place::START;
        stage.push(Ok(Char { c, place }), room);
    }
}

/// Prints what a stage lends: the text of the headers, and the headers.
fn show_lent(stage: &HeaderStage, out: &mut Printed) {
    out.put(stage.text().unwrap_or("none"));
    out.put("|");
    for (name, value) in stage.book() {
        show_entry(name, value, ",", out);
    }
    out.put("|");
}

/// Prints the answer of a call on a stage.
fn show_of_stage(call: Call, stage: &HeaderStage, out: &mut Printed) {
    match call.name {
        "lent" => show_lent(stage, out),
        "lent_book" => show_headers(&stage.book(), out),
        "lent_value" => show_value(stage.book().get(call.first), out),
        "most" => out.show(&stage.most()),
        _ => out.refuse(),
    }
}

/// The text that a stage reads before it is restarted.
const BEFORE: &str = "mode:1;\nmode:2;\n%%\n(f)";

/// Prints the answer of a call on a fresh stage that has read a text. The answer has to be the same
/// once the stage was restarted and has read the text again.
fn answer_stage(alloc: Global, call: Call, out: &mut Printed) -> Result<(), AllocError> {
    let mut room = Room::with_limit(alloc, 2)?;
    let mut stage = HeaderStage::with_limits(alloc, Limits::DEFAULT)?;
    push_all(&mut stage, call.text, &mut room);
    show_of_stage(call, &stage, out);
    stage.restart();
    push_all(&mut stage, BEFORE, &mut room);
    stage.restart();
    push_all(&mut stage, call.text, &mut room);
    let mut again = Printed::new(alloc);
    show_of_stage(call, &stage, &mut again);
    drop(stage);
    if !again.is(out.text().as_bytes()) {
        out.refuse();
    }
    Ok(())
}

/// Prints the answer of a call.
pub(crate) fn answer(alloc: Global, call: Call, out: &mut Printed) -> Result<(), AllocError> {
    if let Some(limits) = limits_of(call.first) {
        return answer_whole(alloc, call, limits, out);
    }
    match call.name {
        "wants_own_lines" => {
            out.show_bool(wants_own_lines(call.text));
            Ok(())
        }
        "head_events" if call.bytes.len() < 1000 => answer_events(alloc, call.bytes, out),
        _ => answer_stage(alloc, call, out),
    }
}
