//! Prints findings, faults, spans and events in the answers of rows.

use crate::printed::Printed;
use gabc_notes::{NoteEnd, NoteEvent, SnippetEnding};
use gabc_places::{Char, Code, Fault, Finding, Place, Span};
use gabc_text::{Piece, Style, Styles, TextEnd, TextEnding, TextEvent, TextPart, TextToken};
use std::fmt::Display;
use std::str::from_utf8;

/// The styles with their names.
const STYLES: [(Style, &str); 7] = [
    (Style::B, "b"),
    (Style::C, "c"),
    (Style::E, "e"),
    (Style::I, "i"),
    (Style::Sc, "sc"),
    (Style::Tt, "tt"),
    (Style::Ul, "ul"),
];

/// Prints a word, a blank and a value.
fn show_named<T: Display>(name: &str, value: &T, out: &mut Printed) {
    out.put(name);
    out.put(" ");
    out.show(value);
}

/// Prints `LINE:COLUMN: CODE`.
fn show_code(place: Place, code: Code, out: &mut Printed) {
    out.show(&place);
    out.put(": ");
    out.put(code.name());
}

/// Prints `LINE:COLUMN: CODE` of each finding, split by `, `; or `none`.
pub(crate) fn show_findings(findings: &[Finding], out: &mut Printed) {
    if findings.is_empty() {
        return out.put("none");
    }
    for (index, finding) in findings.iter().enumerate() {
        out.put(if index == 0 { "" } else { ", " });
        show_code(finding.place, finding.code, out);
    }
}

/// Prints `LINE:COLUMN: CODE` of the fault, or `none`.
pub(crate) fn show_fault(fault: Option<Fault>, out: &mut Printed) {
    match fault {
        Some(fault) => show_code(fault.place, fault.code, out),
        None => out.put("none"),
    }
}

/// Prints `FROM-TO`.
pub(crate) fn show_span(span: Span, out: &mut Printed) {
    out.show(&span.from);
    out.put("-");
    out.show(&span.to);
}

/// Prints `+` and the name of each style that is open; or `none`.
fn show_styles(styles: Styles, out: &mut Printed) {
    if styles.is_empty() {
        return out.put("none");
    }
    for (style, name) in STYLES {
        if styles.has(style) {
            out.put("+");
            out.put(name);
        }
    }
}

/// Prints a piece: `KIND STYLES FROM-TO`.
pub(crate) fn show_piece(piece: Piece, out: &mut Printed) {
    out.show_debug(&piece.kind);
    out.put(" ");
    show_styles(piece.styles, out);
    out.put(" ");
    show_span(piece.span, out);
}

/// Prints a token: `KIND EFFECT FROM-TO`.
pub(crate) fn show_token(token: TextToken, out: &mut Printed) {
    out.show_debug(&token.kind);
    out.put(" ");
    out.show_debug(&token.effect);
    out.put(" ");
    show_span(token.span, out);
}

/// Prints the ending of a text.
pub(crate) fn show_how(how: TextEnding, out: &mut Printed) {
    match how {
        TextEnding::Notes(index) => show_named("notes", &index, out),
        TextEnding::Finished => out.put("finished"),
        TextEnding::Cut(place) => show_named("cut", &place, out),
    }
}

/// Prints the ending of a snippet.
pub(crate) fn show_snippet_how(how: SnippetEnding, out: &mut Printed) {
    match how {
        SnippetEnding::Next(index) => show_named("next", &index, out),
        SnippetEnding::Close(index) => show_named("close", &index, out),
        SnippetEnding::Cut(place) => show_named("cut", &place, out),
    }
}

/// Prints a character that is kept.
fn show_kept(x: Char, out: &mut Printed) {
    out.put("kept ");
    show_char(x, out);
}

/// Prints a character and its place.
pub(crate) fn show_char(x: Char, out: &mut Printed) {
    out.show_debug(&x.c);
    out.put(" ");
    out.show(&x.place);
}

/// Prints a finding.
fn show_finding(finding: Finding, out: &mut Printed) {
    out.put("found ");
    show_code(finding.place, finding.code, out);
}

/// Prints a part of a text's view.
fn show_part(part: TextPart, out: &mut Printed) {
    match part {
        TextPart::WordStart => out.put("word start"),
        TextPart::Piece(piece) => {
            out.put("piece ");
            show_piece(piece, out);
        }
        TextPart::Centre(span) => {
            out.put("centre ");
            show_span(span, out);
        }
        TextPart::Translation(span) => {
            out.put("translation ");
            show_span(span, out);
        }
    }
}

/// Prints an event of a text.
pub(crate) fn show_text_event(event: TextEvent, out: &mut Printed) {
    match event {
        TextEvent::Kept(x) => show_kept(x, out),
        TextEvent::Part(part) => show_part(part, out),
        TextEvent::Found(finding) => show_finding(finding, out),
        TextEvent::Ended(TextEnd::Notes) => out.put("ended notes"),
        TextEvent::Ended(TextEnd::Finished) => out.put("ended finished"),
        TextEvent::Ended(TextEnd::Cut(place)) => show_named("ended cut", &place, out),
    }
}

/// Prints an event of a snippet.
pub(crate) fn show_note_event(event: NoteEvent, out: &mut Printed) {
    match event {
        NoteEvent::Kept(x) => show_kept(x, out),
        NoteEvent::Found(finding) => show_finding(finding, out),
        NoteEvent::Ended { how, kept } => {
            match how {
                NoteEnd::Next => out.put("ended next"),
                NoteEnd::Close => out.put("ended close"),
                NoteEnd::Cut(place) => show_named("ended cut", &place, out),
            }
            out.put(" ");
            out.show(&kept);
        }
    }
}

/// Prints the spelling of a span of a text.
pub(crate) fn show_spelled(text: &str, span: Span, out: &mut Printed) {
    match text.as_bytes().get(span.from..span.to) {
        Some(bytes) => show_bytes(bytes, out),
        None => out.put("no text"),
    }
}

/// Prints bytes that are UTF-8.
pub(crate) fn show_bytes(bytes: &[u8], out: &mut Printed) {
    match from_utf8(bytes) {
        Ok(text) => out.put(text),
        Err(_) => out.put("not UTF-8"),
    }
}
