//! Rows of elements, segments and glyphs.

ghost use Rattle.gabc_notes.specs.Items.{AreWithin};

use crate::call::Call;
use crate::printed::Printed;
use crate::show::show_span;
use gabc_neumes::{
    Glyph, cut, elements, glyph_from, is_in_element, is_in_segment, kind_of, segments,
    word_of_base, word_of_shape, word_of_tail,
};
use gabc_notes::{Item, Note, is_snippet, items_in, items_whole, note_of};
use gabc_places::{Room, Sequence, Span};
use std::alloc::{AllocError, Global};

/// Prints the number of the spans and the spans.
fn show_spans(spans: &[Span], out: &mut Printed) {
    out.show(&spans.len());
    for span in spans {
        out.put("\t");
        show_span(*span, out);
    }
}

/// Prints the kind of the notes, or `none`.
fn show_kind(notes: &[Note], out: &mut Printed) {
    match kind_of(notes) {
        Some(kind) => out.show(&kind),
        None => out.put("none"),
    }
}

/// Prints glyphs: `KIND COUNT` of each, split by `, `.
fn show_cut(glyphs: &[Glyph], out: &mut Printed) {
    for glyph in glyphs {
        if glyph.first > 0 {
            out.put(", ");
        }
        out.show(&glyph.kind);
        out.put(" ");
        out.show(&glyph.count);
    }
}

/// Prints the glyphs of a segment with these notes.
fn show_glyphs(alloc: Global, notes: &[Note], out: &mut Printed) -> Result<(), AllocError> {
    let mut glyphs = Room::with_limit(alloc, notes.len())?;
    cut(notes, &mut glyphs);
    show_cut(glyphs.slice(), out);
    Ok(())
}

/// Returns the notes among items of `kept`.
fn notes_of(alloc: Global, kept: &str, items: &[Item]) -> Result<Sequence<Note>, AllocError>
    requires { AreWithin kept.now items.now }
{
    let mut notes = Sequence::new(alloc);
    for item in items {
        if let Some(note) = note_of(kept, *item) {
            notes.push(note)?;
        }
    }
    Ok(notes)
}

/// Prints the glyphs of the segment that has these items.
fn show_segment(
    alloc: Global,
    kept: &str,
    part: &[Item],
    out: &mut Printed,
) -> Result<(), AllocError>
    requires { AreWithin kept.now part.now }
{
    let notes = notes_of(alloc, kept, part)?;
    show_glyphs(alloc, notes.as_slice(), out)
}

/// Prints the number of the segments, and the glyphs of each.
fn show_segments(
    alloc: Global,
    kept: &str,
    items: &[Item],
    spans: &[Span],
    out: &mut Printed,
) -> Result<(), AllocError>
    requires { AreWithin kept.now items.now }
{
    out.show(&spans.len());
    for span in spans {
        out.put("\t");
        if let Some(part) = items.get(span.from..span.to) {
            show_segment(alloc, kept, part, out)?;
        }
    }
    Ok(())
}

/// Prints the glyph with which a text begins: its kind, and the number of its notes; or `none`.
fn answer_ahead(kept: &str, out: &mut Printed) {
    let mut items = items_in(kept);
    let Some(item) = items.next() else {
        return out.put("none");
    };
    let Some(note) = note_of(kept, item) else {
        return out.put("none");
    };
    match glyph_from(kept, note, &items) {
        Some((kind, count)) => {
            out.show(&kind);
            out.put(" ");
            out.show(&count);
        }
        None => out.put("none"),
    }
}

/// Prints of each item with which a text begins whether it may be within an element, and whether
/// within a segment.
fn answer_standing(kept: &str, out: &mut Printed) {
    out.put("items");
    for item in items_in(kept) {
        out.tab();
        out.show_bool(is_in_element(kept, item));
        out.put(" ");
        out.show_bool(is_in_segment(item));
    }
}

/// Prints the words for the kind of notes, and that for the shape of each.
fn show_words(notes: &[Note], out: &mut Printed) {
    if let Some(kind) = kind_of(notes) {
        out.put(word_of_base(kind.base));
        out.tab();
        out.put(word_of_tail(kind.base, kind.tail));
    }
    for note in notes {
        out.tab();
        out.put(word_of_shape(note.shape));
    }
}

/// Prints the answer of a call on the notes among items.
fn answer_notes(
    alloc: Global,
    call: &str,
    kept: &str,
    items: &[Item],
    out: &mut Printed,
) -> Result<(), AllocError>
    requires { AreWithin kept.now items.now }
{
    let notes = notes_of(alloc, kept, items)?;
    match call {
        "kind_of" => show_kind(notes.as_slice(), out),
        "words" => show_words(notes.as_slice(), out),
        _ => out.refuse(),
    }
    Ok(())
}

/// Prints the answer of a call on the items of a snippet of notes.
fn answer_items(
    alloc: Global,
    call: &str,
    kept: &str,
    items: &[Item],
    out: &mut Printed,
) -> Result<(), AllocError>
    requires { AreWithin kept.now items.now }
{
    let mut spans = Room::with_limit(alloc, items.len())?;
    match call {
        "elements" => {
            elements(kept, items, &mut spans);
            show_spans(spans.slice(), out);
            Ok(())
        }
        "segments" => {
            segments(kept, items, &mut spans);
            show_spans(spans.slice(), out);
            Ok(())
        }
        "glyphs" => {
            segments(kept, items, &mut spans);
            show_segments(alloc, kept, items, spans.slice(), out)
        }
        _ => answer_notes(alloc, call, kept, items, out),
    }
}

/// Prints the answer of a call on a snippet of notes.
pub(crate) fn answer(alloc: Global, call: Call, out: &mut Printed) -> Result<(), AllocError> {
    match call.name {
        "glyph_from" => answer_ahead(call.text, out),
        "stands" => answer_standing(call.text, out),
        _ if !is_snippet(call.text) => out.refuse(),
        _ => {
            let items = items_whole(alloc, call.text)?;
            return answer_items(alloc, call.name, call.text, items.as_slice(), out);
        }
    }
    Ok(())
}
