//! Rows of NABC snippets.

use crate::call::{Call, span_of};
use crate::driven::driven;
use crate::notes::{show_events, show_snippet};
use crate::printed::Printed;
use crate::restored;
use crate::show::show_spelled;
use crate::texts::show_chars;
use gabc_nabc::{
    Descriptor, GlyphCode, NabcStage, codes_in, descriptors_into, descriptors_whole, is_nabc,
    kept_chars, nabc_whole, name_of, parts_in, regular_nabc,
};
use gabc_places::{Place, Room, Sequence, Span, Stage, outputs_of};
use std::alloc::{AllocError, Global};

/// Prints the kept text, the end and the findings of a snippet.
fn answer_snippet(alloc: Global, input: &str, out: &mut Printed) -> Result<(), AllocError> {
    let read = nabc_whole(alloc, input, Place::START)?;
    show_snippet(&read, out);
    Ok(())
}

/// Prints the number of the parts of a snippet, and the parts.
fn show_parts(kept: &str, parts: &[Descriptor], out: &mut Printed) {
    out.show(&parts.len());
    for part in parts {
        out.put(if part.space {
            "\tspace "
        } else {
            "\tdescriptor "
        });
        show_spelled(kept, part.span, out);
    }
}

/// Prints the number of the parts and the parts, which both calls have to return alike; or that the
/// text is no NABC.
fn answer_descriptors(alloc: Global, input: &str, out: &mut Printed) -> Result<(), AllocError> {
    if !is_nabc(input) {
        out.put("no NABC");
        return Ok(());
    }
    let parts = descriptors_whole(alloc, input)?;
    let mut room = Room::with_limit(alloc, input.len())?;
    descriptors_into(input, &mut room);
    if room.slice() != parts.as_slice() {
        out.put("the calls differ");
        return Ok(());
    }
    show_parts(input, parts.as_slice(), out);
    Ok(())
}

/// Prints the number of codes, and each code with its name.
fn show_codes(codes: &[GlyphCode], out: &mut Printed) {
    out.show(&codes.len());
    for code in codes {
        out.put("\t");
        out.show(&code.first);
        out.show(&code.second);
        out.put(" ");
        out.put(code.name().unwrap_or("none"));
    }
}

/// Prints the number of the codes of the descriptor that has this span, and each code with its
/// name.
fn answer_codes(
    alloc: Global,
    span: Span,
    input: &str,
    out: &mut Printed,
) -> Result<(), AllocError> {
    if span.from > span.to || span.to > input.len() {
        out.put("no span");
        return Ok(());
    }
    let mut codes = Sequence::new(alloc);
    let space = false;
    for code in codes_in(input, Descriptor { space, span }) {
        codes.push(code)?;
    }
    show_codes(codes.as_slice(), out);
    Ok(())
}

/// Prints the most events that a stage emits at once, and those that it emits of the snippet.
fn answer_events(alloc: Global, input: &str, out: &mut Printed) -> Result<(), AllocError> {
    let mut stage = NabcStage::new();
    let events = outputs_of(alloc, &mut stage, input, Place::START)?;
    let again = driven(alloc, &mut NabcStage::new(), input)?;
    if again.slice() != events.as_slice() {
        out.put("the calls differ");
        return Ok(());
    }
    show_events(stage.most(), events.as_slice(), out);
    Ok(())
}

/// Prints one part: a space, or the names of the codes of a descriptor.
fn show_part(kept: &str, part: Descriptor, out: &mut Printed) {
    if part.span.from > part.span.to || part.span.to > kept.len() {
        return out.refuse();
    }
    out.put(if part.space {
        "\tspace"
    } else {
        "\tdescriptor"
    });
    for code in codes_in(kept, part) {
        out.put(" ");
        out.put(code.name().unwrap_or("none"));
    }
}

/// Prints the parts with which a text begins, read one by one, with the names of their codes.
fn answer_parts(kept: &str, out: &mut Printed) {
    out.put("parts");
    for part in parts_in(kept) {
        show_part(kept, part, out);
    }
}

/// Prints the characters that are kept of a snippet, with their places.
fn answer_kept(alloc: Global, input: &str, out: &mut Printed) -> Result<(), AllocError> {
    let kept = kept_chars(alloc, input, Place::START)?;
    show_chars(kept.as_slice(), out);
    Ok(())
}

/// Prints the answer of a call on an NABC snippet.
pub(crate) fn answer(alloc: Global, call: Call, out: &mut Printed) -> Result<(), AllocError> {
    match (call.name, span_of(call.first)) {
        ("nabc", _) => return answer_snippet(alloc, call.text, out),
        ("descriptors", _) => return answer_descriptors(alloc, call.text, out),
        ("kept_chars", _) => return answer_kept(alloc, call.text, out),
        ("codes", Some(span)) => return answer_codes(alloc, span, call.text, out),
        ("nabc_events", _) => return answer_events(alloc, call.text, out),
        ("nabc_cut", _) => return restored::answer(alloc, call, out),
        ("parts_in", _) => answer_parts(call.text, out),
        ("regular_nabc", _) => out.show(&regular_nabc(call.text)),
        ("is_nabc", _) => out.show_bool(is_nabc(call.text)),
        ("name_of", _) => out.put(name_of(call.text).unwrap_or("none")),
        _ => out.refuse(),
    }
    Ok(())
}
