//! Rows of texts and their places, of decoders and of limits.

use crate::call::{Call, limits_of, place_of};
use crate::printed::Printed;
use crate::show::show_fault;
use crate::{codes, rooms};
use gabc_places::{Decoder, Fault, Limits, Place, Room, Text, laws, place_of_byte, text_of};
use gabc_text::kept_chars;
use std::alloc::{AllocError, Global};

/// Prints a text and the fault that it ends with.
fn show_decoded(text: &str, fault: Option<Fault>, out: &mut Printed) {
    out.put(text);
    out.tab();
    show_fault(fault, out);
}

/// Prints the text and the fault of a decoder that is fed `bytes` one by one, and their end if they
/// have `ended`.
fn show_by_decoder(
    alloc: Global,
    bytes: &[u8],
    ended: bool,
    limits: Limits,
    out: &mut Printed,
) -> Result<(), AllocError> {
    let mut room = Room::with_limit(alloc, bytes.len().checked_add(1).ok_or(AllocError)?)?;
    if ended {
        let mut all = Vec::new(alloc);
        all.extend_from_slice(bytes)?;
        laws::a_fresh_decoder_emits_the_text(limits, all, &mut room);
    } else {
        laws::a_decoder_emits_what_is_known(limits, bytes, &mut room);
    }
    let mut fault = None;
    for item in room.slice() {
        match *item {
            Ok(x) => out.show(&x.c),
            Err(found) => fault = Some(found),
        }
    }
    show_decoded("", fault, out);
    Ok(())
}

/// Returns the decoder that is restored from what `decoder` reports, if that can be.
fn made_again(decoder: &Decoder, limits: Limits) -> Option<Decoder> {
    Decoder::resume(
        limits,
        decoder.taken(),
        decoder.place(),
        decoder.pending(),
        decoder.after_cr(),
    )
}

/// Returns whether a decoder that is restored after each byte, up to one that ends its text,
/// returns the same as one that is not.
fn goes_on_alike(bytes: &[u8], limits: Limits) -> bool {
    let mut decoder = Decoder::new(limits);
    let mut other = Decoder::new(limits);
    for byte in bytes {
        let taken = decoder.take(*byte);
        if taken != other.take(*byte) {
            return false;
        }
        if let Some(Err(_)) = taken {
            return true;
        }
        match made_again(&other, limits) {
            Some(again) => other = again,
            None => return false,
        }
    }
    decoder.end() == other.end()
}

/// Prints the text and the fault of `bytes`, which the call and decoders have to return alike.
fn answer_text(
    alloc: Global,
    bytes: &[u8],
    ended: bool,
    limits: Limits,
    out: &mut Printed,
) -> Result<(), AllocError> {
    let decoded = text_of(alloc, bytes, ended, limits)?;
    show_decoded(decoded.text.as_str(), decoded.fault, out);
    let mut other = Printed::new(alloc);
    show_by_decoder(alloc, bytes, ended, limits, &mut other)?;
    if !other.is(out.text().as_bytes()) || !goes_on_alike(bytes, limits) {
        out.refuse();
    }
    Ok(())
}

/// Prints whether a decoder can be restored at this `place` with these `pending` bytes after 5
/// bytes.
fn answer_resumed(place: Place, pending: &[u8], after_cr: bool, out: &mut Printed) {
    let made = Decoder::resume(Limits::DEFAULT, 5, place, pending, after_cr);
    out.show_bool(made.is_some());
}

/// Prints a text and the place of its end, and that after its first character.
fn answer_end(alloc: Global, text: &str, out: &mut Printed) -> Result<(), AllocError> {
    let text = if text.is_empty() {
        Text::new(alloc)
    } else {
        Text::from_str(alloc, text)?
    };
    out.put(text.as_str());
    out.tab();
    out.show(&text.end());
    if let Some(c) = text.as_str().chars().next() {
        out.tab();
        out.show(&Place::START.after(c));
    }
    Ok(())
}

/// Prints the place of the byte with this number in the kept characters of a text.
fn answer_byte(
    alloc: Global,
    byte: usize,
    text: &str,
    out: &mut Printed,
) -> Result<(), AllocError> {
    let kept = kept_chars(alloc, text, Place::START)?;
    match place_of_byte(kept.as_slice(), byte) {
        Some(place) => out.show(&place),
        None => out.put("none"),
    }
    Ok(())
}

/// Prints the default limits, in bytes.
fn show_usual(out: &mut Printed) {
    let usual = Limits::default();
    out.show(&usual.header);
    out.put(",");
    out.show(&usual.syllable);
    out.put(",");
    out.show(&usual.input);
    if usual != Limits::DEFAULT {
        out.refuse();
    }
}

/// Prints the answer of a call over a text within limits.
fn answer_within(
    alloc: Global,
    call: Call,
    limits: Limits,
    out: &mut Printed,
) -> Result<(), AllocError> {
    match call.name {
        "text_of" => answer_text(alloc, call.bytes, call.second == "ended", limits, out),
        _ => {
            out.refuse();
            Ok(())
        }
    }
}

/// Prints the answer of a call.
pub(crate) fn answer(alloc: Global, call: Call, out: &mut Printed) -> Result<(), AllocError> {
    if let Some(limits) = limits_of(call.first) {
        return answer_within(alloc, call, limits, out);
    }
    if let Some(place) = place_of(call.first) {
        match call.name {
            "resumed" => answer_resumed(place, call.bytes, call.second == "cr", out),
            _ => codes::answer_at(call.name, place, call.text, out),
        }
        return Ok(());
    }
    match call.name {
        "end_of_text" => answer_end(alloc, call.text, out),
        "place_of_byte" => answer_byte(alloc, rooms::number_of(call.first), call.text, out),
        "limits" => {
            out.show_bool(limits_of(call.text).is_some());
            Ok(())
        }
        "usual_limits" => {
            show_usual(out);
            Ok(())
        }
        "code" | "error" => {
            codes::answer(call, out);
            Ok(())
        }
        _ => rooms::answer(alloc, call, out),
    }
}
