//! Rows of saved states: from their bytes to fields, and back.

use crate::call::Call;
use crate::printed::Printed;
use gabc_places::Room;
use gregorio_jobs::Format;
use gregorio_state::{Phase, ScoreFields, StateFields, TooShort, read};
use std::alloc::{AllocError, Global};

/// Prints the fields of a state for the score.
fn show_score(score: &ScoreFields, out: &mut Printed) {
    out.put("score\t");
    out.show(&score.canonical);
    out.tab();
    out.show_debug(&score.held);
    out.tab();
    out.show_debug(&score.kept);
}

/// Prints the fields of a state: the number of bytes taken, the place of the next character, the
/// format, the flags that are set, and the headers or the score.
fn show_fields(fields: &StateFields, out: &mut Printed) {
    out.show(&fields.taken);
    out.tab();
    out.show(&fields.place);
    out.put(match fields.format {
        Format::Gabc => "\tgabc",
        Format::Dump => "\tdump",
    });
    out.put(if fields.all_warnings { " warnings" } else { "" });
    out.put(if fields.after_cr { " CR" } else { "" });
    out.put(if fields.has_error { " error" } else { "" });
    out.tab();
    match &fields.phase {
        Phase::Headers(text) => out.show_debug(text),
        Phase::Score(score) => show_score(score, out),
    }
}

/// Returns whether `fields` are written as `bytes`.
fn are_written_as(alloc: Global, fields: &StateFields, bytes: &[u8]) -> Result<bool, AllocError> {
    let mut room = Room::with_limit(alloc, bytes.len())?;
    if !fields.is_possible() || fields.len() != bytes.len() {
        return Ok(false);
    }
    fields.write(&mut room);
    Ok(room.slice() == bytes)
}

/// Returns a buffer of `len` bytes, each of them 7.
fn buffer_of(alloc: Global, len: usize) -> Result<Vec<u8>, AllocError> {
    let mut buffer = Vec::new(alloc);
    for _ in 0..len {
        buffer.push(7)?;
    }
    Ok(buffer)
}

/// Returns whether `fields` are saved as `bytes` into a buffer that is four bytes longer, whose
/// other bytes stay as they were, and whether nothing is saved into one that is a byte shorter.
fn are_saved_as(alloc: Global, fields: &StateFields, bytes: &[u8]) -> Result<bool, AllocError> {
    let len = bytes.len();
    let mut short = buffer_of(alloc, len.saturating_sub(1))?;
    let mut long = buffer_of(alloc, len.saturating_add(4))?;
    if !fields.is_possible() {
        return Ok(false);
    }
    let refused = fields.save_into(short.as_mut_slice()) == Err(TooShort);
    let saved = fields.save_into(long.as_mut_slice()) == Ok(len);
    let unchanged = short.as_slice().iter().all(|byte| *byte == 7);
    Ok(
        refused
            && unchanged
            && saved
            && long.as_slice().starts_with(bytes)
            && long.as_slice().ends_with(&[7; 4]),
    )
}

/// Prints the fields of a state, which have to be written and saved as `bytes` again; or that these
/// are no state.
fn answer_fields(alloc: Global, bytes: &[u8], out: &mut Printed) -> Result<(), AllocError> {
    let Some(fields) = read(bytes) else {
        out.put("no state");
        return Ok(());
    };
    show_fields(&fields, out);
    if !are_written_as(alloc, &fields, bytes)? || !are_saved_as(alloc, &fields, bytes)? {
        out.refuse();
    }
    Ok(())
}

/// Prints the number of prefixes of `bytes` that are a state, but for the whole.
fn answer_prefixes(bytes: &[u8], out: &mut Printed) {
    let mut count = 0u32;
    for len in 0..bytes.len() {
        if read(&bytes[..len]).is_some() {
            count = count.saturating_add(1);
        }
    }
    out.show(&count);
}

/// Prints the answer of a call.
pub(crate) fn answer(alloc: Global, call: Call, out: &mut Printed) -> Result<(), AllocError> {
    match call.name {
        "fields" => return answer_fields(alloc, call.bytes, out),
        "prefixes" => answer_prefixes(call.bytes, out),
        _ => out.refuse(),
    }
    Ok(())
}
