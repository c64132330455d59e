//! Compares runs in pieces over each prefix of an input with the whole forms.

use crate::known::{Known, Wanted, known_of};
use crate::pieces::agrees_in_pieces;
use crate::row::row_of;
use crate::run::Request;
use crate::wholes::{messages_of, output_of};
use gregorio::{Outcome, SourceEnding};
use std::alloc::{AllocError, Global};

/// Returns whether runs in pieces write the output and the messages of the whole forms, and end
/// with their status.
fn agrees_with_whole(alloc: Global, asked: Request) -> Result<bool, AllocError> {
    let outcome = Outcome::of(alloc, asked.bytes, SourceEnding::Whole, asked.limits)?;
    let output = output_of(alloc, asked.format, &outcome)?;
    let messages = messages_of(alloc, "<stdin>", asked.all_warnings, &outcome)?;
    let wanted = Wanted {
        output: output.slice(),
        messages: messages.slice(),
    };
    let status = outcome.status().code();
    Ok(agrees_in_pieces(
        alloc,
        Known {
            asked,
            wanted,
            status,
        },
    ))
}

/// Returns whether runs in pieces agree with the whole forms over each prefix of the input on this
/// line of a file.
pub(crate) fn has_prefixes_alike(alloc: Global, line: &str) -> Result<bool, AllocError> {
    let Some(row) = row_of(alloc, line)? else {
        return Ok(false);
    };
    let Some(known) = known_of(&row) else {
        return Ok(false);
    };
    let asked = known.asked;
    for len in 0..=asked.bytes.len() {
        let bytes = &asked.bytes[..len];
        if !agrees_with_whole(alloc, Request { bytes, ..asked })? {
            return Ok(false);
        }
    }
    Ok(true)
}
