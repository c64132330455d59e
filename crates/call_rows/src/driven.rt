//! Stages that are driven over all characters of a text at once.

use gabc_places::{Char, Place, Room, Stage, drive};
use std::alloc::{AllocError, Global};

/// Returns the events that `stage` emits of the characters of `text` and their end, by `drive`.
pub(crate) fn driven<S: Stage<Input = Char>>(
    alloc: Global,
    stage: &mut S,
    text: &str,
) -> Result<Room<S::Output>, AllocError> {
    let mut inputs = Vec::new(alloc);
    let mut place = Place::START;
    for c in text.chars() {
        inputs.push(Char { c, place })?;
        place = place.saturating_after(c);
    }
    let limit = stage
        .most()
        .checked_mul(inputs.len() + 1)
        .ok_or(AllocError)?;
    let mut out = Room::with_limit(alloc, limit)?;
    drive(stage, inputs, &mut out);
    Ok(out)
}
