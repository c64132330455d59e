//! The headers of a file, read with the largest limits.

ghost use Rattle.std.specs.Prelude.{◌≤◌};

use gabc_headers::{HeadEvent, HeaderStage, headers_whole_with_hasher};
use gabc_places::{Char, Limits, Place, Room, Stage, Text};
use std::alloc::{AllocError, Global};
use std::hash::DefaultHasher;

/// The way in which headers are read.
#[derive(Clone, Copy)]
pub(crate) enum Way {
    /// As a whole.
    Whole,
    /// By a stage, one character at a time.
    Stage,
}

/// Returns the number of headers that are read as a whole, or `None` if a fault stops them.
fn count_whole(
    alloc: Global,
    text: &str,
    limits: Limits,
    hasher: DefaultHasher,
) -> Result<Option<usize>, AllocError> {
    let text = Text::from_str(alloc, text)?;
    match headers_whole_with_hasher(alloc, &text, limits, hasher)? {
        Ok(heads) => Ok(Some(heads.book.len())),
        Err(_) => Ok(None),
    }
}

/// Pushes the characters of a text to `stage`, and drops the events.
fn push_all(stage: &mut HeaderStage, text: &str, out: &mut Room<HeadEvent>)
    requires { 2 ≤ out.old.limit }
{
    for c in text.chars() {
        out.clear();
        let place = Place::START;
        stage.push(Ok(Char { c, place }), out);
    }
}

/// Returns the number of headers that a stage reads: 0 if a fault stops it before the `%%`.
fn count_by_stage(
    alloc: Global,
    text: &str,
    limits: Limits,
    hasher: DefaultHasher,
) -> Result<usize, AllocError> {
    let mut stage = HeaderStage::with_hasher(alloc, limits, hasher)?;
    let mut out = Room::with_limit(alloc, 2)?;
    push_all(&mut stage, text, &mut out);
    let mut count = 0usize;
    for _ in stage.book() {
        count = count.saturating_add(1);
    }
    Ok(count)
}

/// Returns the number of headers of `text`, read in this `way`; `None` if they are read as a whole
/// and a fault stops them.
pub(crate) fn count(
    alloc: Global,
    way: Way,
    text: &str,
    limits: Limits,
    hasher: DefaultHasher,
) -> Result<Option<usize>, AllocError> {
    match way {
        Way::Whole => count_whole(alloc, text, limits, hasher),
        Way::Stage => Ok(Some(count_by_stage(alloc, text, limits, hasher)?)),
    }
}
