//! The characters of a kept text, with their places in the source.

ghost use Rattle.std.specs.Prelude.{◌≡◌, ◌+◌, ◌≤◌, ◌<◌, ◌^◌, ◌++◌, [], ◌∷◌, length, take, IfOk, OnOk};
ghost use Rattle.std.specs.Str.{chars};
ghost use Rattle.gabc_places.specs.StageLaw.{concat_of};
ghost use Rattle.gabc_places.specs.Place.{placed_characters_from};
ghost use Rattle.gabc_notes.specs.SnippetRead.{kept_chars_of};
ghost use Rattle.gabc_notes.specs.NotesRead.{AreKeptChars};

use crate::stage::{NoteEvent, NoteStage};
use crate::whole::snippet_whole;
use gabc_places::{Char, Place, Room, Sequence, Stage};
use std::alloc::{AllocError, Global};

/// Adds the character that `event` keeps, if it keeps one and `kept` has fewer than `count`.
fn add_kept(kept: &mut Sequence<Char>, event: NoteEvent, count: usize) -> Result<(), AllocError>
    requires { length kept.old ≤ count }
    ensures { OnOk result (kept.new ≡ take count (kept.old ++ kept_chars_of (event ∷ []))) }
{
    match event {
        NoteEvent::Kept(x) => {
            if kept.len() < count {
                kept.push(x)?;
            }
        }
        NoteEvent::Found(_) => {}
        NoteEvent::Ended { .. } => {}
    }
    Ok(())
}

/// Adds the characters that `events` keep, while `kept` has fewer than `count`.
fn add_all_kept(
    kept: &mut Sequence<Char>,
    events: &[NoteEvent],
    count: usize,
) -> Result<(), AllocError>
    requires { length kept.old ≤ count }
    ensures { OnOk result (kept.new ≡ take count (kept.old ++ kept_chars_of events.now)) }
{
    for event in events {
        add_kept(kept, *event, count)?;
    }
    Ok(())
}

/// Returns the number of characters of `text`.
fn characters(text: &str) -> usize
    ensures { result ≡ length (chars text.now) }
{
    text.chars().count()
}

/// Returns the first of the characters that `stage` emits as kept, driven over `body` and then
/// ended: as many as `kept` has, or all if there are fewer. The first character of `body` is at
/// `at`. Fails only if memory cannot be allocated. The stage is spent either way.
pub fn kept_chars_by<S>(
    alloc: Global,
    mut stage: S,
    body: &str,
    at: Place,
    kept: &str,
) -> Result<Sequence<Char>, AllocError>
where
    S: Stage<Input = Char, Output = NoteEvent> + Drop,
    requires line { at.line + length body.now < 2 ^ 64 }
    requires column { at.column + length body.now < 2 ^ 64 }
    ensures { let events = concat_of
        (S.rest stage (placed_characters_from at (chars body.now))) in
        IfOk result (λ cs. cs ≡ take (length (chars kept.now)) (kept_chars_of events)) }
{
    let count = characters(kept);
    let mut room = Room::with_limit(alloc, stage.most())?;
    let mut found = Sequence::new(alloc);
    let mut place = at;
    for c in body.chars() {
        if found.len() == count {
            return Ok(found);
        }
        stage.push(Char { c, place }, &mut room);
        add_all_kept(&mut found, room.slice(), count)?;
        room.clear();
        place = place.after(c);
    }
    stage.finish(&mut room);
    add_all_kept(&mut found, room.slice(), count)?;
    Ok(found)
}

/// Returns the characters of the text that `snippet_whole` keeps of the same arguments, each with
/// its place in the source: a byte of that text belongs to the character of which it is a byte.
/// Fails only if memory cannot be allocated.
pub fn kept_chars(
    alloc: Global,
    body: &str,
    at: Place,
    split: bool,
    macros: u16,
) -> Result<Sequence<Char>, AllocError>
    requires line { at.line + length body.now < 2 ^ 64 }
    requires column { at.column + length body.now < 2 ^ 64 }
    ensures { IfOk result (λ cs. AreKeptChars at split macros (chars body.now) cs) }
{
    let read = snippet_whole(alloc, body, at, split, macros)?;
    let stage = NoteStage::new(split, macros);
    kept_chars_by(alloc, stage, body, at, &read.kept)
}
