//! The events that a stage emits of a whole text.

ghost use Rattle.std.specs.Prelude.{◌≡◌, ◌+◌, ◌^◌, ◌<◌, ◌⊎◌, length, IfOk, OnErr, OnOk};
ghost use Rattle.std.specs.Str.{chars};
ghost use Rattle.gabc_places.specs.StageLaw.{concat_of, EmitsNothing};
ghost use Rattle.gabc_places.specs.GivenUp.{HasTaken};
ghost use Rattle.gabc_places.specs.Place.{placed_characters_from};

use crate::{Char, Place, Room, Sequence, Stage};
use std::alloc::{AllocError, Global};

/// Pushes the characters of `text` to `stage`, ends them, and returns all events, in order. The
/// first character is at `at`. Fails only if memory cannot be allocated: then the stage has taken
/// some of the characters, or has come to its end.
pub fn outputs_of<S: Stage<Input = Char>>(
    alloc: Global,
    stage: &mut S,
    text: &str,
    at: Place,
) -> Result<Sequence<S::Output>, AllocError>
    requires line { at.line + length text.now < 2 ^ 64 }
    requires column { at.column + length text.now < 2 ^ 64 }
    ensures all { IfOk result (λ all. all
        ≡ concat_of (S.rest stage.old (placed_characters_from at (chars text.now)))) }
    ensures over { OnOk result (EmitsNothing (S.rest stage.new)) }
    ensures left { OnErr result (HasTaken (S.rest stage.old) (S.rest stage.new)
        (placed_characters_from at (chars text.now)) ⊎ EmitsNothing (S.rest stage.new)) }
{
    let mut room = Room::with_limit(alloc, stage.most())?;
    let mut all = Sequence::new(alloc);
    let mut place = at;
    for c in text.chars() {
        stage.push(Char { c, place }, &mut room);
        all.append(room.slice())?;
        room.clear();
        place = place.after(c);
    }
    stage.finish(&mut room);
    all.append(room.slice())?;
    Ok(all)
}
