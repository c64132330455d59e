//! The characters of a kept text.

ghost use Rattle.std.specs.Prelude.{◌≡◌, ◌+◌, ◌^◌, ◌<◌, [], ◌∷◌, ◌++◌, length, IfOk, OnOk};
ghost use Rattle.std.specs.Str.{chars};
ghost use Rattle.gabc_places.specs.StageLaw.{concat_of};
ghost use Rattle.gabc_text.specs.Events.{codes_of, events_by_point};
ghost use Rattle.gabc_text.specs.BuiltText.{kept_chars_in};
ghost use Rattle.gabc_text.specs.View.{kept};

use crate::stage::TextStage;
use crate::text_event::TextEvent;
use gabc_places::{Char, Place, Sequence, outputs_of};
use std::alloc::{AllocError, Global};

/// Adds the character that an event keeps, if it keeps one.
fn add_kept(kept: &mut Sequence<Char>, event: TextEvent) -> Result<(), AllocError>
    ensures { OnOk result (kept.new ≡ kept.old ++ kept_chars_in (event ∷ [])) }
{
    match event {
        TextEvent::Kept(x) => kept.push(x),
        _ => Ok(()),
    }
}

/// Returns the characters of the kept text that `text_whole` returns for `body`, each with its
/// place in the source; a run of blanks has the place of its first. The first character of `body`
/// is at `at`. `gabc_places::place_of_byte` finds the place of a byte among them.
pub fn kept_chars(alloc: Global, body: &str, at: Place) -> Result<Sequence<Char>, AllocError>
    requires line { at.line + length body.now < 2 ^ 64 }
    requires column { at.column + length body.now < 2 ^ 64 }
    ensures events { IfOk result (λ kept. kept
        ≡ kept_chars_in (concat_of (events_by_point at (chars body.now)))) }
    ensures kept { IfOk result (λ all. codes_of all ≡ kept (chars body.now)) }
{
    let mut stage = TextStage::new(at);
    let events = outputs_of(alloc, &mut stage, body, at)?;
    let mut kept = Sequence::new(alloc);
    for event in events.as_slice() {
        add_kept(&mut kept, *event)?;
    }
    Ok(kept)
}
