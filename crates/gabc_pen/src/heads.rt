//! The heads of notes, in the order of the score.

ghost use Rattle.std.specs.Prelude.{◌≡◌, ◌++◌, OnOk};
ghost use Rattle.gabc_marks.specs.Heads.{pitches_shown, pitches_of_heads};
ghost use Rattle.gabc_pen.specs.Notes.{pitches_of_note};

use crate::note::Note;
use gabc_marks::{Distance, Head, NoteHead, Single};
use std::alloc::AllocError;

/// The heads of a note: their outline, the left end `x` of the first, and the distance `stride`
/// from each to the next.
#[derive(Clone, Copy, Debug)]
pub(crate) struct HeadRow {
    pub single: Single,
    pub x: Distance,
    pub stride: Distance,
}

/// Appends a head at `x`, whose first note has this `pitch`, to `heads`.
#[tactic(auto, using(crate::proofs::HeadsJoin::joined))]
pub(crate) fn push_head(
    head: Head,
    x: Distance,
    pitch: u8,
    heads: &mut Vec<NoteHead>,
) -> Result<(), AllocError>
    ensures { OnOk result (pitches_of_heads heads.new.items
        ≡ pitches_of_heads heads.old.items ++ pitches_shown head pitch) }
{
    heads.push(NoteHead { head, x, pitch })?;
    Ok(())
}

/// Appends a head for each time that `note` sounds, at the places of `row`, to `heads`.
#[tactic(auto, using(crate::proofs::HeadsJoin::joined))]
pub(crate) fn push_note(
    row: HeadRow,
    note: Note,
    heads: &mut Vec<NoteHead>,
) -> Result<(), AllocError>
    ensures { OnOk result (pitches_of_heads heads.new.items
        ≡ pitches_of_heads heads.old.items ++ pitches_of_note note) }
{
    let mut at = row.x;
    for _ in 0..note.times {
        push_head(Head::Single(row.single), at, note.pitch, heads)?;
        at += row.stride;
    }
    Ok(())
}
