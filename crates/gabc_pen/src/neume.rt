//! Writes neumes: the first notes by one outline if there is one, the others one by one.

ghost use Rattle.std.specs.Prelude.{◌≡◌, ◌≤◌, ◌-◌, ◌++◌, ◌∷◌, [], length, OnOk, IfOk, IfSome};
ghost use Rattle.gabc_marks.specs.Heads.{pitches_of_heads};
ghost use Rattle.gabc_pen.specs.Notes.{pitches_of_note, pitches_of_planned};

use crate::heads::push_head;
use crate::outline::joined_outline;
use crate::pen::{Drawn, PUNCTUM, Pen, STROKE_FOOT};
use crate::plan::{GlyphKind, Joint, Planned, fall_between};
use gabc_marks::{Distance, Head, NoteHead, height_of};
use std::alloc::AllocError;

/// Returns the number of steps by which the broad stroke that `first` begins falls, if it shows
/// just `first` and `second`; nothing if there is none.
fn stroke_of(first: Planned, second: Planned) -> Option<u8>
    ensures { IfSome result (λ fall. pitches_of_note first.note ++ pitches_of_note second.note
        ≡ first.note.pitch ∷ (first.note.pitch - fall) ∷ []) }
{
    let begins = first.joint == Joint::StemmedStroke || first.joint == Joint::Stroke;
    if !begins || first.note.times != 1 || second.note.times != 1 {
        return None;
    }
    let fall = fall_between(first.note, second.note)?;
    if second.note.pitch == first.note.pitch.saturating_sub(fall) {
        Some(fall)
    } else {
        None
    }
}

/// Writes `first`, with the first note of `more` if both are a broad stroke, and returns the notes
/// of `more` that are left.
#[tactic(auto, using(crate::proofs::HeadsJoin::joined))]
fn write_next<'p>(
    first: Planned,
    more: &'p [Planned],
    pen: &mut Pen<'_>,
    heads: &mut Vec<NoteHead>,
) -> Result<&'p [Planned], AllocError>
    ensures written { IfOk result (λ rest.
        pitches_of_heads heads.new.items ++ pitches_of_planned rest.now
        ≡ pitches_of_heads heads.old.items ++ pitches_of_planned (first ∷ more.now)) }
    ensures shorter { IfOk result (λ rest. length rest.now ≤ length more.now) }
{
    if let [second, after @ ..] = more {
        if let Some(fall) = stroke_of(first, *second) {
            pen.write_stroke(first, *second, fall, heads)?;
            return Ok(after);
        }
    }
    pen.write_note(first, more.first().copied(), heads)?;
    Ok(more)
}

/// Returns the number of notes before the first one that is an inclinatum, has the stem of a virga,
/// or is not joined.
fn front_of(planned: &[Planned]) -> usize
    ensures { result ≤ length planned.now }
{
    for (at, it) in planned.iter().enumerate() {
        if matches!(it.joint, Joint::Diamond | Joint::Virga | Joint::Alone) {
            return at;
        }
    }
    planned.len()
}

/// Returns the number of columns of the heads of `planned`: a note over another one shares its
/// column.
fn columns_in(planned: &[Planned]) -> i32 {
    let count = planned.iter().filter(|it| it.joint != Joint::Over).count();
    i32::try_from(count).unwrap_or(i32::MAX)
}

/// Returns the number of columns before the first broad stroke of `planned`, if it has one.
fn stroke_column(planned: &[Planned]) -> Option<i32> {
    for (at, it) in planned.iter().enumerate() {
        if it.joint == Joint::Stroke || it.joint == Joint::StemmedStroke {
            return Some(columns_in(&planned[..at]));
        }
    }
    None
}

/// Returns the distance of the head of `planned[at]` from the left end of an outline of this
/// `width` that shows all of `planned`: side by side from both ends up to a broad stroke, and
/// evenly spread if there is none.
fn column_of(planned: &[Planned], at: usize, width: Distance) -> Distance {
    let through = at.saturating_add(1).min(planned.len());
    let number = columns_in(&planned[..through]).saturating_sub(1);
    let last = columns_in(planned).saturating_sub(1);
    match stroke_column(planned) {
        Some(stroke) if number <= stroke => PUNCTUM.times(number),
        Some(_) => width - PUNCTUM.times(last.saturating_sub(number).saturating_add(1)),
        None => (width - PUNCTUM).times(number).share(last),
    }
}

/// Returns the foot of `planned[at]`, how much lower than a plain head its ink goes: 0 unless it
/// begins a broad stroke.
fn foot_of(planned: &[Planned], at: usize) -> Distance {
    match (planned.get(at), planned.get(at.saturating_add(1))) {
        (Some(it), Some(next)) if matches!(it.joint, Joint::Stroke | Joint::StemmedStroke) => {
            let fall = it.note.pitch.saturating_sub(next.note.pitch);
            STROKE_FOOT + Distance(100 * i32::from(fall))
        }
        _ => Distance::ZERO,
    }
}

/// Returns whether `planned[at]` is over the note before.
fn is_over(planned: &[Planned], at: usize) -> bool {
    planned.get(at).is_some_and(|it| it.joint == Joint::Over)
}

/// Records the notes of `planned` as drawn by one outline of this `width` at the place of `pen`.
fn note_columns(planned: &[Planned], width: Distance, pen: &mut Pen<'_>) -> Result<(), AllocError> {
    for (at, it) in planned.iter().enumerate() {
        pen.drawn.push(Drawn {
            note: it.note,
            x: pen.x + column_of(planned, at, width),
            width: PUNCTUM,
            covers: is_over(planned, at),
            covered: is_over(planned, at.saturating_add(1)),
            foot: foot_of(planned, at),
        })?;
    }
    Ok(())
}

/// Writes the first notes of a neume of this `kind` by one outline, if there is one, and returns
/// the notes of `planned` that are left.
#[tactic(auto, using(crate::proofs::HeadsJoin::joined))]
fn write_front<'p>(
    kind: GlyphKind,
    planned: &'p [Planned],
    pen: &mut Pen<'_>,
    heads: &mut Vec<NoteHead>,
) -> Result<&'p [Planned], AllocError>
    ensures { IfOk result (λ rest. pitches_of_heads heads.new.items ++ pitches_of_planned rest.now
        ≡ pitches_of_heads heads.old.items ++ pitches_of_planned planned.now) }
{
    let (front, rest) = planned.split_at(front_of(planned));
    let [first, _, ..] = front else {
        return Ok(planned);
    };
    let pitch = first.note.pitch;
    let Some(joined) = joined_outline(kind, pitch, front) else {
        return Ok(planned);
    };
    let head = Head::Joined(joined);
    let outline = head.metrics();
    push_head(head, pen.x, pitch, heads)?;
    note_columns(front, outline.width, pen)?;
    pen.reach(height_of(pitch), outline);
    pen.x += outline.width;
    Ok(rest)
}

/// Writes a neume of this `kind`: its first notes by one outline, if there is one, and each other
/// note by itself or as a part of a broad stroke.
pub fn write_neume(
    kind: GlyphKind,
    planned: &[Planned],
    pen: &mut Pen<'_>,
    heads: &mut Vec<NoteHead>,
) -> Result<(), AllocError>
    ensures { OnOk result (pitches_of_heads heads.new.items
        ≡ pitches_of_heads heads.old.items ++ pitches_of_planned planned.now) }
{
    let mut rest = write_front(kind, planned, pen, heads)?;
    while let [first, more @ ..] = rest {
        rest = write_next(*first, more, pen, heads)?;
    }
    Ok(())
}
