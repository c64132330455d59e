//! Draws the signs around the heads of a neume: ledger lines, signs over the staff, puncta mora
//! (GregorioRef, "Rhythmic signs").

use crate::pen::{Drawn, Pen, STEP};
use gabc_marks::{Distance, Symbol};
use std::alloc::{AllocError, Global};

/// The length of a ledger line beyond each end of its head.
const LEDGER_OVER: Distance = Distance(200);

/// The distance from a head to its mora, and from that to a further one at the same height.
const TO_MORA: Distance = Distance(340);

const BETWEEN_MORAE: Distance = Distance(400);

/// A mora: the index of the note beside which it is drawn, and its step over the lowest line.
#[derive(Clone, Copy, Debug)]
struct Dot {
    at: usize,
    step: i32,
}

/// Returns the distance below the lowest line of the staff of a `step` counted upwards from it.
pub fn height_of_step(step: i32) -> Distance {
    -STEP.times(step)
}

/// Draws the ledger line of this `step` at a head.
fn put_ledger(head: Drawn, step: i32, pen: &mut Pen<'_>) -> Result<(), AllocError> {
    let width = head.width + LEDGER_OVER + LEDGER_OVER;
    let y = height_of_step(step) - Distance(35);
    pen.rect(head.x - LEDGER_OVER, y, width, Distance(70))
}

/// Draws the ledger lines of a head outside a staff of `lines` lines.
fn put_ledgers(head: Drawn, lines: i32, pen: &mut Pen<'_>) -> Result<(), AllocError> {
    let step = head.note.step();
    for number in 0..8 {
        let over = lines.saturating_add(number).saturating_mul(2);
        let under = number.saturating_add(1).saturating_mul(-2);
        if over <= step {
            put_ledger(head, over, pen)?;
        }
        if step <= under {
            put_ledger(head, under, pen)?;
        }
    }
    Ok(())
}

/// Returns the sign over the staff with this number, from 0 for `r1`.
fn sign_over_staff(number: u16) -> Symbol {
    match number {
        0 => Symbol::Accent,
        1 => Symbol::Grave,
        2 => Symbol::Circle,
        3 => Symbol::LowerArc,
        4 => Symbol::UpperArc,
        5 => Symbol::Flat,
        6 => Symbol::Natural,
        _ => Symbol::Sharp,
    }
}

/// Draws the signs over a staff of `lines` lines that a note has.
fn put_over_staff(head: Drawn, lines: i32, pen: &mut Pen<'_>) -> Result<(), AllocError> {
    let highest = height_of_step(lines.saturating_mul(2).saturating_sub(2));
    let y = highest.min(head.y()) - Distance(900);
    let x = head.x + head.width.half() - Distance(200);
    let mut signs = head.note.over_staff;
    for number in 0..8 {
        if signs % 2 == 1 {
            pen.symbol(sign_over_staff(number), x, y)?;
        }
        signs /= 2;
    }
    Ok(())
}

/// Returns the number of morae for the note `at`: of two at one note, one belongs to the note
/// before it (GregorioRef, "Punctum Mora").
fn morae_at(heads: &[Drawn], at: usize) -> u16 {
    let own = heads.get(at).map_or(0, |head| head.note.morae);
    let kept = if 1 < own && 0 < at { 1 } else { own };
    let next = heads
        .get(at.saturating_add(1))
        .map_or(0, |head| head.note.morae);
    if 1 < next { kept.max(1) } else { kept }
}

/// Appends the morae for the note `at` to `dots`, at the step of its head. They are drawn beside
/// the next note if that has two.
fn add_dots(heads: &[Drawn], at: usize, dots: &mut Vec<Dot>) -> Result<(), AllocError> {
    let Some(head) = heads.get(at) else {
        return Ok(());
    };
    let after = at.saturating_add(1);
    let is_next = heads.get(after).is_some_and(|next| 1 < next.note.morae);
    let dot = Dot {
        at: if is_next { after } else { at },
        step: head.note.step(),
    };
    for _ in 0..morae_at(heads, at) {
        dots.push(dot)?;
    }
    Ok(())
}

/// Returns the morae of a neume with these heads, each at the step of its note.
fn wanted_dots(alloc: Global, heads: &[Drawn]) -> Result<Vec<Dot>, AllocError> {
    let mut dots = Vec::new(alloc);
    for at in 0..heads.len() {
        add_dots(heads, at, &mut dots)?;
    }
    Ok(dots)
}

/// Returns a mora that is on a line, moved into the space over it, or below it if a note or a mora
/// is there.
fn beside_line(dot: Dot, heads: &[Drawn], placed: &[Dot]) -> Dot {
    let over = dot.step.saturating_add(1);
    let covered = heads.get(dot.at).is_some_and(|head| head.covered);
    let is_taken = covered || placed.iter().any(|other| other.step == over);
    Dot {
        step: if is_taken {
            dot.step.saturating_sub(1)
        } else {
            over
        },
        ..dot
    }
}

/// Appends to `placed` the morae of `dots` on lines, each moved off its line, if `on_lines`, else
/// those in spaces.
fn place_dots(
    dots: &[Dot],
    heads: &[Drawn],
    on_lines: bool,
    placed: &mut Vec<Dot>,
) -> Result<(), AllocError> {
    for dot in dots {
        if (dot.step % 2 == 0) == on_lines {
            let place = if on_lines {
                beside_line(*dot, heads, placed.as_slice())
            } else {
                *dot
            };
            placed.push(place)?;
        }
    }
    Ok(())
}

/// Returns the right end of the heads that begin no further right than `head` ends.
fn right_of(head: Drawn, heads: &[Drawn]) -> Distance {
    let end = head.right();
    heads
        .iter()
        .filter(|other| other.x <= end)
        .fold(end, |right, other| right.max(other.right()))
}

/// Returns the number of morae of `before` at the same note and the same step as `dot`.
fn count_before(dot: Dot, before: &[Dot]) -> i32 {
    let count = before
        .iter()
        .filter(|it| it.at == dot.at && it.step == dot.step)
        .count();
    i32::try_from(count).unwrap_or(0)
}

/// Draws the morae of `placed`, and returns their right end, or `right` if that is further right.
fn draw_dots(
    placed: &[Dot],
    heads: &[Drawn],
    right: Distance,
    pen: &mut Pen<'_>,
) -> Result<Distance, AllocError> {
    let mut reach = right;
    for (number, dot) in placed.iter().enumerate() {
        if let Some(head) = heads.get(dot.at) {
            let further = BETWEEN_MORAE.times(count_before(*dot, &placed[..number]));
            let x = right_of(*head, heads) + TO_MORA + further;
            pen.symbol(Symbol::Mora, x, height_of_step(dot.step))?;
            reach = reach.max(x + Distance(150));
        }
    }
    Ok(reach)
}

/// Draws the morae of the neume with these `heads`, and returns its right end with them; `right` is
/// the one without. No mora is on a line, and of several at one note and step each is right of the
/// one before.
fn put_morae(
    alloc: Global,
    heads: &[Drawn],
    right: Distance,
    pen: &mut Pen<'_>,
) -> Result<Distance, AllocError> {
    let wanted = wanted_dots(alloc, heads)?;
    let mut placed = Vec::new(alloc);
    place_dots(wanted.as_slice(), heads, false, &mut placed)?;
    place_dots(wanted.as_slice(), heads, true, &mut placed)?;
    draw_dots(placed.as_slice(), heads, right, pen)
}

/// Draws the signs around the `heads` of a neume on a staff of `lines` lines, and returns the right
/// end of the neume with them; `right` is the one without.
pub fn put_around(
    alloc: Global,
    heads: &[Drawn],
    lines: i32,
    right: Distance,
    pen: &mut Pen<'_>,
) -> Result<Distance, AllocError> {
    for head in heads {
        put_ledgers(*head, lines, pen)?;
        put_over_staff(*head, lines, pen)?;
    }
    put_morae(alloc, heads, right, pen)
}
