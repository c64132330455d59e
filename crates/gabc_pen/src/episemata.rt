//! Ictus and horizontal episemata of the neumes of a snippet: an episema is joined to that of the
//! next note (GregorioRef, "Rhythmic signs").

use crate::note::{EpisemaSize, Note, Side};
use crate::pen::{Drawn, Pen, STEP};
use gabc_marks::Distance;
use std::alloc::AllocError;

/// The thickness of an episema and of an ictus, and the length of an ictus.
pub(crate) const THIN: Distance = Distance(90);

pub(crate) const ICTUS: Distance = Distance(440);

/// The distance of an episema from the height of its note: of a note on a line, and of one in a
/// space.
const FROM_LINE: Distance = Distance(500);

const FROM_SPACE: Distance = Distance(700);

/// The widest gap between two neumes that an episema crosses.
const MOST_GAP: Distance = Distance(500);

/// A drawn note of a snippet, in a neume from `left` to `right`. `reach` is the number of notes
/// that an episema of it may cover, itself and those before it.
#[derive(Clone, Copy, Debug)]
pub struct SnippetNote {
    pub drawn: Drawn,
    pub left: Distance,
    pub right: Distance,
    pub reach: usize,
}

/// An episema over or under a note.
#[derive(Clone, Copy, Debug)]
struct Line {
    size: EpisemaSize,
    is_bridged: bool,
}

/// Returns the side of an episema of `drawn`: `side` itself, or if the score names none the side
/// under a note that another one is over, and over any other note.
fn episema_side(drawn: Drawn, side: Side) -> Side {
    match side {
        Side::Auto if drawn.covered => Side::Under,
        Side::Auto => Side::Over,
        side => side,
    }
}

/// Returns the side of the ictus of `drawn`: `side` itself, or if the score names none the side
/// over a note that is over another one, and under any other note.
fn ictus_side(drawn: Drawn, side: Side) -> Side {
    match side {
        Side::Auto if drawn.covers => Side::Over,
        Side::Auto => Side::Under,
        side => side,
    }
}

/// Returns the number of notes that the episema of `note` with this `side` covers.
fn covered_by(note: Note, side: Side) -> usize {
    usize::from(match side {
        Side::Auto => note.covers.auto,
        Side::Over => note.covers.over,
        Side::Under => note.covers.under,
    })
}

/// Returns whether an episema of `later` covers `it`, the note `back` notes before `later`, on this
/// `side`.
fn covers(it: Drawn, later: SnippetNote, back: usize, side: Side) -> bool {
    let told = covered_by(later.drawn.note, side).max(covered_by_auto(it, later, side));
    back < told.min(later.reach)
}

/// Returns the number of notes that the episema of `later` whose side the score does not name
/// covers, or 0 if it is not on this `side` at `it`.
fn covered_by_auto(it: Drawn, later: SnippetNote, side: Side) -> usize {
    if episema_side(it, Side::Auto) == side {
        covered_by(later.drawn.note, Side::Auto)
    } else {
        0
    }
}

/// Returns the episema that covers the note `at` on this `side`: that of the last note, at most
/// seven notes later, of which one does.
fn line_at(notes: &[SnippetNote], at: usize, side: Side) -> Option<Line> {
    let it = notes.get(at)?.drawn;
    let mut found = None;
    for back in 0..8 {
        if let Some(later) = notes.get(at.saturating_add(back)) {
            if covers(it, *later, back, side) {
                found = Some(Line {
                    size: later.drawn.note.size,
                    is_bridged: later.drawn.note.is_bridged,
                });
            }
        }
    }
    found
}

/// Draws the ictus of `drawn` on this `side`: a step further out if `beside_episema`.
fn put_ictus(
    drawn: Drawn,
    side: Side,
    beside_episema: bool,
    pen: &mut Pen<'_>,
) -> Result<(), AllocError> {
    let further = if beside_episema { STEP } else { Distance::ZERO };
    let x = drawn.x + drawn.width.half() - THIN.half();
    let y = if side == Side::Over {
        drawn.y() - Distance(420) - ICTUS - further
    } else {
        drawn.y() + Distance(420) + drawn.foot + further
    };
    pen.rect(x, y, THIN, ICTUS)
}

/// Returns whether `line`, the episema of the note `one`, continues as `other`, that of the note
/// `next`.
fn is_joined(one: SnippetNote, line: Line, next: SnippetNote, other: Line) -> bool {
    let are_whole = line.size == EpisemaSize::Whole && other.size == EpisemaSize::Whole;
    let is_near = one.left == next.left || next.left - one.right <= MOST_GAP;
    line.is_bridged && are_whole && is_near
}

/// An episema over or under notes in a row: the last of them, their left and right ends, and the
/// heights of the highest and the lowest.
#[derive(Clone, Copy, Debug)]
struct Run {
    line: Line,
    last: SnippetNote,
    left: Distance,
    right: Distance,
    highest: Distance,
    lowest: Distance,
}

impl Run {
    /// Returns an episema at one note.
    fn new(note: SnippetNote, line: Line) -> Run {
        Run {
            line,
            last: note,
            left: note.drawn.x,
            right: note.drawn.right(),
            highest: note.drawn.y(),
            lowest: note.drawn.y(),
        }
    }

    /// Returns the episema extended by `line`, that of the next `note`.
    fn with(self, note: SnippetNote, line: Line) -> Run {
        Run {
            line,
            last: note,
            left: self.left.min(note.drawn.x),
            right: self.right.max(note.drawn.right()),
            highest: self.highest.min(note.drawn.y()),
            lowest: self.lowest.max(note.drawn.y()),
        }
    }

    /// Returns its left end and its width: a small one is six tenths as wide as its note.
    fn extent(self) -> (Distance, Distance) {
        let width = self.right - self.left;
        let small = width.share(5).times(3);
        match self.line.size {
            EpisemaSize::Whole => (self.left, width),
            EpisemaSize::Left => (self.left, small),
            EpisemaSize::Centre => (self.left + (width - small).half(), small),
            EpisemaSize::Right => (self.right - small, small),
        }
    }

    /// Draws it on this `side`, off the lines of the staff.
    fn put(self, side: Side, pen: &mut Pen<'_>) -> Result<(), AllocError> {
        let far = if side == Side::Over {
            self.highest
        } else {
            self.lowest
        };
        let is_on_line = far.0 / 500 % 2 == 0;
        let distance = if is_on_line { FROM_LINE } else { FROM_SPACE };
        let y = if side == Side::Over {
            far - distance - THIN
        } else {
            far + distance
        };
        let (x, width) = self.extent();
        pen.rect(x, y, width, THIN)
    }
}

/// Returns the run after `note`, over which `line` is on this `side`: `run` extended, or a new one.
/// Draws `run` if it ends before `note`.
fn run_with(
    run: Option<Run>,
    note: SnippetNote,
    line: Option<Line>,
    side: Side,
    pen: &mut Pen<'_>,
) -> Result<Option<Run>, AllocError> {
    match (run, line) {
        (Some(run), Some(line)) if is_joined(run.last, run.line, note, line) => {
            Ok(Some(run.with(note, line)))
        }
        (Some(run), line) => {
            run.put(side, pen)?;
            Ok(line.map(|line| Run::new(note, line)))
        }
        (None, line) => Ok(line.map(|line| Run::new(note, line))),
    }
}

/// Draws the episemata of `notes` on this side.
fn put_lines(notes: &[SnippetNote], side: Side, pen: &mut Pen<'_>) -> Result<(), AllocError> {
    let mut run = None;
    for (at, note) in notes.iter().enumerate() {
        run = run_with(run, *note, line_at(notes, at, side), side, pen)?;
    }
    if let Some(run) = run {
        run.put(side, pen)?;
    }
    Ok(())
}

/// Draws ictus and episemata of `notes`, the notes of a snippet in order.
pub fn put_signs(notes: &[SnippetNote], pen: &mut Pen<'_>) -> Result<(), AllocError> {
    for (at, note) in notes.iter().enumerate() {
        if let Some(told) = note.drawn.note.ictus {
            let side = ictus_side(note.drawn, told);
            put_ictus(note.drawn, side, line_at(notes, at, side).is_some(), pen)?;
        }
    }
    put_lines(notes, Side::Over, pen)?;
    put_lines(notes, Side::Under, pen)
}
