//! A pen that writes neumes, one note after the other.

ghost use Rattle.std.specs.Prelude.{◌≡◌, ◌++◌, OnOk};
ghost use Rattle.gabc_marks.specs.Heads.{pitches_of_heads, pitches_shown};
ghost use Rattle.gabc_marks.specs.declared.head.Head.TheVariants as Head;
ghost use Rattle.gabc_pen.specs.Notes.{pitches_of_note};

use crate::heads::{HeadRow, push_head, push_note};
use crate::note::{Liquescence, Note, Shape};
use crate::outline::{plain_head, whole};
use crate::plan::{Joint, Planned};
use gabc_marks::{Distance, Head, Metrics, NoteHead, Sign, Single, Symbol, height_of};
use std::alloc::{AllocError, Global};

/// Half a space of the staff: a step.
pub(crate) const STEP: Distance = Distance(500);

/// The width of a stem.
pub(crate) const STEM: Distance = Distance(80);

/// The space between two heads that are not joined.
const BETWEEN: Distance = Distance(160);

/// The width of a punctum.
pub const PUNCTUM: Distance = Distance(526);

/// The foot (`Drawn::foot`) of a broad stroke's first note, without the part that grows with the
/// fall.
pub(crate) const STROKE_FOOT: Distance = Distance(120);

/// A drawn note: the left end `x` and the `width` of its heads; whether it is over the note before
/// (`covers`), and the next one over it (`covered`); and its `foot`, how much lower than a plain
/// head its ink goes.
#[derive(Clone, Copy, Debug)]
pub struct Drawn {
    pub note: Note,
    pub x: Distance,
    pub width: Distance,
    pub covers: bool,
    pub covered: bool,
    pub foot: Distance,
}

impl Drawn {
    /// Returns the distance of the note below the lowest line of the staff: negative above that
    /// line.
    pub fn y(self) -> Distance {
        height_of(self.note.pitch)
    }

    /// Returns the right end of its heads.
    pub fn right(self) -> Distance {
        self.x + self.width
    }
}

/// A pen: its place `x`, the notes of the neume that it writes, and the signs that it has drawn.
/// `top` and `bottom` bound all that it has drawn.
#[derive(Debug, Drop)]
pub struct Pen<'a> {
    pub x: Distance,
    pub drawn: Vec<Drawn>,
    pub signs: Vec<Sign<'a>>,
    pub top: Distance,
    pub bottom: Distance,
}

impl<'a> Pen<'a> {
    /// Returns a pen at 0 that has drawn nothing.
    pub fn new(alloc: Global) -> Pen<'a> {
        Pen {
            x: Distance::ZERO,
            drawn: Vec::new(alloc),
            signs: Vec::new(alloc),
            top: Distance::ZERO,
            bottom: Distance::ZERO,
        }
    }

    /// Widens the bounds by an `outline` with its origin at the height `y`.
    pub(crate) fn reach(&mut self, y: Distance, outline: Metrics) {
        self.top = self.top.min(y - outline.up);
        self.bottom = self.bottom.max(y + outline.down);
    }

    /// Draws a black rectangle with its upper left corner at `x` and `y`.
    pub fn rect(
        &mut self,
        x: Distance,
        y: Distance,
        width: Distance,
        height: Distance,
    ) -> Result<(), AllocError> {
        self.signs.push(Sign::Rect {
            x,
            y,
            width,
            height,
        })?;
        self.top = self.top.min(y);
        self.bottom = self.bottom.max(y + height);
        Ok(())
    }

    /// Draws `symbol` with its origin at `x` and `y`.
    pub fn symbol(&mut self, symbol: Symbol, x: Distance, y: Distance) -> Result<(), AllocError> {
        self.signs.push(Sign::Symbol { symbol, x, y })?;
        self.reach(y, symbol.metrics());
        Ok(())
    }

    /// Draws a stem of this `length`, downwards from `y`, with its left edge at `x`.
    fn stem(&mut self, x: Distance, y: Distance, length: Distance) -> Result<(), AllocError> {
        self.rect(x, y, STEM, length)
    }

    /// Draws the upright line that joins a head at the height `y` to the note drawn last, with its
    /// right edge at `x`; draws nothing if no note was drawn.
    fn join(&mut self, x: Distance, y: Distance) -> Result<(), AllocError> {
        let Some(before) = self.drawn.last() else {
            return Ok(());
        };
        let from = before.y();
        self.rect(x - STEM, y.min(from), STEM, (y - from).size())
    }

    /// Records that `note` was drawn at `x`, with heads of this `outline` and of this `width` in
    /// all, and widens the bounds.
    fn note(
        &mut self,
        note: Note,
        x: Distance,
        width: Distance,
        outline: Metrics,
    ) -> Result<(), AllocError> {
        self.reach(height_of(note.pitch), outline);
        self.drawn.push(Drawn {
            note,
            x,
            width,
            covers: false,
            covered: false,
            foot: Distance::ZERO,
        })?;
        Ok(())
    }

    /// Draws the tail of an augmented or diminished `note` whose head ends at `right`; an
    /// inclinatum has none.
    fn tail(&mut self, note: Note, right: Distance) -> Result<(), AllocError> {
        let y = height_of(note.pitch);
        match note.liquescence {
            _ if note.shape == Shape::Inclinatum => Ok(()),
            Liquescence::Augmented => self.symbol(Symbol::TailUp, right, y),
            Liquescence::Diminished => self.symbol(Symbol::TailDown, right, y),
            Liquescence::None | Liquescence::Deminutus => Ok(()),
        }
    }

    /// Draws the lines at both sides of a head that begins at `x` and has this `width`, and its
    /// stem, if `note` has them.
    fn around_head(&mut self, note: Note, x: Distance, width: Distance) -> Result<(), AllocError> {
        let y = height_of(note.pitch);
        if note.is_lined {
            self.rect(x - Distance(160), y - Distance(460), STEM, Distance(920))?;
            self.rect(
                x + width + Distance(80),
                y - Distance(460),
                STEM,
                Distance(920),
            )?;
        }
        if note.shape.is_virga() {
            self.stem(x + width - STEM, y, Distance(1300))?;
        }
        if note.shape == Shape::VirgaReversa || note.shape == Shape::OriscusScapus {
            self.stem(x, y, Distance(1300))?;
        }
        Ok(())
    }

    /// Draws the lines and the stem of each head of `note`; `row` has the places of the heads.
    fn around_heads(&mut self, note: Note, row: HeadRow) -> Result<(), AllocError> {
        let mut at = row.x;
        for _ in 0..note.times {
            self.around_head(note, at, row.single.metrics().width)?;
            at += row.stride;
        }
        Ok(())
    }

    /// Records that `note` was drawn with the heads of `row`, and moves the pen to its end.
    fn pass(&mut self, note: Note, row: HeadRow) -> Result<(), AllocError> {
        let width = row.stride.times(i32::from(note.times)) - BETWEEN;
        self.note(note, self.x, width, row.single.metrics())?;
        self.x += width;
        Ok(())
    }

    /// Places a note that the one outline `single` shows, once for each time that it sounds, and
    /// returns its heads.
    fn place_whole(&mut self, single: Single, note: Note) -> Result<HeadRow, AllocError> {
        let row = HeadRow {
            single,
            x: self.x,
            stride: single.metrics().width + BETWEEN,
        };
        self.pass(note, row)?;
        Ok(row)
    }

    /// Places a note once for each time that it sounds, draws its lines, stems and tail, and
    /// returns its heads.
    fn place_alone(&mut self, single: Single, note: Note) -> Result<HeadRow, AllocError> {
        let margin = if note.is_lined {
            Distance(160)
        } else {
            Distance::ZERO
        };
        let row = HeadRow {
            single,
            x: self.x + margin,
            stride: single.metrics().width + margin + margin + BETWEEN,
        };
        self.around_heads(note, row)?;
        self.pass(note, row)?;
        self.tail(note, self.x)?;
        Ok(row)
    }

    /// Places a punctum inclinatum, and returns its heads.
    fn place_diamond(&mut self, single: Single, note: Note) -> Result<HeadRow, AllocError> {
        let room = self.room_before_diamond(note);
        self.x += room;
        let row = HeadRow {
            single,
            x: self.x,
            stride: single.metrics().width,
        };
        self.note(note, row.x, row.stride, single.metrics())?;
        self.x += row.stride;
        Ok(row)
    }

    /// Returns the space before a punctum inclinatum: smaller after another inclinatum, smallest if
    /// the pitches are one step apart, and 0 if no note was drawn.
    fn room_before_diamond(&self, note: Note) -> Distance {
        let Some(before) = self.drawn.last() else {
            return Distance::ZERO;
        };
        let near = if before.note.shape == Shape::Inclinatum {
            Distance(20)
        } else {
            Distance(120)
        };
        match before.note.pitch.abs_diff(note.pitch) {
            1 => near - Distance(140),
            2 => near,
            _ => near + Distance(80),
        }
    }

    /// Places a note over the one before, and returns its heads.
    fn place_over(&mut self, single: Single, note: Note) -> Result<HeadRow, AllocError> {
        let y = height_of(note.pitch);
        let right = self.drawn.last().map_or(self.x, |below| below.right());
        let is_near = self.drawn.last().is_some_and(|below| below.y() - y == STEP);
        let width = single.metrics().width;
        let single = if is_near && single == Single::Punctum {
            Single::PunctumOver
        } else {
            single
        };
        self.join(right, y)?;
        self.tail(note, right)?;
        let row = HeadRow {
            single,
            x: right - width,
            stride: Distance::ZERO,
        };
        self.note(note, row.x, width, single.metrics())?;
        self.mark_covering();
        Ok(row)
    }

    /// Marks the last note as over the one before.
    fn mark_covering(&mut self) {
        let len = self.drawn.len();
        if 2 <= len {
            self.drawn[len - 2].covered = true;
            self.drawn[len - 1].covers = true;
        }
    }

    /// Places a note that is no part of a stroke, is not over another one and is no inclinatum, and
    /// returns its heads. `next` is the note after it.
    fn place_head(
        &mut self,
        planned: Planned,
        next: Option<Planned>,
        single: Single,
    ) -> Result<HeadRow, AllocError> {
        let note = planned.note;
        self.begin_head(planned, next)?;
        let is_single = planned.joint == Joint::Virga || planned.joint == Joint::Alone;
        match (planned.joint, whole(as_virga(planned))) {
            (_, Some(outline)) if is_single => self.place_whole(outline, note),
            (Joint::Virga, _) if !note.shape.is_virga() => {
                let x = self.x + single.metrics().width - STEM;
                self.stem(x, height_of(note.pitch), Distance(1300))?;
                self.place_alone(single, note)
            }
            _ => self.place_alone(single, note),
        }
    }

    /// Begins a head: draws the line that joins it to the one before, or the stem at its left, or
    /// makes room before one that is not joined. The fall to `next`, the note after it, gives the
    /// length of the stem.
    fn begin_head(&mut self, planned: Planned, next: Option<Planned>) -> Result<(), AllocError> {
        let y = height_of(planned.note.pitch);
        match planned.joint {
            Joint::Alone if !self.drawn.is_empty() => {
                self.x += BETWEEN;
                Ok(())
            }
            Joint::Right | Joint::StrokeEnd => self.join(self.x + STEM.half(), y),
            Joint::Stem => {
                let fall = next.map_or(1, |next| {
                    i32::from(planned.note.pitch.saturating_sub(next.note.pitch))
                });
                self.stem(self.x, y, Distance(900 + 300 * fall.min(5)))
            }
            _ => Ok(()),
        }
    }

    /// Writes a note that is no part of a broad stroke. `next` is the note after it.
    pub(crate) fn write_note(
        &mut self,
        planned: Planned,
        next: Option<Planned>,
        heads: &mut Vec<NoteHead>,
    ) -> Result<(), AllocError>
        ensures { OnOk result (pitches_of_heads heads.new.items
            ≡ pitches_of_heads heads.old.items ++ pitches_of_note planned.note) }
    {
        let single = under(planned, next);
        self.x += room_for_next(single, next);
        let row = match planned.joint {
            Joint::Over => self.place_over(single, planned.note)?,
            Joint::Diamond => self.place_diamond(single, planned.note)?,
            _ => self.place_head(planned, next, single)?,
        };
        push_note(row, planned.note, heads)
    }

    /// Writes a broad stroke that falls by `fall` steps, and shows the notes `first` and `second`.
    pub(crate) fn write_stroke(
        &mut self,
        first: Planned,
        second: Planned,
        fall: u8,
        heads: &mut Vec<NoteHead>,
    ) -> Result<(), AllocError>
        requires { pitches_of_note first.note ++ pitches_of_note second.note
            ≡ pitches_shown (Head.Stroke fall) first.note.pitch }
        ensures { OnOk result (pitches_of_heads heads.new.items
            ≡ pitches_of_heads heads.old.items
            ++ (pitches_of_note first.note ++ pitches_of_note second.note)) }
    {
        let y = height_of(first.note.pitch);
        let head = Head::Stroke(fall);
        let steps = i32::from(fall);
        if first.joint == Joint::StemmedStroke {
            self.stem(self.x, y, Distance(1100 + 200 * steps))?;
        } else {
            self.join(self.x + STEM, y)?;
        }
        push_head(head, self.x, first.note.pitch, heads)?;
        self.note(first.note, self.x, PUNCTUM, head.metrics())?;
        self.mark_foot(STROKE_FOOT + Distance(100 * steps));
        self.x += head.metrics().width;
        self.note(
            second.note,
            self.x - PUNCTUM,
            PUNCTUM,
            Single::Punctum.metrics(),
        )
    }

    /// Sets the foot of the last note: how much lower than a plain head its ink goes.
    fn mark_foot(&mut self, foot: Distance) {
        if let Some(last) = self.drawn.len().checked_sub(1) {
            self.drawn[last].foot = foot;
        }
    }
}

/// Returns `planned` with the shape of a virga if it begins a neume with a stem at its right, else
/// as it is.
fn as_virga(planned: Planned) -> Planned {
    let mut virga = planned;
    if planned.joint == Joint::Virga {
        virga.note.shape = Shape::Virga;
    }
    virga
}

/// Returns the head of a note: a punctum has no top if `next`, the note after it, is over it and
/// one step higher.
fn under(planned: Planned, next: Option<Planned>) -> Single {
    let single = plain_head(planned);
    let is_near = next.is_some_and(|next| {
        next.joint == Joint::Over && next.note.pitch.checked_sub(planned.note.pitch) == Some(1)
    });
    if is_near && single == Single::Punctum {
        Single::PunctumUnder
    } else {
        single
    }
}

/// Returns the distance that the head `single` moves right, so that a broader head of `next` has
/// room over it; 0 if `next` is not over it.
fn room_for_next(single: Single, next: Option<Planned>) -> Distance {
    match next {
        Some(next) if next.joint == Joint::Over => {
            (plain_head(next).metrics().width - single.metrics().width).max(Distance::ZERO)
        }
        _ => Distance::ZERO,
    }
}
