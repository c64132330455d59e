//! The rows of a picture: the places of their parts, and the signs that belong to no part.

use crate::breaks::{Span, clef_after, start_of};
use crate::marks::{MarkedRow, put_marks};
use crate::measures::Measures;
use crate::setting::{places_from, put_hyphens, right_of, spread};
use gabc_lettering::{ABOVE_SIZE, Initial};
use gabc_marks::{Distance, Extent, Levels, Row, Sign, spaces};
use gabc_pen::{Clef, Curves, Pen, PerLine, custos, height_of_step, join_rows, line_over};
use std::alloc::{AllocError, Global};

/// The size of a row: its width, and the number of lines of its staff.
#[derive(Clone, Copy, Debug)]
pub(crate) struct Staff {
    pub(crate) width: Distance,
    pub(crate) lines: i32,
}

/// Adds the lines of a staff, from `indent` on.
fn put_staff(staff: Staff, indent: Distance, signs: &mut Vec<Sign<'_>>) -> Result<(), AllocError> {
    for line in 0..staff.lines {
        signs.push(Sign::StaffLine {
            x: indent,
            y: height_of_step(line.saturating_mul(2)) - Distance(35),
            width: staff.width - indent,
        })?;
    }
    Ok(())
}

/// Returns whether the last of `parts` with notes, a clef, a bar or the like asks for no custos
/// after it.
fn wants_no_custos(parts: &[Measures<'_>]) -> bool {
    for part in parts.iter().rev() {
        if part.notes.is_some() {
            return part.wants_no_custos;
        }
    }
    false
}

/// Draws the custos at the end of a row, for `pitch`, the one that follows.
fn put_custos(staff: Staff, pitch: u8, pen: &mut Pen<'_>) -> Result<(), AllocError> {
    let symbol = custos(pitch, staff.lines);
    let x = staff.width - symbol.metrics().width - spaces::CUSTOS_TO_END;
    pen.symbol(symbol, x, height_of_step(i32::from(pitch) - 3))
}

/// Draws the curves of `parts`, which are at these `places` in a row of this `width`.
fn put_curves(
    parts: &[Measures<'_>],
    places: &[Distance],
    width: Distance,
    pen: &mut Pen<'_>,
) -> Result<(), AllocError> {
    let mut curves = Curves::new();
    for (part, x) in parts.iter().zip(places) {
        curves.put_part(part.curves.as_slice(), *x, width, &mut pen.signs)?;
    }
    pen.top = pen.top.min(curves.top);
    pen.bottom = pen.bottom.max(curves.bottom);
    Ok(())
}

/// Returns the top (`left`) and the bottom (`right`) of the signs of a row and of its parts.
fn bounds(parts: &[Measures<'_>], pen: &Pen<'_>) -> Extent {
    let top = parts.iter().fold(pen.top, |top, part| top.min(part.top));
    let bottom = parts
        .iter()
        .fold(pen.bottom, |bottom, part| bottom.max(part.bottom));
    Extent {
        left: top,
        right: bottom,
    }
}

/// The top and the bottom of a row, as distances below the lowest line of its staff.
#[derive(Clone, Copy, Debug)]
struct Size {
    top: Distance,
    bottom: Distance,
}

/// Returns the levels of the texts of a row, and its size.
fn levels_of(parts: &[Measures<'_>], staff: Staff, pen: &Pen<'_>) -> (Levels, Size) {
    let signs = bounds(parts, pen);
    let highest = height_of_step(staff.lines.saturating_mul(2).saturating_sub(2));
    let nabc = parts.iter().fold(PerLine::all(None), |nabc, part| join_rows(nabc, part.nabc));
    let (first, top) = line_over(signs.left.min(highest) - spaces::OVER_SIGNS, nabc.first);
    let (second, top) = line_over(top, nabc.second);
    let (third, top) = line_over(top, nabc.third);
    let (fourth, top) = line_over(top, nabc.fourth);
    let has_above = parts.iter().any(|part| part.above.is_some());
    let above = top - spaces::OVER_ROWS;
    let text = spaces::TO_TEXT.max(signs.right + spaces::BELOW_SIGNS);
    let translation = text + spaces::TO_TRANSLATION;
    let bottom = if parts.iter().any(|part| part.translation.is_some()) {
        translation + spaces::BELOW_TRANSLATION
    } else if parts.iter().any(|part| part.text.is_some()) {
        text + spaces::BELOW_TEXT
    } else {
        signs.right + spaces::BELOW_TEXT
    };
    let levels = Levels {
        text,
        translation,
        above,
        first,
        second,
        third,
        fourth,
    };
    let top = if has_above { above - ABOVE_SIZE } else { top };
    (levels, Size { top, bottom })
}

/// The rows made so far, the places of their parts, and `y`, the place below them.
#[derive(Debug, Drop)]
pub(crate) struct Rows<'a> {
    pub(crate) rows: Vec<Row<'a>>,
    pub(crate) places: Vec<Distance>,
    pub(crate) y: Distance,
    clef: Option<Clef>,
    initial: Option<Initial<'a>>,
}

impl<'a> Rows<'a> {
    /// Returns no rows: the first one will be below `y`, and `initial` is before the first ones.
    fn new(alloc: Global, y: Distance, initial: Option<Initial<'a>>) -> Rows<'a> {
        Rows {
            rows: Vec::new(alloc),
            places: Vec::new(alloc),
            y,
            clef: None,
            initial,
        }
    }

    /// Returns the left end of the staff of the next row.
    fn indent(&self) -> Distance {
        match &self.initial {
            Some(initial) if self.rows.len() < initial.rows => initial.room,
            _ => Distance::ZERO,
        }
    }

    /// Draws the signs of a row that belong to no part: the clef in force, the custos at its end
    /// for the `following` pitch, and the staff.
    fn draw_ends(
        &self,
        alloc: Global,
        parts: &[Measures<'a>],
        span: Span,
        following: Option<u8>,
        staff: Staff,
    ) -> Result<Pen<'a>, AllocError> {
        let mut pen = Pen::new(alloc);
        if let Some(clef) = self.clef {
            if parts.first().is_some_and(|part| !part.begins_with_clef) {
                clef.put(self.indent(), &mut pen)?;
            }
        }
        let has_custos = span.asked.map_or(true, |asked| asked.has_custos)
            && !wants_no_custos(parts);
        if let Some(pitch) = following {
            if has_custos {
                put_custos(staff, pitch, &mut pen)?;
            }
        }
        put_staff(staff, self.indent(), &mut pen.signs)?;
        Ok(pen)
    }

    /// Returns the places of the `parts` of a row that ends as `span` says, spread over its width
    /// if it is to be justified and not too empty.
    fn places_of(
        &self,
        alloc: Global,
        parts: &[Measures<'a>],
        span: Span,
        staff: Staff,
    ) -> Result<Vec<Distance>, AllocError> {
        let start = parts
            .first()
            .map_or(Distance::ZERO, |part| start_of(part, self.clef));
        let mut places = places_from(alloc, parts, self.indent() + start)?;
        let free = staff.width - spaces::CUSTOS - right_of(parts, places.as_slice());
        let is_spread = span.asked.map_or(!span.is_last, |asked| asked.is_justified);
        if is_spread && Distance::ZERO < free && free <= staff.width.share(5).times(2) {
            spread(alloc, parts, &mut places, free, staff.width)?;
        }
        Ok(places)
    }

    /// Adds to `signs` the initial, as far as it is in the next row, and the marks of its `parts`,
    /// and returns the top of the row with them; `row.top` is the one without.
    fn put_over(
        &self,
        parts: &[Measures<'a>],
        places: &[Distance],
        is_last: bool,
        row: MarkedRow,
        levels: Levels,
        signs: &mut Vec<Sign<'a>>,
    ) -> Result<Distance, AllocError> {
        let mut row = row;
        if let Some(initial) = &self.initial {
            let number = self.rows.len();
            row.top = initial.stand_in(number, is_last, levels, row.top, signs)?;
        }
        put_marks(parts, places, row, signs)
    }

    /// Adds a row with these `parts`, which ends as `span` says. `following` is the pitch of the
    /// next note after it; `is_last` says whether no row follows.
    fn add(
        &mut self,
        alloc: Global,
        parts: &[Measures<'a>],
        span: Span,
        following: Option<u8>,
        is_last: bool,
        staff: Staff,
    ) -> Result<(), AllocError> {
        let places = self.places_of(alloc, parts, span, staff)?;
        let mut pen = self.draw_ends(alloc, parts, span, following, staff)?;
        put_hyphens(parts, places.as_slice(), &mut pen.signs)?;
        put_curves(parts, places.as_slice(), staff.width, &mut pen)?;
        let (levels, size) = levels_of(parts, staff, &pen);
        let row = MarkedRow {
            width: staff.width,
            top: size.top,
            text: levels.text,
        };
        let signs = &mut pen.signs;
        let top = self.put_over(parts, places.as_slice(), is_last, row, levels, signs)?;
        self.clef = clef_after(parts, self.clef);
        self.places.extend_from_slice(places.as_slice())?;
        self.y -= top;
        self.rows.push(Row {
            x: spaces::MARGIN,
            y: self.y,
            levels,
            parts: parts.len(),
            signs: pen.signs,
        })?;
        self.y += size.bottom + spaces::BETWEEN_LINES;
        Ok(())
    }
}

/// Returns the pitch of the first note of `parts`, if there is one.
fn first_pitch(parts: &[Measures<'_>]) -> Option<u8> {
    parts.iter().find_map(|part| part.first)
}

/// Returns the rows of `parts`, one for each of `spans`, from `y` on downwards; `initial` is before
/// the first ones.
pub(crate) fn rows_of<'a>(
    alloc: Global,
    parts: &[Measures<'a>],
    spans: &[Span],
    initial: Option<Initial<'a>>,
    staff: Staff,
    y: Distance,
) -> Result<Rows<'a>, AllocError> {
    let mut rows = Rows::new(alloc, y, initial);
    let mut begin: usize = 0;
    for (at, span) in spans.iter().enumerate() {
        let end = span.end.min(parts.len());
        if begin <= end {
            let following = parts.get(end..).and_then(|parts| first_pitch(parts));
            let is_last = at.saturating_add(1) == spans.len();
            let row = &parts[begin..end];
            rows.add(alloc, row, *span, following, is_last, staff)?;
            begin = end;
        }
    }
    Ok(rows)
}
