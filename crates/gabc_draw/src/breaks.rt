//! Breaks parts into rows: between two line ends that the score asks for it takes the cheapest way
//! through all possible breaks, as TeX does for paragraphs.

use crate::cursor::Cursor;
use crate::measures::{LineEnd, Measures};
use gabc_marks::{Distance, spaces};
use gabc_pen::Clef;
use std::alloc::{AllocError, Global};

/// The costs of a row, in thousandths: a factor for the square of its empty part; and what is added
/// if it parts a word, if a bar ends it, if it has few syllables, and if one unit is wider than it.
const BY_FREE: i64 = 60;

const PARTED: i64 = 500;

const AT_BAR: i64 = -1500;

const ALONE: i64 = 6000;

const TOO_WIDE: i64 = 1_000_000;

const FEW: usize = 3;

/// A row with a larger empty part than this, in thousandths of its width, ends only if nothing more
/// fits.
const EMPTY: i64 = 450;

/// The most units in one row.
const MOST_UNITS: usize = 1000;

/// The costs of the last row before an end that the score asks for, which may stay short: the
/// factor for the square of its empty part, and the empty part, in thousandths, that is free of
/// cost if the row is not to be justified.
const LAST_BY_FREE: i64 = 10;

const LAST_MAY_LACK: i64 = 500;

/// Parts between which no row should end: a syllable and the bars after it, and the parts of one
/// `<eu>` or `<nlba>`. They end before the part `end`. A row that begins with them begins at
/// `left`, and its clef takes `start`; together with all parts before them they reach to `right`.
#[derive(Clone, Copy, Debug)]
struct Unit {
    end: usize,
    start: Distance,
    left: Distance,
    right: Distance,
    /// The number of parts with a text before the unit's end.
    texts: usize,
    parts_word: bool,
    is_bar: bool,
    asked: Option<LineEnd>,
}

/// The cheapest way to a break: its cost, the unit with which its last row begins, and its number
/// of rows.
#[derive(Clone, Copy, Debug)]
struct Way {
    cost: i64,
    begin: usize,
    rows: usize,
}

impl Way {
    /// Returns the way on by a row that begins with the unit `begin`, and costs `more`.
    fn on(self, begin: usize, more: i64) -> Way {
        Way {
            cost: self.cost.saturating_add(more),
            begin,
            rows: self.rows.saturating_add(1),
        }
    }
}

/// The rows for which breaks are looked for: their width, the number of rows made already, and the
/// number of first rows that are shorter by `indent`, since an initial is before them.
#[derive(Clone, Copy, Debug)]
pub(crate) struct Room {
    pub(crate) width: Distance,
    pub(crate) made: usize,
    pub(crate) indented: usize,
    pub(crate) indent: Distance,
}

impl Room {
    /// Returns the left end of the staff of the row after this number of further `rows`.
    fn indent_after(self, rows: usize) -> Distance {
        if self.made.saturating_add(rows) < self.indented {
            self.indent
        } else {
            Distance::ZERO
        }
    }
}

/// A row: it ends before the part `end`, with the line end that the score asks for there, if it
/// does.
#[derive(Clone, Copy, Debug)]
pub(crate) struct Span {
    pub(crate) end: usize,
    pub(crate) asked: Option<LineEnd>,
    pub(crate) is_last: bool,
}

/// Returns whether no row should end between `before` and `part`, the next one.
fn stay_together(before: &Measures<'_>, part: &Measures<'_>) -> bool {
    let is_bar = part.is_bar() && part.text.is_none();
    let in_span = part.place.is_nlba && before.place.is_nlba
        || part.place.is_eu && before.place.is_eu;
    before.end.is_none() && part.is_first && (is_bar || in_span)
}

/// Returns the left end of the notes and the text of a `part` at `x`, if it has any.
fn left_of(part: &Measures<'_>, x: Distance) -> Option<Distance> {
    let notes = part.notes.map(|it| x + it.left);
    let text = part.text.map(|it| x + it.left);
    match (notes, text) {
        (Some(notes), Some(text)) => Some(notes.min(text)),
        (notes, text) => notes.or(text),
    }
}

/// Returns the left end of the notes of a row whose first part is `part`, with this `clef` in
/// force: the row repeats the clef before a part that does not begin with one.
pub(crate) fn start_of(part: &Measures<'_>, clef: Option<Clef>) -> Distance {
    match clef {
        Some(clef) if !part.begins_with_clef => clef.width() + spaces::AFTER_LINE_CLEF,
        _ => Distance::ZERO,
    }
}

/// Returns the unit that begins with `part`, the one before `end`, at `x`.
fn unit_with(part: &Measures<'_>, end: usize, x: Distance, clef: Option<Clef>) -> Unit {
    Unit {
        end,
        start: start_of(part, clef),
        left: left_of(part, x).unwrap_or(x),
        right: Distance::ZERO,
        texts: 0,
        parts_word: false,
        is_bar: false,
        asked: None,
    }
}

/// Returns `parts` in units, up to the first end that the score asks for; the first part is the one
/// with the number `begin`, from 0.
fn units_of(
    alloc: Global,
    parts: &[Measures<'_>],
    begin: usize,
    clef: Option<Clef>,
) -> Result<Vec<Unit>, AllocError> {
    let mut units: Vec<Unit> = Vec::new(alloc);
    let mut cursor = Cursor::new(Distance::ZERO);
    let mut clef = clef;
    let mut texts: usize = 0;
    let mut before: Option<&Measures<'_>> = None;
    let mut end = begin;
    for part in parts {
        let x = cursor.put(part);
        end = end.saturating_add(1);
        if part.text.is_some() {
            texts = texts.saturating_add(1);
        }
        let stays = before.is_some_and(|it| stay_together(it, part));
        let mut unit = match units.pop() {
            Some(unit) if stays => unit,
            Some(unit) => {
                units.push(unit)?;
                unit_with(part, end, x, clef)
            }
            None => unit_with(part, end, x, clef),
        };
        unit.end = end;
        unit.left = left_of(part, x).map_or(unit.left, |left| left.min(unit.left));
        unit.right = cursor.right();
        unit.texts = texts;
        unit.parts_word = part.place.goes_on;
        unit.is_bar = part.is_bar();
        unit.asked = part.end;
        units.push(unit)?;
        clef = part.clef.or(clef);
        before = Some(part);
        if part.end.is_some() {
            break;
        }
    }
    Ok(units)
}

/// Returns the cost of a row that ends with `unit` and has `free` thousandths of its width empty,
/// after `passed` parts with a text. `is_last` says whether it is the last row before an end that
/// the score asks for, or of the score.
fn price(free: i64, unit: Unit, passed: usize, is_last: bool) -> i64 {
    let syllables = unit.texts.saturating_sub(passed);
    let is_justified = unit.asked.is_some_and(|asked| asked.is_justified);
    if is_last {
        let lacking = if is_justified {
            free
        } else {
            free.saturating_sub(LAST_MAY_LACK).max(0)
        };
        let alone = if syllables < FEW { ALONE } else { 0 };
        return square(lacking, LAST_BY_FREE).saturating_add(alone);
    }
    let parted = if unit.parts_word { PARTED } else { 0 };
    let bar = if unit.is_bar { AT_BAR } else { 0 };
    let alone = if syllables.saturating_add(1) < FEW {
        ALONE
    } else {
        0
    };
    square(free, BY_FREE)
        .saturating_add(parted)
        .saturating_add(bar)
        .saturating_add(alone)
}

/// Returns the square of `thousandths`, taken `factor` times, in thousandths.
fn square(thousandths: i64, factor: i64) -> i64 {
    thousandths
        .saturating_mul(thousandths)
        .saturating_mul(factor)
        / 1000
}

/// Returns the empty part of a row of this `width`, in thousandths, if `free` of it is empty.
fn part_free(free: Distance, width: Distance) -> i64 {
    i64::from(free.0).saturating_mul(1000) / i64::from(width.0.max(1))
}

/// Returns the left end of the first four of `units`: a text may begin left of the notes before it.
fn left_of_first(units: &[Unit]) -> Distance {
    let own = units.first().map_or(Distance::ZERO, |unit| unit.left);
    units
        .iter()
        .take(4)
        .fold(own, |left, unit| left.min(unit.left))
}

/// Records `way` to the break after the unit `to`, if it costs less than the known one.
fn note_way(ways: &mut [Option<Way>], to: usize, way: Way) {
    let after = to.saturating_add(1);
    if after < ways.len() {
        let is_better = match ways[after] {
            Some(known) => way.cost < known.cost,
            None => true,
        };
        if is_better {
            ways[after] = Some(way);
        }
    }
}

/// Records the ways on from the break before the unit `at`, to which `way` is the cheapest one.
fn note_ways_from(units: &[Unit], at: usize, way: Way, room: Room, ways: &mut [Option<Way>]) {
    let later = units.get(at..).unwrap_or(&[]);
    let start = later.first().map_or(Distance::ZERO, |unit| unit.start);
    let passed = at
        .checked_sub(1)
        .and_then(|it| units.get(it))
        .map_or(0, |unit| unit.texts);
    let end = left_of_first(later) - start - room.indent_after(way.rows) + room.width;
    let last = units.len().saturating_sub(1);
    let mut waiting = None;
    for (number, unit) in later.iter().take(MOST_UNITS).enumerate() {
        let to = at.saturating_add(number);
        let free = part_free(end - unit.right, room.width);
        if free < 0 {
            if number == 0 {
                note_way(ways, to, way.on(at, TOO_WIDE));
            }
            break;
        }
        if EMPTY < free {
            waiting = Some((to, free, *unit));
        } else {
            waiting = None;
            note_way(ways, to, way.on(at, price(free, *unit, passed, to == last)));
        }
    }
    if let Some((to, free, unit)) = waiting {
        note_way(ways, to, way.on(at, price(free, unit, passed, to == last)));
    }
}

/// Returns the cheapest way to each break between `units`.
fn ways_of(alloc: Global, units: &[Unit], room: Room) -> Result<Vec<Option<Way>>, AllocError> {
    let mut ways = vec![in alloc; None; units.len().saturating_add(1)]?;
    let none = Way {
        cost: 0,
        begin: 0,
        rows: 0,
    };
    for at in 0..units.len() {
        let known = ways.get(at).copied().flatten();
        let first = if at == 0 { Some(none) } else { None };
        if let Some(way) = known.or(first) {
            note_ways_from(units, at, way, room, ways.as_mut_slice());
        }
    }
    Ok(ways)
}

/// Returns the number of units before the end of each row on the cheapest way, from the last row
/// back.
fn breaks_back(alloc: Global, ways: &[Option<Way>]) -> Result<Vec<usize>, AllocError> {
    let mut breaks = Vec::new(alloc);
    let mut at = ways.len().saturating_sub(1);
    for _ in 0..ways.len() {
        if at == 0 {
            break;
        }
        breaks.push(at)?;
        at = match ways.get(at) {
            Some(Some(way)) => way.begin.min(at.saturating_sub(1)),
            _ => at.saturating_sub(1),
        };
    }
    Ok(breaks)
}

/// Adds the rows of `units` to `spans`.
fn add_spans(
    alloc: Global,
    units: &[Unit],
    room: Room,
    is_last: bool,
    spans: &mut Vec<Span>,
) -> Result<(), AllocError> {
    let ways = ways_of(alloc, units, room)?;
    let breaks = breaks_back(alloc, ways.as_slice())?;
    for at in breaks.iter().rev() {
        let unit = at.checked_sub(1).and_then(|it| units.get(it));
        if let Some(unit) = unit {
            spans.push(Span {
                end: unit.end,
                asked: unit.asked,
                is_last: is_last && *at == units.len(),
            })?;
        }
    }
    Ok(())
}

/// Returns the clef in force after `parts`, if `clef` is in force before them.
pub(crate) fn clef_after(parts: &[Measures<'_>], clef: Option<Clef>) -> Option<Clef> {
    parts.iter().fold(clef, |clef, part| part.clef.or(clef))
}

/// Returns the rows into which `parts` are broken in this `room`.
pub(crate) fn spans_of(
    alloc: Global,
    parts: &[Measures<'_>],
    room: Room,
) -> Result<Vec<Span>, AllocError> {
    let mut spans: Vec<Span> = Vec::new(alloc);
    let mut begin: usize = 0;
    let mut clef = None;
    for _ in 0..parts.len() {
        let later = parts.get(begin..).unwrap_or(&[]);
        let units = units_of(alloc, later, begin, clef)?;
        let Some(end) = units.as_slice().last().map(|unit| unit.end) else {
            break;
        };
        let here = Room {
            made: spans.len(),
            ..room
        };
        let is_last = end == parts.len();
        add_spans(alloc, units.as_slice(), here, is_last, &mut spans)?;
        clef = clef_after(parts.get(begin..end).unwrap_or(&[]), clef);
        begin = end;
    }
    Ok(spans)
}
