//! Writes the headers over a score: its name, its commentary, and its annotations if no initial has
//! them.

use crate::runs::{Run, Side, add_runs, lines_of};
use gabc_marks::{Distance, Level, Sign, Styles, spaces, text_between};
use gabc_nodes::{Kind, Node};
use std::alloc::{AllocError, Global};

const NAME_SIZE: Distance = Distance(2000);

const HEAD_SIZE: Distance = Distance(1200);

/// The space between two lines, beyond the size of their type.
const BETWEEN_LINES: Distance = Distance(200);

/// Returns the values of the headers `name` of the tree `nodes` of `input`, in their order, without
/// blanks at their ends.
pub(crate) fn headers<'a>(
    alloc: Global,
    nodes: &[Node],
    input: &'a str,
    name: &str,
) -> Result<Vec<&'a str>, AllocError> {
    let mut is_named = false;
    let mut values = Vec::new(alloc);
    for node in nodes {
        match node.kind {
            Kind::HeaderName => is_named = text_between(input, node.begin, node.end) == name,
            Kind::HeaderValue if is_named => {
                values.push(text_between(input, node.begin, node.end).trim())?;
            }
            Kind::ScoreLine => break,
            _ => {}
        }
    }
    Ok(values)
}

/// Returns the bytes of the value of the last header `name` of the tree `nodes` of `input`: the
/// first one and the one after the last; 0 and 0 if there is none.
fn header_bytes(nodes: &[Node], input: &str, name: &str) -> (u32, u32) {
    let mut is_named = false;
    let mut found = (0, 0);
    for node in nodes {
        match node.kind {
            Kind::HeaderName => is_named = text_between(input, node.begin, node.end) == name,
            Kind::HeaderValue if is_named => found = (node.begin, node.end),
            Kind::ScoreLine => return found,
            _ => {}
        }
    }
    found
}

/// Returns the value of the last header `name` of the tree `nodes` of `input`, without blanks at
/// its ends; empty if there is none.
pub fn header<'a>(nodes: &[Node], input: &'a str, name: &str) -> &'a str {
    let (begin, end) = header_bytes(nodes, input, name);
    text_between(input, begin, end).trim()
}

/// The room of lines: from `x` on, of this `width`, at this `side` of it, in type of this `size`.
#[derive(Clone, Copy, Debug)]
struct Room {
    x: Distance,
    width: Distance,
    size: Distance,
    side: Side,
}

/// Adds `runs` to `signs` in lines below `y`, and returns the place of the last line, or `y`.
fn put_lines<'a>(
    alloc: Global,
    runs: &[Run<'a>],
    room: Room,
    y: Distance,
    signs: &mut Vec<Sign<'a>>,
) -> Result<Distance, AllocError> {
    let lines = lines_of(alloc, runs, room.size, room.width)?;
    let mut down = y;
    let mut between = Distance::ZERO;
    for line in &lines {
        down += room.size + between;
        let x = line.x_at(room.side, room.x, room.width);
        line.put(x, Level::At(down), signs)?;
        between = BETWEEN_LINES;
    }
    Ok(down)
}

/// Returns the values of headers as runs, with a blank between two of them.
fn joined_runs<'a>(alloc: Global, values: &[&'a str]) -> Result<Vec<Run<'a>>, AllocError> {
    let mut runs = Vec::new(alloc);
    for value in values {
        if !runs.is_empty() && !value.is_empty() {
            runs.push(Run {
                text: " ",
                styles: Styles::PLAIN,
            })?;
        }
        add_runs(*value, &mut runs)?;
    }
    Ok(runs)
}

/// Adds the name of the score to `signs`, in the middle of a picture of this `width`, below `y`,
/// and returns the place below it.
fn put_name<'a>(
    alloc: Global,
    name: &'a str,
    width: Distance,
    y: Distance,
    signs: &mut Vec<Sign<'a>>,
) -> Result<Distance, AllocError> {
    if name.is_empty() {
        return Ok(y);
    }
    let runs = joined_runs(alloc, &[name])?;
    let room = Room {
        x: spaces::MARGIN,
        width: width - spaces::MARGIN - spaces::MARGIN,
        size: NAME_SIZE,
        side: Side::Middle,
    };
    let down = put_lines(alloc, runs.as_slice(), room, y, signs)?;
    Ok(down + Distance(400))
}

/// Adds the headers over the score to `signs`, in a picture of this `width`, below `y`, and returns
/// the place below them; `has_initial` says whether an initial has the annotations.
pub fn put_title<'a>(
    alloc: Global,
    nodes: &[Node],
    input: &'a str,
    width: Distance,
    has_initial: bool,
    y: Distance,
    signs: &mut Vec<Sign<'a>>,
) -> Result<Distance, AllocError> {
    let y = put_name(alloc, header(nodes, input, "name"), width, y, signs)?;
    let annotations = if has_initial {
        Vec::new(alloc)
    } else {
        headers(alloc, nodes, input, "annotation")?
    };
    let left = joined_runs(alloc, annotations.as_slice())?;
    let right = joined_runs(alloc, &[header(nodes, input, "commentary")])?;
    if left.is_empty() && right.is_empty() {
        return Ok(y + spaces::BELOW_TITLE);
    }
    let inner = width - spaces::MARGIN - spaces::MARGIN;
    let room = Room {
        x: spaces::MARGIN,
        width: if left.is_empty() || right.is_empty() {
            inner
        } else {
            inner.half()
        },
        size: HEAD_SIZE,
        side: Side::Left,
    };
    let y = y + BETWEEN_LINES;
    let down = put_lines(alloc, left.as_slice(), room, y, signs)?;
    let other = Room {
        x: width - spaces::MARGIN - room.width,
        side: Side::Right,
        ..room
    };
    let down = put_lines(alloc, right.as_slice(), other, y, signs)?.max(down);
    Ok(down + spaces::BELOW_TITLE)
}
