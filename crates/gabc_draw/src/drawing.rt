//! The drawing of a score.

ghost use Rattle.std.specs.Prelude.{◌≡◌, IfOk, OnErr};
ghost use Rattle.gabc_draw.specs.Drawn.{IsPictureOf, Draws};

use crate::assemble::parts_of;
use crate::breaks::{Room, spans_of};
use crate::desk::{LaidOut, lay_out};
use crate::measures::Measures;
use crate::rows::{Rows, Staff, rows_of};
use crate::sheet::Sheet;
use gabc_lettering::{
    Initial, Language, Mark, Marks, header, initial_rows, put_mark_lines, put_title, take_letter,
};
use gabc_marks::{Distance, Picture, spaces};
use gabc_nodes::Node;
use gabc_pen::hands_of;
use gabc_places::{Put, valid_front};
use gabc_svg::put_picture;
use std::alloc::{AllocError, Global};

/// The least width of a picture.
const LEAST_WIDTH: Distance = Distance(12_000);

/// The default width of a picture.
const USUAL_WIDTH: Distance = Distance(72_000);

/// The width that the broadest clef and a custos take of a row, and the least room of a part.
const CLEF_AND_CUSTOS: Distance = Distance(4500);

const LEAST_ROOM: Distance = Distance(2000);

/// The number of parts, from the first one on, in which the letter of an initial is looked for.
const MOST_PARTS: usize = 20;

/// The options of a picture.
#[derive(Clone, Copy, Debug)]
pub struct Options<'a> {
    /// Its width, in thousandths of a staff space; less than 12,000 counts as 12,000.
    pub width: Distance,
    /// The messages that it shows, in the order of their places.
    pub marks: &'a [Mark],
}

impl<'a> Options<'a> {
    /// Returns the default options: the usual width, and no messages.
    pub fn usual() -> Options<'a> {
        Options {
            width: USUAL_WIDTH,
            marks: &[],
        }
    }
}

/// Returns the number of lines of a staff, by the `value` of the header `staff-lines`: 4, unless it
/// is a number from 2 to 5.
fn staff_lines(value: &str) -> i32 {
    match value {
        "2" => 2,
        "3" => 3,
        "5" => 5,
        _ => 4,
    }
}

/// Returns the sheet for the score `input`, whose tree is `nodes`.
fn sheet_of<'a>(
    alloc: Global,
    nodes: &[Node],
    input: &'a str,
    staff: Staff,
    marks: &'a [Mark],
) -> Sheet<'a> {
    let language = Language::of(header(nodes, input, "language"));
    let room = (staff.width - CLEF_AND_CUSTOS).max(LEAST_ROOM);
    Sheet::new(
        alloc,
        input,
        staff.lines,
        language,
        hands_of(nodes),
        room,
        marks,
    )
}

/// Removes the first letter from the text of the first of `parts` that has one, and returns it, if
/// that text begins with a letter. It looks at no more than `MOST_PARTS` parts.
fn first_letter<'a>(parts: &mut Vec<Measures<'a>>) -> Option<&'a str> {
    for part in parts.iter_mut().take(MOST_PARTS) {
        if part.text.is_some() {
            return take_letter(&mut part.signs, &mut part.text);
        }
    }
    None
}

/// Returns the initial of the score `input`, whose tree is `nodes`, and removes its letter from
/// `parts`; none if the score asks for none or begins with no letter.
fn take_initial<'a>(
    alloc: Global,
    nodes: &[Node],
    input: &'a str,
    parts: &mut Vec<Measures<'a>>,
) -> Result<Option<Initial<'a>>, AllocError> {
    let rows = initial_rows(nodes, input);
    if rows == 0 {
        return Ok(None);
    }
    match first_letter(parts) {
        Some(letter) => Ok(Some(Initial::of(alloc, nodes, input, rows, letter)?)),
        None => Ok(None),
    }
}

/// Returns `parts` broken into rows below `y`, with `initial` before the first ones.
fn set_rows<'a>(
    alloc: Global,
    parts: &[Measures<'a>],
    initial: Option<Initial<'a>>,
    staff: Staff,
    y: Distance,
) -> Result<Rows<'a>, AllocError> {
    let (indented, indent) = match &initial {
        Some(initial) => (initial.rows, initial.room),
        None => (0, Distance::ZERO),
    };
    let room = Room {
        width: staff.width - spaces::CUSTOS,
        made: 0,
        indented,
        indent,
    };
    let spans = spans_of(alloc, parts, room)?;
    rows_of(alloc, parts, spans.as_slice(), initial, staff, y)
}

/// Returns the picture of the score `input`, whose tree is `nodes`, with the messages of `options`:
/// it shows each syllable with its bytes, and in it each of its notes once for each time that it
/// sounds, in order, at the height of its pitch. It fails only if memory runs out.
pub fn picture_of<'a>(
    alloc: Global,
    nodes: &[Node],
    input: &'a [u8],
    options: Options<'a>,
) -> Result<Picture<'a>, AllocError>
    ensures { IfOk result (IsPictureOf nodes.now) }
{
    let input = valid_front(input);
    let width = options.width.max(LEAST_WIDTH);
    let staff = Staff {
        width: width - spaces::MARGIN - spaces::MARGIN,
        lines: staff_lines(header(nodes, input, "staff-lines")),
    };
    let marks = Marks::of(options.marks, nodes);
    let sheet = sheet_of(alloc, nodes, input, staff, marks.within);
    let LaidOut {
        groups,
        mut measures,
    } = lay_out(alloc, nodes, sheet)?;
    let initial = take_initial(alloc, nodes, input, &mut measures)?;
    let mut title = Vec::new(alloc);
    let y = put_mark_lines(marks.before, spaces::MARGIN, &mut title)?;
    let y = put_title(alloc, nodes, input, width, initial.is_some(), y, &mut title)?;
    let rows = set_rows(alloc, measures.as_slice(), initial, staff, y)?;
    let end = put_mark_lines(marks.after, rows.y, &mut title)?;
    let parts = parts_of(alloc, groups, measures, rows.places.as_slice())?;
    Ok(Picture {
        width,
        height: end + spaces::MARGIN,
        name: header(nodes, input, "name"),
        title,
        rows: rows.rows,
        parts,
    })
}

/// Draws the score `input`, whose tree is `nodes`, and puts the text of its picture, which is an
/// XML tree, into `out`. It fails only if memory runs out, and puts nothing then.
pub fn draw<P: Put>(
    alloc: Global,
    nodes: &[Node],
    input: &[u8],
    options: Options<'_>,
    out: &mut P,
) -> Result<(), AllocError>
    ensures drawn { IfOk result (λ _. Draws P.taken nodes.now out.old out.new) }
    ensures unchanged { OnErr result (out.new ≡ out.old) }
{
    let picture = picture_of(alloc, nodes, input, options)?;
    put_picture(&picture, out);
    Ok(())
}
