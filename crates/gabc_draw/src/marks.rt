//! The messages of a row as marks: a field around the subject of each, with its code over the row.

use crate::measures::Measures;
use gabc_lettering::CodeRows;
use gabc_marks::{Distance, Extent, Sign, spaces};
use gabc_places::{Code, Severity};
use std::alloc::AllocError;

/// A mark of a part: `about` is the extent of the block that it is about, if it is about one.
#[derive(Clone, Copy, Debug)]
pub(crate) struct PartMark {
    pub(crate) code: Code,
    pub(crate) about: Option<Extent>,
}

/// The distance from a subject to the edge of the field around it, and the least width of a field.
const AROUND: Distance = Distance(150);

const LEAST_FIELD: Distance = Distance(600);

/// Returns the extent of the subject of a `mark` of `part`: its block, or the text and the notes.
fn field_of(part: &Measures<'_>, mark: PartMark) -> Extent {
    let text = part.text.unwrap_or(part.notes.unwrap_or(Extent::NONE));
    let notes = part.notes.unwrap_or(text);
    let right = text.right.max(notes.right);
    match mark.about {
        Some(about) => about,
        None if part.text.is_some() => Extent {
            left: text.left,
            right,
        },
        None => Extent {
            left: notes.left,
            right,
        },
    }
}

/// A row with marks: its width, its top without them, and the level of its text.
#[derive(Clone, Copy, Debug)]
pub(crate) struct MarkedRow {
    pub(crate) width: Distance,
    pub(crate) top: Distance,
    pub(crate) text: Distance,
}

/// Adds the field of a `part` at `x` to `signs`, from `row.top` down to below the text, and the
/// codes of its marks to `codes`. A part without marks adds nothing.
fn put_part(
    codes: &mut CodeRows,
    part: &Measures<'_>,
    x: Distance,
    row: MarkedRow,
    signs: &mut Vec<Sign<'_>>,
) -> Result<(), AllocError> {
    let Some(first) = part.marks.as_slice().first().copied() else {
        return Ok(());
    };
    let mut field = field_of(part, first);
    let mut is_warning = true;
    for mark in &part.marks {
        let own = field_of(part, *mark);
        field = Extent {
            left: field.left.min(own.left),
            right: field.right.max(own.right),
        };
        is_warning = is_warning && mark.code.severity() == Severity::Warning;
        codes.put(mark.code, x + own.left, row.width, row.top, signs)?;
    }
    signs.push(Sign::Field {
        x: x + field.left - AROUND,
        y: row.top,
        width: (field.right - field.left + AROUND + AROUND).max(LEAST_FIELD),
        height: row.text + spaces::BELOW_TEXT - row.top,
        is_warning,
    })?;
    Ok(())
}

/// Adds the marks of `parts` at these `places` to `signs`, and returns the top of the row with
/// them.
pub(crate) fn put_marks(
    parts: &[Measures<'_>],
    places: &[Distance],
    row: MarkedRow,
    signs: &mut Vec<Sign<'_>>,
) -> Result<Distance, AllocError> {
    let mut codes = CodeRows::new();
    for (part, x) in parts.iter().zip(places) {
        put_part(&mut codes, part, *x, row, signs)?;
    }
    Ok(row.top - codes.height())
}
