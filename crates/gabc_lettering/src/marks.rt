//! The messages of a score in its picture: their codes over the rows, or in lines of their own.

use gabc_marks::{Distance, Level, Sign, Styles, Words, spaces, text_width};
use gabc_nodes::{Kind, Node};
use gabc_places::{Code, Severity};
use std::alloc::AllocError;

/// A message that a picture shows: its code, and the byte of the score at its place, from 0.
#[derive(Clone, Copy, Debug, PartialEq, Eq)]
pub struct Mark {
    pub at: u32,
    pub code: Code,
}

impl Mark {
    /// Returns whether it comes after all syllables, if the last one ends before the byte `end`:
    /// its place is there or later, or it is a fatal fault.
    fn is_after(&self, end: u32) -> bool {
        end <= self.at || self.code.severity() == Severity::Fatal
    }
}

/// The size of a code, and the distance between two rows of codes.
const CODE_SIZE: Distance = Distance(900);

const CODE_ROW: Distance = Distance(1050);

/// The space between two codes, and that between the first row of codes and the signs below it.
const BETWEEN: Distance = Distance(300);

const OVER: Distance = Distance(250);

const MOST_ROWS: usize = 8;

/// The styles of a code.
const CODE_STYLES: Styles = Styles {
    bold: true,
    red: true,
    ..Styles::PLAIN
};

/// Returns the words of a code at this place.
fn code_words<'a>(text: &'a str, x: Distance, y: Distance) -> Words<'a> {
    Words {
        text,
        x,
        level: Level::At(y),
        width: code_width(text),
        size: CODE_SIZE,
        styles: CODE_STYLES,
    }
}

/// Returns the width of a code: three tenths more than in plain letters.
fn code_width(text: &str) -> Distance {
    text_width(text, CODE_SIZE).times(13).share(10)
}

/// The marks of a picture: those before all syllables, those of syllables, and those after them.
#[derive(Clone, Copy, Debug)]
pub struct Marks<'a> {
    pub before: &'a [Mark],
    pub within: &'a [Mark],
    pub after: &'a [Mark],
}

/// Returns the first byte of the first syllable of `nodes`, and the byte after the last one;
/// `u32::MAX` and 0 if there is none.
fn syllables_in(nodes: &[Node]) -> (u32, u32) {
    let mut begin = None;
    let mut end = 0;
    for node in nodes {
        if node.kind == Kind::Syllable {
            begin = begin.or(Some(node.begin));
            end = node.end;
        }
    }
    (begin.unwrap_or(u32::MAX), end)
}

impl<'a> Marks<'a> {
    /// Returns `marks`, which are in the order of their places, parted by the syllables of `nodes`.
    /// Of a fatal fault, and after it, none belongs to a syllable.
    pub fn of(marks: &'a [Mark], nodes: &[Node]) -> Marks<'a> {
        if marks.is_empty() {
            return Marks {
                before: &[],
                within: &[],
                after: &[],
            };
        }
        let (begin, end) = syllables_in(nodes);
        let first = marks
            .iter()
            .position(|mark| begin <= mark.at || mark.is_after(end))
            .unwrap_or(marks.len());
        let later = marks.get(first..).unwrap_or(&[]);
        let last = later
            .iter()
            .position(|mark| mark.is_after(end))
            .unwrap_or(later.len());
        Marks {
            before: marks.get(..first).unwrap_or(&[]),
            within: later.get(..last).unwrap_or(&[]),
            after: later.get(last..).unwrap_or(&[]),
        }
    }
}

/// Adds marks that belong to no syllable to `signs`, below `y`, a line for each, and returns the
/// place of the last line, or `y`.
pub fn put_mark_lines(
    marks: &[Mark],
    y: Distance,
    signs: &mut Vec<Sign<'_>>,
) -> Result<Distance, AllocError> {
    let mut down = y;
    for mark in marks {
        down += CODE_ROW + Distance(200);
        let name = code_words(mark.code.name(), spaces::MARGIN, down);
        let x = spaces::MARGIN + name.width + BETWEEN;
        signs.push(Sign::Words(name))?;
        signs.push(Sign::Words(code_words(mark.code.text(), x, down)))?;
    }
    Ok(down)
}

/// The codes that are put over a row: the right end of each row of them, and the number of these
/// rows.
#[derive(Clone, Copy, Debug)]
pub struct CodeRows {
    ends: [Distance; MOST_ROWS],
    count: usize,
}

impl CodeRows {
    /// Returns no rows of codes.
    pub fn new() -> CodeRows {
        CodeRows {
            ends: [Distance::ZERO; MOST_ROWS],
            count: 0,
        }
    }

    /// Returns the number of the lowest row with room from `x` on, or of the highest row if none
    /// has room.
    fn row_for(&self, x: Distance) -> usize {
        let free = self.ends.iter().position(|end| *end <= x);
        free.unwrap_or(MOST_ROWS - 1)
    }

    /// Returns the height of all rows of codes.
    pub fn height(&self) -> Distance {
        CODE_ROW.times(i32::try_from(self.count).unwrap_or(0))
    }

    /// Adds `code` at `x` to `signs`, over `top`, in a row of this `width`.
    pub fn put(
        &mut self,
        code: Code,
        x: Distance,
        width: Distance,
        top: Distance,
        signs: &mut Vec<Sign<'_>>,
    ) -> Result<(), AllocError> {
        let name = code.name();
        let x = x.min(width - code_width(name)).max(Distance::ZERO);
        let row = self.row_for(x);
        let number = i32::try_from(row).unwrap_or(0);
        let words = code_words(name, x, top - OVER - CODE_ROW.times(number));
        if row < MOST_ROWS {
            self.ends[row] = x + words.width + BETWEEN;
        }
        self.count = self.count.max(row.saturating_add(1));
        signs.push(Sign::Words(words))?;
        Ok(())
    }
}
