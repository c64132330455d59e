//! The initial of a score: its first letter, before the first row or the first two, with the
//! annotations over it (GregorioRef, "Headers").

use crate::runs::{Run, WordLine, add_runs, lines_of};
use crate::title::{header, headers};
use gabc_marks::{Distance, Level, Levels, Sign, Styles, Words, spaces, text_width};
use gabc_nodes::Node;
use std::alloc::{AllocError, Global};

/// The sizes of the letter before one row and before two, and of the annotations.
const ONE_ROW: Distance = Distance(4600);

const TWO_ROWS: Distance = Distance(9200);

const ANNOTATION_SIZE: Distance = Distance(1200);

/// The height over which the annotations of a letter before two rows are written, as a distance
/// below the lowest line of the first staff; their last line is `OVER_INITIAL` above it.
const TOP_OF_TWO: Distance = Distance(-1800);

/// An initial: the number of rows that it is before, its letter, and the annotations over it, from
/// the highest one down.
#[derive(Debug, Drop)]
pub struct Initial<'a> {
    pub rows: usize,
    letter: &'a str,
    size: Distance,
    annotations: Vec<WordLine<'a>>,
    /// The width that it takes of its rows.
    pub room: Distance,
}

/// Returns the number of rows that the initial of the score `input` is before, whose tree is
/// `nodes`, by the header `initial-style`: 0 or 2 if it says so, else 1.
pub fn initial_rows(nodes: &[Node], input: &str) -> usize {
    match header(nodes, input, "initial-style") {
        "0" => 0,
        "2" => 2,
        _ => 1,
    }
}

/// Returns `mode` as it is written over an initial: the Roman number of a digit from 1 to 8 with
/// which it begins, or nothing, and the rest of it.
fn mode_of(mode: &str) -> (&'static str, &str) {
    let number = match mode.as_bytes().first() {
        Some(b'1') => "I",
        Some(b'2') => "II",
        Some(b'3') => "III",
        Some(b'4') => "IV",
        Some(b'5') => "V",
        Some(b'6') => "VI",
        Some(b'7') => "VII",
        Some(b'8') => "VIII",
        _ => return ("", mode),
    };
    (number, mode.get(1..).unwrap_or(""))
}

/// Adds `value` to `runs`, after a thin blank if it begins with a letter or a digit.
fn add_modifier<'a>(value: &'a str, runs: &mut Vec<Run<'a>>) -> Result<(), AllocError> {
    if value.chars().next().is_some_and(|c| c.is_alphanumeric()) {
        runs.push(Run {
            text: "\u{2009}",
            styles: Styles::PLAIN,
        })?;
    }
    add_runs(value, runs)
}

/// Returns the mode of the score, with its modifier and its differentia; no runs if it names none
/// (GregorioRef, "Mode Headers").
fn mode_runs<'a>(
    alloc: Global,
    nodes: &[Node],
    input: &'a str,
) -> Result<Vec<Run<'a>>, AllocError> {
    let mut runs = Vec::new(alloc);
    let mode = header(nodes, input, "mode");
    if mode.is_empty() {
        return Ok(runs);
    }
    let (number, rest) = mode_of(mode);
    add_runs(number, &mut runs)?;
    add_runs(rest, &mut runs)?;
    add_modifier(header(nodes, input, "mode-modifier"), &mut runs)?;
    add_modifier(header(nodes, input, "mode-differentia"), &mut runs)?;
    Ok(runs)
}

/// Adds `runs` to `lines` as one line, if there are any.
fn push_line<'a>(
    alloc: Global,
    runs: &[Run<'a>],
    lines: &mut Vec<WordLine<'a>>,
) -> Result<(), AllocError> {
    let made = lines_of(alloc, runs, ANNOTATION_SIZE, Distance(i32::MAX))?;
    for line in made {
        lines.push(line)?;
    }
    Ok(())
}

/// Returns the annotations of the score; its mode if it has none.
fn annotations_of<'a>(
    alloc: Global,
    nodes: &[Node],
    input: &'a str,
) -> Result<Vec<WordLine<'a>>, AllocError> {
    let mut lines = Vec::new(alloc);
    let values = headers(alloc, nodes, input, "annotation")?;
    for value in &values {
        let mut runs = Vec::new(alloc);
        add_runs(*value, &mut runs)?;
        push_line(alloc, runs.as_slice(), &mut lines)?;
    }
    if values.is_empty() {
        let runs = mode_runs(alloc, nodes, input)?;
        push_line(alloc, runs.as_slice(), &mut lines)?;
    }
    Ok(lines)
}

/// Returns the capital of `letter` if it is a single small letter from a to z or from à to þ, œ or
/// ǽ; else `letter` itself.
fn capital_of(letter: &str) -> &str {
    let mut chars = letter.chars();
    let (Some(c), None) = (chars.next(), chars.next()) else {
        return letter;
    };
    let code = c as usize;
    let capital = match c {
        'a'..='z' => {
            let at = code.saturating_sub(97);
            "ABCDEFGHIJKLMNOPQRSTUVWXYZ".get(at..at.saturating_add(1))
        }
        'à'..='ö' | 'ø'..='þ' => {
            let at = code.saturating_sub(224).saturating_mul(2);
            "ÀÁÂÃÄÅÆÇÈÉÊËÌÍÎÏÐÑÒÓÔÕÖ×ØÙÚÛÜÝÞ".get(at..at.saturating_add(2))
        }
        'œ' => Some("Œ"),
        'ǽ' => Some("Ǽ"),
        _ => None,
    };
    capital.unwrap_or(letter)
}

/// Returns whether `letter` may be higher than a plain capital: a capital of Latin-1 with an accent
/// or a cedilla, `Ǽ`, or a letter with combining marks.
fn has_accent(letter: &str) -> bool {
    let mut chars = letter.chars();
    match (chars.next(), chars.next()) {
        (Some(c), None) => matches!(
            c,
            'À'..='Å' | 'Ç'..='Ï' | 'Ñ'..='Ö' | 'Ù'..='Ý' | 'Ǽ'
        ),
        _ => true,
    }
}

impl<'a> Initial<'a> {
    /// Returns the initial of the score `input`, whose tree is `nodes`, before this number of
    /// `rows`: the capital of this `letter`, with which the score begins.
    pub fn of(
        alloc: Global,
        nodes: &[Node],
        input: &'a str,
        rows: usize,
        letter: &'a str,
    ) -> Result<Initial<'a>, AllocError> {
        let annotations = annotations_of(alloc, nodes, input)?;
        let letter = capital_of(letter);
        let size = if rows == 2 { TWO_ROWS } else { ONE_ROW };
        let width = annotations
            .iter()
            .fold(text_width(letter, size), |width, it| width.max(it.width));
        Ok(Initial {
            rows,
            letter,
            size,
            annotations,
            room: width + spaces::AFTER_INITIAL,
        })
    }

    /// Returns the height of its letter: a capital has 66 hundredths of its size, and an accent
    /// over it 20 more.
    fn height(&self) -> Distance {
        let hundredths = if has_accent(self.letter) { 86 } else { 66 };
        self.size.share(100).times(hundredths)
    }

    /// Adds to `signs` what is drawn of it in the row with this `number`, from 0, which is the last
    /// one if `is_last`, and returns the top of the row with it; `top` is the one without.
    pub fn stand_in(
        &self,
        number: usize,
        is_last: bool,
        levels: Levels,
        top: Distance,
        signs: &mut Vec<Sign<'a>>,
    ) -> Result<Distance, AllocError> {
        let mut high = top;
        let middle = (self.room - spaces::AFTER_INITIAL).half();
        if number == 0 {
            high = high.min(self.put_annotations(levels, middle, signs)?);
        }
        let is_here = number.saturating_add(1) == self.rows
            || is_last && number.saturating_add(1) < self.rows;
        if is_here {
            let width = text_width(self.letter, self.size);
            signs.push(Sign::Words(Words {
                text: self.letter,
                x: middle - width.half(),
                level: Level::Text,
                width,
                size: self.size,
                styles: Styles::PLAIN,
            }))?;
            if number == 0 {
                high = high.min(levels.text - self.height());
            }
        }
        Ok(high)
    }

    /// Adds the annotations to `signs`, around `middle`, and returns the top of the highest one; 0
    /// if there are none.
    fn put_annotations(
        &self,
        levels: Levels,
        middle: Distance,
        signs: &mut Vec<Sign<'a>>,
    ) -> Result<Distance, AllocError> {
        let height = if self.rows == 2 {
            TOP_OF_TWO
        } else {
            levels.text - self.height()
        };
        let mut y = height - spaces::OVER_INITIAL;
        let mut high = Distance::ZERO;
        for line in self.annotations.iter().rev() {
            line.put(middle - line.width.half(), Level::At(y), signs)?;
            high = y - ANNOTATION_SIZE;
            y -= ANNOTATION_SIZE + Distance(100);
        }
        Ok(high)
    }
}
