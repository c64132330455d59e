//! The values of headers as words: tags of styles count as in the text of a syllable.

use crate::lettering::styles_of;
use gabc_marks::{Distance, Level, Sign, Styles, Words, styled_width};
use std::alloc::{AllocError, Global};

/// The tags of styles, each with its number.
const TAGS: [(&str, u16); 7] = [
    ("b", 1),
    ("c", 2),
    ("e", 4),
    ("i", 8),
    ("sc", 16),
    ("tt", 32),
    ("ul", 64),
];

/// Letters of a header in one style.
#[derive(Clone, Copy, Debug)]
pub(crate) struct Run<'a> {
    pub(crate) text: &'a str,
    pub(crate) styles: Styles,
}

/// Words beside each other from 0 on, and their width.
#[derive(Debug, Drop)]
pub struct WordLine<'a> {
    pub(crate) words: Vec<Words<'a>>,
    pub width: Distance,
}

/// The side of its room at which a line is set.
#[derive(Clone, Copy, Debug, PartialEq, Eq)]
pub(crate) enum Side {
    Left,
    Middle,
    Right,
}

/// Returns the length in bytes of the tag of a style with which `text` begins, and the number of
/// the styles in force after it, if they were `styles` before; nothing if it begins with none.
fn tag_at(text: &str, styles: u16) -> Option<(usize, u16)> {
    let inner = text.strip_prefix('<')?;
    let (is_end, inner) = match inner.strip_prefix('/') {
        Some(inner) => (true, inner),
        None => (false, inner),
    };
    for (name, number) in &TAGS {
        if let Some(later) = inner
            .strip_prefix(*name)
            .and_then(|it| it.strip_prefix('>'))
        {
            let length = text.len().saturating_sub(later.len());
            let without = styles & !*number;
            return Some((length, if is_end { without } else { without | *number }));
        }
    }
    None
}

/// Appends `text` to `runs`, if it is not empty.
fn push_run<'a>(text: &'a str, styles: u16, runs: &mut Vec<Run<'a>>) -> Result<(), AllocError> {
    if !text.is_empty() {
        runs.push(Run {
            text,
            styles: styles_of(styles),
        })?;
    }
    Ok(())
}

/// Appends the `value` of a header to `runs`, cut at the tags of styles.
pub(crate) fn add_runs<'a>(value: &'a str, runs: &mut Vec<Run<'a>>) -> Result<(), AllocError> {
    let mut styles = 0;
    let mut begin: usize = 0;
    let mut at: usize = 0;
    for c in value.chars() {
        let tag = if c == '<' {
            tag_at(value.get(at..).unwrap_or(""), styles)
        } else {
            None
        };
        if let Some((length, after)) = tag {
            push_run(value.get(begin..at).unwrap_or(""), styles, runs)?;
            begin = at.saturating_add(length);
            styles = after;
        }
        at = at.saturating_add(c.len_utf8());
    }
    push_run(value.get(begin..).unwrap_or(""), styles, runs)
}

/// The numbers of bytes of a text that fit into a room: up to the last blank after which a word
/// does not fit, or all; and up to the last character.
#[derive(Clone, Copy, Debug)]
struct Fits {
    words: usize,
    letters: usize,
}

/// Returns the numbers of bytes of `text` that fit into `room` in type of this `size`.
fn fitting(text: &str, size: Distance, styles: Styles, room: Distance) -> Fits {
    let mut width = Distance::ZERO;
    let mut fits = Fits {
        words: 0,
        letters: 0,
    };
    for c in text.chars() {
        if c == ' ' {
            fits.words = fits.letters;
        }
        let mut buffer = [0; 4];
        width += styled_width(c.encode_utf8(&mut buffer), size, styles);
        if room < width {
            return fits;
        }
        fits.letters = fits.letters.saturating_add(c.len_utf8());
    }
    fits.words = fits.letters;
    fits
}

/// Returns as much of the begin of `text` as fits into `room` in type of this `size`.
pub(crate) fn front_within(text: &str, size: Distance, styles: Styles, room: Distance) -> &str {
    text.get(..fitting(text, size, styles, room).letters)
        .unwrap_or("")
}

impl<'a> WordLine<'a> {
    /// Returns a line of no words.
    pub(crate) fn new(alloc: Global) -> WordLine<'a> {
        WordLine {
            words: Vec::new(alloc),
            width: Distance::ZERO,
        }
    }

    /// Adds `text` to the line, in type of this `size`.
    fn add(&mut self, text: &'a str, size: Distance, styles: Styles) -> Result<(), AllocError> {
        let width = styled_width(text, size, styles);
        self.words.push(Words {
            text,
            x: self.width,
            level: Level::Text,
            width,
            size,
            styles,
        })?;
        self.width += width;
        Ok(())
    }

    /// Adds its words to `signs`, from `x` on, on this `level`.
    pub fn put(
        &self,
        x: Distance,
        level: Level,
        signs: &mut Vec<Sign<'a>>,
    ) -> Result<(), AllocError> {
        for it in &self.words {
            let mut words = *it;
            words.x += x;
            words.level = level;
            signs.push(Sign::Words(words))?;
        }
        Ok(())
    }

    /// Returns the left end of the line at this `side` of a room of this `width`, which begins at
    /// `left`.
    pub(crate) fn x_at(&self, side: Side, left: Distance, width: Distance) -> Distance {
        let free = width - self.width;
        match side {
            Side::Left => left,
            Side::Middle => left + free.half(),
            Side::Right => left + free,
        }
    }
}

/// Returns the number of bytes of `text` before the break of its line, and whether the line is full
/// then. A line that is empty takes at least a character.
fn break_of(text: &str, fits: Fits, is_empty: bool) -> (usize, bool) {
    if 0 < fits.words {
        return (fits.words, fits.words < text.len());
    }
    if is_empty {
        let first = text.chars().next().map_or(1, |c| c.len_utf8());
        let letters = fits.letters.max(first);
        return (letters, letters < text.len());
    }
    (0, true)
}

/// Adds as much of the begin of `text` to `lines` as fits into the last one, in type of this
/// `size`, and begins a further one if that is full. Returns the number of bytes that are added, or
/// are blanks at the end of a line.
fn add_front<'a>(
    alloc: Global,
    text: &'a str,
    styles: Styles,
    size: Distance,
    room: Distance,
    lines: &mut Vec<WordLine<'a>>,
) -> Result<usize, AllocError> {
    let mut line = lines.pop().unwrap_or(WordLine::new(alloc));
    let fits = fitting(text, size, styles, room - line.width);
    let (taken, is_full) = break_of(text, fits, line.words.is_empty());
    let front = text.get(..taken).unwrap_or(text);
    if !front.is_empty() {
        line.add(front, size, styles)?;
    }
    lines.push(line)?;
    if !is_full {
        return Ok(taken);
    }
    lines.push(WordLine::new(alloc))?;
    let later = text.get(taken..).unwrap_or("");
    let blanks = later.len().saturating_sub(later.trim_start().len());
    Ok(taken.saturating_add(blanks))
}

/// Adds the words of `run` to `lines`, in type of this `size`, each no wider than `room`.
fn add_run<'a>(
    alloc: Global,
    run: Run<'a>,
    size: Distance,
    room: Distance,
    lines: &mut Vec<WordLine<'a>>,
) -> Result<(), AllocError> {
    let mut at: usize = 0;
    for _ in 0..run.text.len() {
        let text = run.text.get(at..).unwrap_or("");
        if text.is_empty() {
            break;
        }
        let count = add_front(alloc, text, run.styles, size, room, lines)?;
        at = at.saturating_add(count);
    }
    Ok(())
}

/// Returns `runs` as lines of words in type of this `size`, broken at blanks if possible, each no
/// wider than `room` or one character.
pub(crate) fn lines_of<'a>(
    alloc: Global,
    runs: &[Run<'a>],
    size: Distance,
    room: Distance,
) -> Result<Vec<WordLine<'a>>, AllocError> {
    let mut lines = Vec::new(alloc);
    for run in runs {
        add_run(alloc, *run, size, room, &mut lines)?;
    }
    Ok(lines)
}
