//! A picture: rows, and the parts of syllables in them.

use crate::distance::Distance;
use crate::head::NoteHead;
use crate::sign::Sign;

/// A syllable, or the part of it in one row, with the bytes of its syllable in the file: from
/// `begin` up to before `end`.
#[derive(Debug, Drop)]
pub struct Part<'a> {
    pub begin: u32,
    pub end: u32,
    /// The number of the syllable, from 1.
    pub number: u32,
    /// Whether it is the first part of its syllable.
    pub is_first: bool,
    /// Its place in its row, from which the places of its heads and signs count.
    pub x: Distance,
    pub heads: Vec<NoteHead>,
    pub signs: Vec<Sign<'a>>,
}

/// The distances of the texts of a staff below its lowest line.
#[derive(Clone, Copy, Debug, PartialEq, Eq)]
pub struct Levels {
    pub text: Distance,
    pub translation: Distance,
    pub above: Distance,
    /// The lines of NABC.
    pub first: Distance,
    pub second: Distance,
    pub third: Distance,
    pub fourth: Distance,
}

/// A row of the picture: the lowest line of its staff is `y` below the top of the picture, and its
/// places count from `x`. It has the next `parts` parts of the picture; the last row has all that
/// are left.
#[derive(Debug, Drop)]
pub struct Row<'a> {
    pub x: Distance,
    pub y: Distance,
    pub levels: Levels,
    pub parts: usize,
    /// The signs that belong to no syllable: the staff, the clef at its begin, the custos at its
    /// end, hyphens.
    pub signs: Vec<Sign<'a>>,
}

/// A picture: its size, the signs over and below the score (`title`), its rows, and the parts in
/// them.
#[derive(Debug, Drop)]
pub struct Picture<'a> {
    pub width: Distance,
    pub height: Distance,
    /// The name of the score; empty if it has none.
    pub name: &'a str,
    pub title: Vec<Sign<'a>>,
    pub rows: Vec<Row<'a>>,
    pub parts: Vec<Part<'a>>,
}
