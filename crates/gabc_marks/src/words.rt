//! Texts in a picture.

use crate::distance::Distance;
use crate::styles::Styles;

/// A line of NABC, from the lowest one up.
#[derive(Clone, Copy, Debug, PartialEq, Eq)]
pub enum NabcLine {
    First,
    Second,
    Third,
    Fourth,
}

/// The line of its row that a text is on.
#[derive(Clone, Copy, Debug, PartialEq, Eq)]
pub enum Level {
    /// The sung text.
    Text,
    /// The translation below it.
    Translation,
    /// Texts over the staff.
    Above,
    Nabc(NabcLine),
    /// This distance below the lowest line of the staff.
    At(Distance),
}

/// Letters in one style, from `x` on, `width` wide, in type of this `size`.
#[derive(Clone, Copy, Debug)]
pub struct Words<'a> {
    pub text: &'a str,
    pub x: Distance,
    pub level: Level,
    pub width: Distance,
    pub size: Distance,
    pub styles: Styles,
}

/// Returns the text of the bytes from `begin` up to `end` of `input`; empty if they are not whole
/// characters of it.
pub fn text_between<'a>(input: &'a str, begin: u32, end: u32) -> &'a str {
    input.get(begin as usize..end as usize).unwrap_or("")
}
