//! The signs of a picture: whatever is drawn besides the heads of notes.

use crate::distance::Distance;
use crate::hand::NabcOutline;
use crate::symbol::Symbol;
use crate::words::{NabcLine, Words};

/// A bow: a quadratic curve that begins at `x` and `y`. The point towards which it bends and the
/// point at which it ends count from there.
#[derive(Clone, Copy, Debug, PartialEq, Eq)]
pub struct Bow {
    pub x: Distance,
    pub y: Distance,
    pub bend_x: Distance,
    pub bend_y: Distance,
    pub to_x: Distance,
    pub to_y: Distance,
}

/// A sign of a picture.
#[derive(Clone, Copy, Debug)]
pub enum Sign<'a> {
    /// An outline with its origin at this place.
    Symbol {
        symbol: Symbol,
        x: Distance,
        y: Distance,
    },
    /// A black rectangle with its upper left corner at this place: a stem, a bar, an episema, a
    /// ledger line.
    Rect {
        x: Distance,
        y: Distance,
        width: Distance,
        height: Distance,
    },
    /// A line of the staff.
    StaffLine {
        x: Distance,
        y: Distance,
        width: Distance,
    },
    Words(Words<'a>),
    /// An outline of NABC with its origin at `x`, and `y` below its line.
    Nabc {
        outline: NabcOutline,
        line: NabcLine,
        x: Distance,
        y: Distance,
    },
    /// A piece of a slur or of a brace.
    Bow(Bow),
    /// A field around the subject of a message, with its upper left corner at this place;
    /// `is_warning` says whether the message is a warning.
    Field {
        x: Distance,
        y: Distance,
        width: Distance,
        height: Distance,
        is_warning: bool,
    },
}
