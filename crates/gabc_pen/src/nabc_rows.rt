//! The lines of NABC over a staff, each with its reach.

use gabc_marks::{Distance, NabcLine, spaces};

/// The reach of the signs on a line of NABC: the distances upwards and downwards from that line.
#[derive(Clone, Copy, Debug)]
pub struct Reach {
    pub up: Distance,
    pub down: Distance,
}

impl Reach {
    /// Returns the larger of both reaches, in each direction.
    pub fn join(self, other: Reach) -> Reach {
        Reach {
            up: self.up.max(other.up),
            down: self.down.max(other.down),
        }
    }

    /// Returns the height of the line at which this reach lies over `top`, and its upper end.
    pub fn over(self, top: Distance) -> (Distance, Distance) {
        let y = top - spaces::BETWEEN_ROWS - self.down;
        (y, y - self.up)
    }
}

/// A value for each line of NABC.
#[derive(Clone, Copy, Debug)]
pub struct PerLine<T> {
    pub first: T,
    pub second: T,
    pub third: T,
    pub fourth: T,
}

impl<T: Copy> PerLine<T> {
    /// Returns `value` for each line.
    pub fn all(value: T) -> PerLine<T> {
        PerLine {
            first: value,
            second: value,
            third: value,
            fourth: value,
        }
    }

    /// Returns the value for `line`.
    pub fn get(self, line: NabcLine) -> T {
        match line {
            NabcLine::First => self.first,
            NabcLine::Second => self.second,
            NabcLine::Third => self.third,
            NabcLine::Fourth => self.fourth,
        }
    }

    /// Sets the value for `line`.
    pub fn set(&mut self, line: NabcLine, value: T) {
        match line {
            NabcLine::First => self.first = value,
            NabcLine::Second => self.second = value,
            NabcLine::Third => self.third = value,
            NabcLine::Fourth => self.fourth = value,
        }
    }
}

/// Returns the reach of two parts of one line together; none if nothing is on it.
fn joined(one: Option<Reach>, other: Option<Reach>) -> Option<Reach> {
    match (one, other) {
        (Some(one), Some(other)) => Some(one.join(other)),
        (one, other) => one.or(other),
    }
}

/// Returns the height of a line with this `reach` over `top`, and its upper end; an empty line
/// takes no room.
pub fn line_over(top: Distance, reach: Option<Reach>) -> (Distance, Distance) {
    reach.map_or((top, top), |reach| reach.over(top))
}

/// The reach of each line of NABC, if anything is on it.
pub type NabcRows = PerLine<Option<Reach>>;

/// Returns the reaches of `one` and `other` together, line by line.
pub fn join_rows(one: NabcRows, other: NabcRows) -> NabcRows {
    PerLine {
        first: joined(one.first, other.first),
        second: joined(one.second, other.second),
        third: joined(one.third, other.third),
        fourth: joined(one.fourth, other.fourth),
    }
}

/// Widens the reach of `line` in `rows` by `reach`.
pub fn add_reach(rows: &mut NabcRows, line: NabcLine, reach: Reach) {
    rows.set(line, joined(rows.get(line), Some(reach)));
}
