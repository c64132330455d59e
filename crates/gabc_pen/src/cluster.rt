//! The outlines of a descriptor of NABC: beside each other, and letters around these
//! (GregorioNabcRef).

use crate::nabc_rows::Reach;
use gabc_marks::{Distance, Hand, Metrics, NabcOutline};
use std::alloc::{AllocError, Global};

/// The space between two outlines.
pub(crate) const BETWEEN: Distance = Distance(90);

/// An outline at its place: its origin is at `x`, and `y` below the line.
#[derive(Clone, Copy, Debug)]
pub(crate) struct Placed {
    pub(crate) outline: NabcOutline,
    pub(crate) x: Distance,
    pub(crate) y: Distance,
}

/// The bounds of the ink of outlines.
#[derive(Clone, Copy, Debug)]
struct Ink {
    left: Distance,
    right: Distance,
    top: Distance,
    bottom: Distance,
}

impl Ink {
    /// The bounds of no outline.
    const NONE: Ink = Ink {
        left: Distance::ZERO,
        right: Distance::ZERO,
        top: Distance::ZERO,
        bottom: Distance::ZERO,
    };

    /// Returns the bounds of one outline.
    fn of(placed: Placed) -> Ink {
        let metrics = placed.outline.metrics;
        Ink {
            left: placed.x,
            right: placed.x + metrics.width,
            top: placed.y - metrics.up,
            bottom: placed.y + metrics.down,
        }
    }

    /// Returns the bounds of both together.
    fn join(self, other: Ink) -> Ink {
        Ink {
            left: self.left.min(other.left),
            right: self.right.max(other.right),
            top: self.top.min(other.top),
            bottom: self.bottom.max(other.bottom),
        }
    }

    /// Returns the left end of letters with these `metrics` at this `place` around the ink, and
    /// their distance below the line. Places count from 1 in rows of three, from the left upper
    /// corner on; `further` is the width that other letters take there.
    fn place(self, metrics: Metrics, place: u16, further: Distance) -> (Distance, Distance) {
        let column = place.saturating_sub(1) % 3;
        let is_middle = column == 1;
        let x = match column {
            0 => self.left - metrics.width - BETWEEN - further,
            1 => (self.left + self.right - metrics.width).half() + further,
            _ => self.right + BETWEEN + further,
        };
        let y = match place.saturating_sub(1) / 3 {
            0 if is_middle => self.top - BETWEEN - metrics.down,
            0 => self.top + metrics.up.half(),
            1 => (self.top + self.bottom + metrics.up - metrics.down).half(),
            _ if is_middle => self.bottom + BETWEEN + metrics.up,
            _ => self.bottom + metrics.up.half(),
        };
        (x, y)
    }
}

/// Outlines around each other: `row` bounds those beside each other, and `ink` all of them.
#[derive(Debug, Drop)]
pub(crate) struct Cluster {
    pub(crate) placed: Vec<Placed>,
    row: Ink,
    ink: Ink,
}

impl Cluster {
    /// Returns a cluster without outlines.
    pub(crate) fn new(alloc: Global) -> Cluster {
        Cluster {
            placed: Vec::new(alloc),
            row: Ink::NONE,
            ink: Ink::NONE,
        }
    }

    /// Removes all outlines.
    pub(crate) fn clear(&mut self) {
        self.placed.clear();
        self.row = Ink::NONE;
        self.ink = Ink::NONE;
    }

    /// Adds an outline at its place.
    fn push(&mut self, placed: Placed) -> Result<(), AllocError> {
        let own = Ink::of(placed);
        self.ink = if self.placed.is_empty() {
            own
        } else {
            self.ink.join(own)
        };
        self.placed.push(placed)?;
        Ok(())
    }

    /// Adds the outline of `hand` with this `name` at the right of the others, `rise` over the
    /// line, and returns whether `hand` has it. An empty `name` adds nothing and returns true.
    pub(crate) fn append(
        &mut self,
        hand: Hand,
        name: &str,
        rise: Distance,
    ) -> Result<bool, AllocError> {
        if name.is_empty() {
            return Ok(true);
        }
        let Some(outline) = hand.outline(name) else {
            return Ok(false);
        };
        let x = if self.placed.is_empty() {
            Distance::ZERO
        } else {
            self.row.right + BETWEEN
        };
        self.push(Placed {
            outline,
            x,
            y: -rise,
        })?;
        self.row = self.ink;
        Ok(true)
    }

    /// Adds letters at this `place` around the outlines beside each other. `further` is the width
    /// that other letters take there.
    pub(crate) fn surround(
        &mut self,
        outline: NabcOutline,
        place: u16,
        further: Distance,
    ) -> Result<(), AllocError> {
        let (x, y) = self.row.place(outline.metrics, place, further);
        self.push(Placed { outline, x, y })
    }

    /// Returns the left end of its ink.
    pub(crate) fn left(&self) -> Distance {
        self.ink.left
    }

    /// Returns the width of its ink.
    pub(crate) fn width(&self) -> Distance {
        self.ink.right - self.ink.left
    }

    /// Returns the reach of its ink, from the line on.
    pub(crate) fn reach(&self) -> Reach {
        Reach {
            up: -self.ink.top,
            down: self.ink.bottom,
        }
    }
}
