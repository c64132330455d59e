//! Draws the signs on the staff that are no neumes: clefs, alterations, bars, custodes.

use crate::episemata::{ICTUS, THIN};
use crate::pen::Pen;
use crate::rhythm::height_of_step;
use gabc_marks::{Distance, Symbol};
use gabc_nodes::Node;
use std::alloc::AllocError;

/// The distance from the staff up to the signs over a bar.
const OVER: Distance = Distance(800);

/// A clef: whether it is an f clef, whether it has a flat, and the number of its line, from 1.
#[derive(Clone, Copy, Debug, PartialEq, Eq)]
pub struct OneClef {
    is_fa: bool,
    has_flat: bool,
    line: i32,
}

/// A clef, or two that are joined.
#[derive(Clone, Copy, Debug, PartialEq, Eq)]
pub struct Clef {
    first: OneClef,
    second: Option<OneClef>,
}

impl OneClef {
    /// Returns its step over the lowest line.
    fn step(self) -> i32 {
        self.line.saturating_sub(1).saturating_mul(2)
    }

    /// Returns its symbol.
    fn symbol(self) -> Symbol {
        if self.is_fa {
            Symbol::FClef
        } else {
            Symbol::CClef
        }
    }

    /// Returns its width, with its flat.
    fn width(self) -> Distance {
        let own = self.symbol().metrics().width;
        if self.has_flat {
            own + Distance(60) + Symbol::Flat.metrics().width
        } else {
            own
        }
    }

    /// Draws it at `x`.
    fn put(self, x: Distance, pen: &mut Pen<'_>) -> Result<(), AllocError> {
        pen.symbol(self.symbol(), x, height_of_step(self.step()))?;
        if self.has_flat {
            let step = self.step().saturating_add(if self.is_fa { 3 } else { -1 });
            let flat = x + self.symbol().metrics().width + Distance(60);
            pen.symbol(Symbol::Flat, flat, height_of_step(step))?;
        }
        Ok(())
    }
}

impl Clef {
    /// Returns the clef of `node`, read from its numbers.
    pub fn of(node: Node) -> Clef {
        let second = OneClef {
            is_fa: node.c / 2 % 2 == 1,
            has_flat: node.c / 4 % 2 == 1,
            line: i32::from(node.c / 8),
        };
        Clef {
            first: OneClef {
                is_fa: node.a % 2 == 1,
                has_flat: node.a / 2 % 2 == 1,
                line: i32::from(node.b),
            },
            second: if node.c % 2 == 1 { Some(second) } else { None },
        }
    }

    /// Returns the distance from the left end of the first clef to that of the `second`: the second
    /// is beside the first if both are too near for one over the other.
    fn second_x(self, second: OneClef) -> Distance {
        if self.first.step().abs_diff(second.step()) < 4 {
            self.first.width() + Distance(100)
        } else {
            Distance::ZERO
        }
    }

    /// Returns its width.
    pub fn width(self) -> Distance {
        let own = self.first.width();
        self.second
            .map_or(own, |it| own.max(self.second_x(it) + it.width()))
    }

    /// Draws it at `x`.
    pub fn put(self, x: Distance, pen: &mut Pen<'_>) -> Result<(), AllocError> {
        self.first.put(x, pen)?;
        if let Some(second) = self.second {
            second.put(x + self.second_x(second), pen)?;
        }
        Ok(())
    }
}

/// Draws the alteration of `node`, in brackets if it is a reminder, and returns its width.
pub fn put_alteration(node: Node, pen: &mut Pen<'_>) -> Result<Distance, AllocError> {
    let symbol = match node.b {
        1 => Symbol::Flat,
        2 => Symbol::Natural,
        _ => Symbol::Sharp,
    };
    let y = height_of_step(i32::from(node.a) - 3);
    let width = symbol.metrics().width;
    if node.c % 2 == 0 {
        pen.symbol(symbol, pen.x, y)?;
        return Ok(width);
    }
    let right = width + Distance(280);
    pen.symbol(Symbol::BracketLeft, pen.x, y)?;
    pen.symbol(symbol, pen.x + Distance(280), y)?;
    pen.symbol(Symbol::BracketRight, pen.x + right, y)?;
    Ok(right + Symbol::BracketRight.metrics().width)
}

/// Draws an upright line of a bar at `x`, from the height `low` over the lowest line of the staff
/// up to `high`, and returns the distance from the place of `pen` to its right edge.
fn put_upright(
    x: Distance,
    low: Distance,
    high: Distance,
    pen: &mut Pen<'_>,
) -> Result<Distance, AllocError> {
    pen.rect(x, -high, THIN, high - low)?;
    Ok(x + THIN - pen.x)
}

/// Draws a dotted bar up to the step `top`, and returns its width.
fn put_dotted(top: i32, pen: &mut Pen<'_>) -> Result<Distance, AllocError> {
    let x = pen.x;
    for step in 0..top.saturating_add(1).min(10) {
        let low = -height_of_step(step);
        put_upright(x, low, low + Distance(300), pen)?;
    }
    Ok(THIN)
}

/// Draws a bar over the whole staff, up to the height `top`, and returns its width: two lines if
/// `is_final`, else one.
fn put_whole_bar(top: Distance, is_final: bool, pen: &mut Pen<'_>) -> Result<Distance, AllocError> {
    let x = pen.x;
    let width = put_upright(x, Distance::ZERO, top, pen)?;
    if is_final {
        put_upright(x + Distance(320), Distance::ZERO, top, pen)
    } else {
        Ok(width)
    }
}

/// Draws the lines of the bar of `node` on a staff whose highest line has the step `top`, and
/// returns their width.
fn put_bar_lines(
    node: Node,
    is_dotted: bool,
    top: i32,
    pen: &mut Pen<'_>,
) -> Result<Distance, AllocError> {
    let x = pen.x;
    let high = -height_of_step(top);
    let over = if node.b == 1 {
        high + Distance(1000)
    } else {
        high
    };
    match node.a {
        0 => {
            pen.symbol(Symbol::Virgula, x, -over)?;
            Ok(Symbol::Virgula.metrics().width)
        }
        1 => put_upright(x, over - Distance(300), over + Distance(300), pen),
        2 => put_upright(x, over - Distance(500), over + Distance(500), pen),
        3 if 2 <= node.b && node.b <= 9 => {
            let low = -height_of_step(i32::from(node.b) - 3);
            put_upright(x, low, low + Distance(2000), pen)
        }
        3 => put_upright(
            x,
            Distance(500),
            (high - Distance(500)).max(Distance(1000)),
            pen,
        ),
        5 => put_whole_bar(high, true, pen),
        _ if is_dotted => put_dotted(top, pen),
        _ => put_whole_bar(high, false, pen),
    }
}

/// Draws the bar of `node` on a staff of `lines` lines, with its ictus and its brace over it, and
/// returns its width. `text` is its spelling.
pub fn put_bar(
    node: Node,
    text: &str,
    lines: i32,
    pen: &mut Pen<'_>,
) -> Result<Distance, AllocError> {
    let top = lines.saturating_mul(2).saturating_sub(2);
    let width = put_bar_lines(node, text.contains('?'), top, pen)?;
    let high = height_of_step(top) - OVER;
    let middle = pen.x + width.half();
    if text.contains('\'') {
        pen.rect(middle - THIN.half(), high - ICTUS, THIN, ICTUS)?;
    }
    if text.contains('_') {
        pen.symbol(Symbol::Brace, middle, high)?;
    }
    Ok(width)
}

/// Returns the custos of this `pitch` on a staff of `lines` lines: its tail goes down if it is more
/// than `lines` steps over the lowest line.
pub fn custos(pitch: u8, lines: i32) -> Symbol {
    if lines < i32::from(pitch) - 3 {
        Symbol::CustosDown
    } else {
        Symbol::CustosUp
    }
}
