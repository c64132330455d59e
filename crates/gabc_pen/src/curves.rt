//! Slurs and braces (GregorioRef, "Braces", "Simple Slurs").

use gabc_marks::{Bow, Distance, Sign};
use std::alloc::AllocError;

/// The height of a curve whose begin and end the score gives apart.
const HEIGHT: Distance = Distance(500);

/// The least width of a curve.
const LEAST: Distance = Distance(100);

/// The forms of curves.
#[derive(Clone, Copy, Debug, PartialEq, Eq)]
pub enum CurveKind {
    Slur,
    Round,
    Curly,
    /// A curly one with an accent over its middle.
    Accented,
}

/// The role of a curve: a whole one with a width, or the begin or the end of one.
#[derive(Clone, Copy, Debug, PartialEq, Eq)]
pub enum CurveRole {
    Whole,
    Begin,
    End,
}

/// A slur or a brace over or under the notes of a part, or one of its ends.
#[derive(Clone, Copy, Debug)]
pub struct Curve {
    pub kind: CurveKind,
    pub role: CurveRole,
    pub is_over: bool,
    pub x: Distance,
    pub y: Distance,
    pub width: Distance,
    pub height: Distance,
}

/// Returns a bow that begins at `from`, counted from the begin of `curve`; the point `bend` towards
/// which it bends, and its end `to`, count from the begin of the bow.
fn bow(
    curve: Curve,
    from: (Distance, Distance),
    bend: (Distance, Distance),
    to: (Distance, Distance),
) -> Bow {
    Bow {
        x: curve.x + from.0,
        y: curve.y + from.1,
        bend_x: bend.0,
        bend_y: bend.1,
        to_x: to.0,
        to_y: to.1,
    }
}

impl Curve {
    /// Returns the distance of its middle below its ends: negative for a curve over the notes.
    fn depth(self) -> Distance {
        if self.is_over {
            -self.height
        } else {
            self.height
        }
    }

    /// Draws it as one bow.
    fn put_round(self, signs: &mut Vec<Sign<'_>>) -> Result<(), AllocError> {
        let zero = Distance::ZERO;
        let bend = (self.width.half(), self.depth().times(2));
        signs.push(Sign::Bow(bow(self, (zero, zero), bend, (self.width, zero))))?;
        Ok(())
    }

    /// Draws it as a brace: two bows up to its middle, and two back.
    fn put_curly(self, signs: &mut Vec<Sign<'_>>) -> Result<(), AllocError> {
        let zero = Distance::ZERO;
        let (step, half) = (self.width.share(4), self.depth().half());
        let bows = [
            bow(self, (zero, zero), (zero, half), (step, half)),
            bow(self, (step, half), (step, zero), (step, half)),
            bow(
                self,
                (step.times(2), half.times(2)),
                (zero, -half),
                (step, -half),
            ),
            bow(self, (step.times(3), half), (step, zero), (step, -half)),
        ];
        for it in &bows {
            signs.push(Sign::Bow(*it))?;
        }
        Ok(())
    }

    /// Draws an accent over its middle.
    fn put_accent(self, signs: &mut Vec<Sign<'_>>) -> Result<(), AllocError> {
        let from = (
            self.width.half() - Distance(100),
            self.depth() - Distance(150),
        );
        let bend = (Distance(125), Distance(-175));
        signs.push(Sign::Bow(bow(self, from, bend, (Distance(250), Distance(-350)))))?;
        Ok(())
    }

    /// Draws it into `signs` in its form.
    fn put(self, signs: &mut Vec<Sign<'_>>) -> Result<(), AllocError> {
        match self.kind {
            CurveKind::Slur | CurveKind::Round => self.put_round(signs),
            CurveKind::Curly => self.put_curly(signs),
            CurveKind::Accented => {
                self.put_curly(signs)?;
                self.put_accent(signs)
            }
        }
    }

    /// Returns the number of its form and its side, from 0 to 7: an end belongs to the begin with
    /// the same number.
    fn number(self) -> usize {
        let form = match self.kind {
            CurveKind::Slur => 0,
            CurveKind::Round => 2,
            CurveKind::Curly => 4,
            CurveKind::Accented => 6,
        };
        if self.is_over { form + 1 } else { form }
    }

    /// Returns the whole curve from `begin` up to this end.
    fn from(self, begin: Curve) -> Curve {
        let y = if self.is_over {
            begin.y.min(self.y)
        } else {
            begin.y.max(self.y)
        };
        Curve {
            role: CurveRole::Whole,
            x: begin.x,
            y,
            width: (self.x - begin.x).max(LEAST),
            height: HEIGHT,
            ..self
        }
    }
}

/// The curves of a row while they are drawn: those that are begun, by their numbers, and the
/// highest and the lowest place that any reaches.
#[derive(Clone, Copy, Debug)]
pub struct Curves {
    begun: [Option<Curve>; 8],
    pub top: Distance,
    pub bottom: Distance,
}

impl Curves {
    /// Returns the curves of a row before any is drawn.
    pub fn new() -> Curves {
        Curves {
            begun: [None; 8],
            top: Distance::ZERO,
            bottom: Distance::ZERO,
        }
    }

    /// Draws `curve`, and widens the bounds by it.
    fn put(&mut self, curve: Curve, signs: &mut Vec<Sign<'_>>) -> Result<(), AllocError> {
        if curve.is_over {
            self.top = self.top.min(curve.y - curve.height);
        } else {
            self.bottom = self.bottom.max(curve.y + curve.height);
        }
        curve.put(signs)
    }

    /// Takes `curve` of a row of this `width`: draws a whole one, no wider than the rest of the row
    /// or `LEAST`, keeps a begin, and draws the curve that an end closes. One that begins or ends
    /// in another row is not drawn.
    fn pass(
        &mut self,
        curve: Curve,
        width: Distance,
        signs: &mut Vec<Sign<'_>>,
    ) -> Result<(), AllocError> {
        let number = curve.number();
        match curve.role {
            CurveRole::Whole => {
                let most = (width - curve.x).max(LEAST);
                let width = curve.width.min(most);
                self.put(Curve { width, ..curve }, signs)
            }
            CurveRole::Begin => {
                if number < 8 {
                    self.begun[number] = Some(curve);
                }
                Ok(())
            }
            CurveRole::End => {
                let Some(Some(begin)) = self.begun.get(number).copied() else {
                    return Ok(());
                };
                if number < 8 {
                    self.begun[number] = None;
                }
                self.put(curve.from(begin), signs)
            }
        }
    }

    /// Draws the `curves` of a part at `x`, in a row of this `width`.
    pub fn put_part(
        &mut self,
        curves: &[Curve],
        x: Distance,
        width: Distance,
        signs: &mut Vec<Sign<'_>>,
    ) -> Result<(), AllocError> {
        for it in curves {
            let curve = Curve { x: it.x + x, ..*it };
            self.pass(curve, width, signs)?;
        }
        Ok(())
    }
}
